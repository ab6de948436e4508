// The fields of every class in heap order: a table of their types, filled once, and where a field stands.
#![tactic(auto)]

ghost use Rattle.std.specs.Prelude.{◌≡◌, None, ◌+◌, ◌*◌, ◌-◌, ◌/◌, ◌≤◌, ◌<◌, length};
ghost use Rattle.order.specs.Rules.{first_place};
ghost use Rattle.image.specs.Numbers.{highest_name, most_classes};
ghost use Rattle.image.specs.Records.{field_word};
ghost use Rattle.image.specs.Trailer.{class_count};
ghost use Rattle.rules.specs.Maps.{tabulate};
ghost use Rattle.rules.specs.Program.{field_at, program};
ghost use Rattle.rules.specs.Classes.{own, has_fields, field_index};
ghost use Rattle.rules.specs.Numbers.{most_fields_above, fields_rule};
ghost use Rattle.laws.specs.Heap.{place};
ghost use Rattle.rows.specs.Rows.{row_words, Rows, Upto, Copied, NoneBelow, OwnFields};

use classes::Members;
use image::Image;

// Words of a class's row in the table of types: as many as a class may have fields.
pub const ROW_WORDS: usize = 15;

// Words of the table of types that any image's classes fit: a row for each of the 256 that one may have.
pub const TABLE_WORDS: usize = 3840;

// An image with the fields of its classes: how many each class has, and their types, in heap order. Both are lent, since memory is fixed: a
// count for each class that there may be, and as many rows as the caller has room for.
#[derive(Clone, Copy)]
pub struct Table<'a> {
    pub image: Image<'a>,
    pub counts: &'a [usize],
    pub types: &'a [u32],
    ghost rows: { Rows image.words.now counts.now types.now },
}

// Class c's row begins as class s's does, with n types.
fn copy_row(types: &mut [u32], s: usize, c: usize, n: usize)
    requires { (s < c) × (c < most_classes) × (n ≤ most_fields_above) × (row_words * (c + 1) ≤ length types.old) }
    ensures { Copied types.old types.new s c n }
{
    let from = ROW_WORDS * s;
    types.copy_within(from..from + n, ROW_WORDS * c);
}

// Where the records of class c end that begin at i. Fields are sorted by class.
#[tactic(auto, using(crate::specs::RowLaws::own_at_end, crate::specs::RowLaws::owned_on))]
fn own_end(image: &Image, c: usize, i: usize) -> usize
    requires { (i ≤ image.now.layout.field_count) × NoneBelow image.now.words.now c i }
    ensures { OwnFields image.now.words.now c i result }
{
    for j in i..image.layout.field_count {
        if image.field_word(j, 0) as usize != c {
            return j;
        }
    }
    image.layout.field_count
}

// Class c's row: its superclass's, and then the fields that it declares. Those begin at record i; the answer is where they end.
fn fill_row(image: &Image, counts: &mut [usize], types: &mut [u32], c: usize, i: usize) -> usize
    requires { Upto image.now.words.now counts.old types.old c i × (0 < c) × (c < class_count image.now.words.now) × (first_place (fields_rule image.now.words.now) ≡ None) }
    ensures { Upto image.now.words.now counts.new types.new (c + 1) result }
{
    let s = image.class_word(c) as usize;
    let above = counts[s];
    copy_row(types, s, c, above);
    let end = own_end(image, c, i);
    for j in i..end {
        types[ROW_WORDS * c + (above + (j - i))] = image.field_word(j, 2);
    }
    counts[c] = above + (end - i);
    end
}

// The table of every class's fields, in heap order: how many each class has, and their types.
pub fn fill_rows(image: &Image, counts: &mut [usize], types: &mut [u32])
    requires { (first_place (fields_rule image.now.words.now) ≡ None) × (length counts.old ≡ most_classes) × (row_words * class_count image.now.words.now ≤ length types.old) }
    ensures { Rows image.now.words.now counts.new types.new }
{
    counts[0] = 0;
    let mut i = 0;
    for c in 1..image.layout.class_count {
        i = fill_row(image, counts, types, c, i);
    }
}

// How many of the records before record i are of its class, d. They stand just before it, and are at most 15: a search by halves is longer.
// It goes down from a record and `own_end` up from one: a loop of both would need to be told the way.
#[tactic(auto, using(crate::specs::IndexLaws::rank_start, crate::specs::IndexLaws::rank_back))]
fn own_rank(image: &Image, d: usize, i: usize) -> usize
    requires { (i < image.now.layout.field_count) × (field_word image.now.words.now i 0 ≡ d) }
    ensures { result ≡ length (own (program image.now.words.now) (tabulate i (field_at image.now.words.now)) d) }
{
    for k in (0..i).rev() {
        if image.field_word(k, 0) as usize != d {
            return i - k - 1;
        }
    }
    i
}

// The index of the field of a name that class d declares, among the fields of an object of d or of a class below it. The
// fields above d come first.
pub fn field_index(table: &Table, d: usize, name: usize) -> Option<usize>
    requires { (d < table.now.image.layout.class_count) × (name ≤ highest_name) }
    ensures { place result ≡ field_index (has_fields (program table.now.image.words.now) d) d name }
{
    let image = &table.image;
    let seen = classes::look_up(image, Members::Fields, d, name)?;
    if seen.owner != d {
        return None;
    }
    let s = image.class_word(d) as usize;
    let rank = own_rank(image, d, seen.record);
    Some(table.counts[s] + rank)
}
