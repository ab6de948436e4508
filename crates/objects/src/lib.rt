// Objects: where a field stands in the heap's words, and new objects.
#![tactic(auto)]

ghost use Rattle.std.specs.Prelude.{◌≡◌, ◌*◌, ◌≤◌, ◌<◌, length, get_or};
ghost use Rattle.image.specs.Numbers.{highest_name};
ghost use Rattle.image.specs.Trailer.{class_count};
ghost use Rattle.rules.specs.Program.{program};
ghost use Rattle.rules.specs.Heap.{slot_words};
ghost use Rattle.laws.specs.Heap.{Words};
ghost use Rattle.laws.specs.Values.{IsValue};
ghost use Rattle.rows.specs.Rows.{Sizes, Rows};
ghost use Rattle.objects.specs.Spots.{Spotted};
ghost use Rattle.objects.specs.Made.{Made};

use heap::{NULL_POINTER, SLOT_WORDS};
use redexes::{ADDRESS, NULL, Outcome};
use rows::{ROW_WORDS, Table};
use words::TAG;

// Where the field stands that class d declares by that name, of the object whose address is the value of word w: it gives the index of
// its word in the heap. An object has it where its class is d or below, at the index that it has in d.
pub fn field_spot(table: &Table, heap: &[u64], name: usize, d: usize, w: u64) -> Outcome<usize>
    requires { Words (program table.now.image.words.now) (class_count table.now.image.words.now) heap.now × (d < table.now.image.layout.class_count) × (name ≤ highest_name) × IsValue w }
    ensures { Spotted table.now.image.words.now heap.now name d w result }
{
    let tag = w / TAG;
    if tag == NULL {
        return Outcome::Raises(NULL_POINTER);
    }
    if tag != ADDRESS {
        return Outcome::Fails;
    }
    let a = (w % TAG) as usize;
    let Some(c) = heap::class_at(heap, a) else {
        return Outcome::Fails;
    };
    if !classes::is_subclass(&table.image, c, d) {
        return Outcome::Fails;
    }
    match rows::field_index(table, d, name) {
        Some(i) => Outcome::Gives(SLOT_WORDS * a + 1 + i),
        None => Outcome::Fails,
    }
}

// A new object of class c in slot a, which is free: its class word, and the default of each field's type.
pub fn new_object(table: &Table, heap: &mut [u64], a: usize, c: usize)
    requires { Words (program table.now.image.words.now) (class_count table.now.image.words.now) heap.old × (c < table.now.image.layout.class_count) × (slot_words * a < length heap.old) × (get_or heap.old (slot_words * a) 0 ≡ 0) }
    ensures { Made table.now.image.words.now heap.old heap.new a c }
{
    let n = table.counts[c];
    heap[SLOT_WORDS * a] = (c + 1) as u64;
    for k in 0..n {
        let t = table.types[ROW_WORDS * c + k];
        heap[SLOT_WORDS * a + 1 + k] = heap::default_word(t);
    }
}
