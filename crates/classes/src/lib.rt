// Subclass, subtype, and the member of a name that a class sees.
// All of it is about an image, whose layout is accepted: there a superclass has a lower number, so every walk upwards ends, and the
// tables of members are sorted, so that a member is looked up by halves.
#![tactic(auto)]

ghost use Rattle.std.specs.Prelude.{◌≡◌, true, [], ◌+◌, ◌*◌, ◌^◌, ◌≤◌, ◌<◌, length, get_or};
ghost use Rattle.image.specs.Numbers.{highest_name};
ghost use Rattle.image.specs.Trailer.{class_count};
ghost use Rattle.words.specs.Types.{known};
ghost use Rattle.rules.specs.Program.{program};
ghost use Rattle.rules.specs.Classes.{subclass, subtype, same_type};
ghost use Rattle.classes.specs.Sees.{Sees};
ghost use Rattle.classes.specs.Keys.{names, count_of, key_of, Finds};
ghost use Rattle.classes.specs.Search.{Rising};
ghost use Rattle.classes.specs.Chunks.{chunk_key};

use image::Image;
use words::Ty;

// How many names there are. A key is a class's number times this, plus the name.
const NAMES: usize = 65536;

// The two tables of members. Each is sorted by (class, name).
#[derive(Clone, Copy)]
pub enum Members {
    Fields,
    Methods,
}

// A member that a class sees: the class that declares it, and its record.
#[derive(Clone, Copy)]
pub struct Member {
    pub owner: usize,
    pub record: usize,
}

// Whether class c is class d or below it. Superclasses have lower numbers, so the walk need not pass d.
pub fn is_subclass(image: &Image, c: usize, d: usize) -> bool
    requires { c < image.now.layout.class_count }
    ensures { result ≡ subclass (program image.now.words.now) c d }
{
    let mut at = c;
    while d < at {
        at = image.class_word(at) as usize;
    }
    at == d
}

// Whether two types are the same.
#[tactic(auto, using(crate::specs::Types::same_class), unfolding(words::specs::Types::type_word))]
pub fn same_type(t: Ty, u: Ty) -> bool
    ensures { result ≡ same_type t u }
{
    t == u
}

// Whether type t is a subtype of type u: the type itself, the null type below every class, a subclass.
#[tactic(auto, unfolding(rules::specs::Classes::subtype, words::specs::Types::type_word))]
pub fn is_subtype(image: &Image, t: Ty, u: Ty) -> bool
    requires { known t (class_count image.now.words.now) ≡ true }
    ensures { result ≡ subtype (program image.now.words.now) t u }
{
    match (t, u) {
        (Ty::NT, Ty::Class(_)) => true,
        (Ty::Class(c), Ty::Class(d)) => is_subclass(image, c as usize, d as usize),
        _ => same_type(t, u),
    }
}

// The key of a class and a name. Keys are ordered as the pairs are.
fn key(c: usize, name: usize) -> usize
    requires { (c < 2 ^ 32) × (name < 2 ^ 32) }
    ensures { result ≡ c * names + name }
{
    c * NAMES + name
}

// The record of a key, of records that rise by their keys. The first two words of a record are its class and its name. By halves, and not
// by the library's search, which goes on where it has met the key.
fn find<const N: usize>(records: &[[u32; N]], wanted: usize) -> Option<usize>
    requires { (1 < N) × Rising (λ i. chunk_key (get_or records.now i [])) (length records.now) }
    ensures { Finds (λ i. chunk_key (get_or records.now i [])) (length records.now) wanted result }
{
    let mut lo = 0;
    let mut hi = records.len();
    while lo < hi {
        let mid = lo + (hi - lo) / 2;
        let k = key(records[mid][0] as usize, records[mid][1] as usize);
        if k == wanted {
            return Some(mid);
        }
        if k < wanted {
            lo = mid + 1;
        } else {
            hi = mid;
        }
    }
    None
}

// The record of a name that class c itself declares. A field's record is 3 words, and a method's 6.
fn own(image: &Image, m: Members, c: usize, name: usize) -> Option<usize>
    requires { (c < image.now.layout.class_count) × (name ≤ highest_name) }
    ensures { Finds (key_of image.now.words.now m) (count_of image.now.words.now m) (c * names + name) result }
{
    let wanted = key(c, name);
    let l = image.layout;
    match m {
        Members::Fields => {
            let (fields, _) = image.words[l.fields..l.methods].as_chunks::<3>();
            find(fields, wanted)
        },
        Members::Methods => {
            let (methods, _) = image.words[l.methods..l.types].as_chunks::<6>();
            find(methods, wanted)
        },
    }
}

// The member of a name that class c sees: the first one on the way up. A name is a word of the image below 2^16: as a u16 it would be cast
// when it is read, and back for its key.
pub fn look_up(image: &Image, m: Members, c: usize, name: usize) -> Option<Member>
    requires { (c < image.now.layout.class_count) × (name ≤ highest_name) }
    ensures { Sees image.now.words.now m c name result }
{
    let mut at = c;
    'up: loop {
        if let Some(record) = own(image, m, at, name) {
            break 'up Some(Member { owner: at, record });
        }
        if at == 0 {
            break 'up None;
        }
        at = image.class_word(at) as usize;
    }
}
