// The decisions of a step, on value words. Nothing is changed here.
// A value's word is a plain u64 with the clause `IsValue`: as a type of its own it would be packed at each read of heap and room, and
// unpacked at each comparison and write.
#![tactic(auto)]

ghost use Rattle.std.specs.Prelude.{◌≡◌, ℕ, ◌≤◌, ◌<◌};
ghost use Rattle.words.specs.declared.Value.{Value};
ghost use Rattle.words.specs.declared.Value.TheVariants.{Addr};
ghost use Rattle.words.specs.Value.{addresses, value_with};
ghost use Rattle.image.specs.Numbers.{highest_name};
ghost use Rattle.image.specs.Nodes.{node_word};
ghost use Rattle.image.specs.Trailer.{class_count};
ghost use Rattle.rules.specs.Trees.{written};
ghost use Rattle.rules.specs.Program.{program};
ghost use Rattle.rules.specs.Heap.{Heap, heap_of};
ghost use Rattle.rules.specs.Step.{same_value, add_redex, cast_redex};
ghost use Rattle.laws.specs.Values.{value_at, IsValue};
ghost use Rattle.laws.specs.Heap.{Words};
ghost use Rattle.redexes.specs.Outcomes.{redex_of, Sound, Chooses, Throws, Calls, Tries};

use classes::Members;
use heap::{CLASS_CAST, NULL_POINTER};
use image::Image;
use words::TAG;

// The tags of value words.
pub const NULL: u64 = 1;

pub const INTEGER: u64 = 3;

pub const ADDRESS: u64 = 4;

// What a redex comes to: what it gives, a system exception's address that is thrown, or no rule.
#[derive(Clone, Copy)]
pub enum Outcome<T> {
    Gives(T),
    Raises(usize),
    Fails,
}

// What a Call enters: the object that is its receiver, by its address, and the method's record.
#[derive(Clone, Copy)]
pub struct Entry {
    pub object: usize,
    pub method: usize,
}

// An Add of two values. The tags add up to a multiple of 2^32, so the sum's low bits are the payloads' sum, wrapped.
#[tactic(auto, using(crate::specs::RedexLaws::add_sum, crate::specs::RedexLaws::add_word, crate::specs::RedexLaws::add_fails, laws::specs::Tags::tag_small))]
pub fn add_redex(v: u64, w: u64) -> Outcome<u64>
    requires { IsValue v × IsValue w }
    ensures { ((h : Heap) → redex_of h result ≡ add_redex h (value_at v) (value_at w)) × Sound result }
{
    if (v / TAG == INTEGER) & (w / TAG == INTEGER) {
        Outcome::Gives(3 * TAG + (v + w) % TAG)
    } else {
        Outcome::Fails
    }
}

// An Eq of two values. Values are the same when their words are.
#[tactic(auto, using(crate::specs::RedexLaws::eq_same, crate::specs::RedexLaws::eq_other, crate::specs::RedexLaws::true_word, crate::specs::RedexLaws::false_word))]
pub fn eq_redex(v: u64, w: u64) -> u64
    requires { IsValue v × IsValue w }
    ensures { (value_at result ≡ Value.Bool (same_value (value_at v) (value_at w))) × IsValue result }
{
    if v == w { 2 * TAG + 1 } else { 2 * TAG }
}

// An If on the value of a word: what its condition says, where it says something. A word that stands for no value says nothing.
#[tactic(auto, using(crate::specs::RedexLaws::if_then, crate::specs::RedexLaws::if_otherwise, crate::specs::RedexLaws::if_fails))]
pub fn if_redex(w: u64) -> Option<bool>
    ensures { Chooses w result }
{
    if w == 2 * TAG + 1 {
        return Some(true);
    }
    if w == 2 * TAG {
        return Some(false);
    }
    None
}

// A Throw of a value. An address is what it throws; Null becomes NullPointer's. A Cast and a Call ask a value for an object too, but Null
// and an address come to something else in each of the three.
#[tactic(auto, using(crate::specs::RedexLaws::throw_null, crate::specs::RedexLaws::throw_fails))]
pub fn throw_redex(w: u64) -> Outcome<usize>
    requires { IsValue w }
    ensures { Throws w result }
{
    match w / TAG {
        NULL => Outcome::Raises(NULL_POINTER),
        ADDRESS => Outcome::Gives((w % TAG) as usize),
        _ => Outcome::Fails,
    }
}

// A Cast of an address, whose word is w.
#[tactic(auto, using(crate::specs::RedexLaws::cast_free, crate::specs::RedexLaws::cast_below, crate::specs::RedexLaws::cast_other, crate::specs::RedexLaws::object_class))]
fn cast_address(image: &Image, heap: &[u64], c: usize, w: u64, a: usize) -> Outcome<u64>
    requires { Words (program image.now.words.now) (class_count image.now.words.now) heap.now × (a < addresses) × (value_at w ≡ Addr a) × IsValue w }
    ensures { (redex_of (heap_of (program image.now.words.now) heap.now) result ≡ cast_redex (program image.now.words.now) (heap_of (program image.now.words.now) heap.now) c (Addr a)) × Sound result }
{
    let Some(d) = heap::class_at(heap, a) else {
        return Outcome::Fails;
    };
    if classes::is_subclass(image, d, c) {
        Outcome::Gives(w)
    } else {
        Outcome::Raises(CLASS_CAST)
    }
}

// A Cast of a value to class c.
#[tactic(auto, using(crate::specs::RedexLaws::cast_null, crate::specs::RedexLaws::cast_fails, laws::specs::Tags::address_at, laws::specs::Tags::address_small))]
pub fn cast_redex(image: &Image, heap: &[u64], c: usize, w: u64) -> Outcome<u64>
    requires { Words (program image.now.words.now) (class_count image.now.words.now) heap.now × IsValue w }
    ensures { (redex_of (heap_of (program image.now.words.now) heap.now) result ≡ cast_redex (program image.now.words.now) (heap_of (program image.now.words.now) heap.now) c (value_at w)) × Sound result }
{
    match w / TAG {
        NULL => Outcome::Gives(w),
        ADDRESS => cast_address(image, heap, c, w, (w % TAG) as usize),
        _ => Outcome::Fails,
    }
}

// Whether a Try that catches class c catches address a, when that is thrown to it and is an object's.
#[tactic(auto, using(crate::specs::RedexLaws::catch_free, crate::specs::RedexLaws::catch_seen, crate::specs::RedexLaws::object_class))]
pub fn catch_redex(image: &Image, heap: &[u64], c: usize, a: usize) -> Option<bool>
    requires { Words (program image.now.words.now) (class_count image.now.words.now) heap.now × (a < addresses) }
    ensures { Tries image.now.words.now heap.now c a result }
{
    let d = heap::class_at(heap, a)?;
    Some(classes::is_subclass(image, d, c))
}

// A Call of a name on an address, with that many arguments.
#[tactic(auto, using(crate::specs::RedexLaws::call_free, crate::specs::RedexLaws::call_unseen, crate::specs::RedexLaws::call_unfit, crate::specs::RedexLaws::call_enters, crate::specs::RedexLaws::object_class))]
fn method_target(image: &Image, heap: &[u64], name: usize, count: usize, a: usize) -> Outcome<Entry>
    requires { Words (program image.now.words.now) (class_count image.now.words.now) heap.now × (name ≤ highest_name) × (a < addresses) }
    ensures { Calls image.now.words.now heap.now name count (Addr a) result }
{
    let Some(c) = heap::class_at(heap, a) else {
        return Outcome::Fails;
    };
    let Some(seen) = classes::look_up(image, Members::Methods, c, name) else {
        return Outcome::Fails;
    };
    let j = seen.record;
    if image.method_word(j, 4) as usize == count {
        Outcome::Gives(Entry {
            object: a,
            method: j,
        })
    } else {
        Outcome::Fails
    }
}

// A Call of a name on a value, with that many arguments.
#[tactic(auto, using(crate::specs::RedexLaws::call_fails, laws::specs::Tags::address_at, laws::specs::Tags::address_small))]
pub fn call_target(image: &Image, heap: &[u64], name: usize, count: usize, w: u64) -> Outcome<Entry>
    requires { Words (program image.now.words.now) (class_count image.now.words.now) heap.now × (name ≤ highest_name) × IsValue w }
    ensures { Calls image.now.words.now heap.now name count (value_at w) result }
{
    match w / TAG {
        NULL => Outcome::Raises(NULL_POINTER),
        ADDRESS => method_target(image, heap, name, count, (w % TAG) as usize),
        _ => Outcome::Fails,
    }
}

// The word of a Value node's value. The node has its tag and payload apart: they are joined, and not turned into a value and back.
pub fn literal_word(image: &Image, n: usize) -> u64
    requires { (n < image.now.layout.node_count) × (node_word image.now.words.now n 0 ≡ 2) }
    ensures { (value_at result ≡ written (value_with (node_word image.now.words.now n 2) (node_word image.now.words.now n 3))) × IsValue result × ((a : ℕ) → value_at result ≡ Addr a → ⊥) }
{
    let tag = image.node_word(n, 2) as u64;
    let payload = image.node_word(n, 3) as u64;
    tag * TAG + payload
}
