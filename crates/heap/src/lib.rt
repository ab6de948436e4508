// The heap: readings of slots, and the rules 14, 15 and 16.
#![tactic(auto)]

ghost use Rattle.std.specs.Prelude.{◌≡◌, true, ◌+◌, ◌*◌, ◌-◌, ◌/◌, ◌%◌, ◌≤◌, ◌<◌, eqb, length, get_or, is_some, IfSome};
ghost use Rattle.std.specs.List.{list_all};
ghost use Rattle.order.specs.Rules.{scan, first_place};
ghost use Rattle.words.specs.Types.{type_of};
ghost use Rattle.words.specs.Value.{value_of, word_of, addresses};
ghost use Rattle.image.specs.Trailer.{class_count};
ghost use Rattle.rules.specs.Heap.{default, slot_words};
ghost use Rattle.rules.specs.Numbers.{slot_first, heap_length_holds, heap_word_rule, input_holds, input_rule};
ghost use Rattle.heap.specs.Slots.{class_at, taken_at, SlotHolds, Clean};

use image::Image;
use rows::Table;
use words::TAG;

// Words of a slot: its class, and as many fields as a class may have. A heap comes from C as one slice of words and goes back so: a slot is
// a place in it, and what goes over its words asks these numbers.
pub const SLOT_WORDS: usize = 16;

// The bounds of a heap, in slots. The first ones hold the system's objects, so no heap has fewer.
pub const FEWEST_SLOTS: usize = 3;

const MOST_SLOTS: usize = 4096;

// The slots of the system's objects, the exceptions that a step may throw. They are addresses like any other, which a Throw may throw
// again, so they are numbers.
pub const NULL_POINTER: usize = 0;

pub const CLASS_CAST: usize = 1;

pub const OUT_OF_MEMORY: usize = 2;

// The class of the object in slot a, where one stands there: a slot's first word is its class and 1 more, or 0 where it is free. Beyond
// the heap nothing stands.
#[tactic(auto, using(crate::specs::SlotLaws::named_none, crate::specs::SlotLaws::named_some))]
pub fn class_at(heap: &[u64], a: usize) -> Option<usize>
    requires { a < addresses }
    ensures { (result ≡ class_at heap.now a) × IfSome result (λ c. c < 18446744073709551615) }
{
    match heap.get(SLOT_WORDS * a).copied().unwrap_or(0) {
        0 => None,
        first => Some((first - 1) as usize),
    }
}

// The word of field i of the object in slot a.
pub fn slot_field(heap: &[u64], a: usize, i: usize) -> u64
    requires { slot_words * a + 1 + i < length heap.now }
    ensures { result ≡ get_or heap.now (slot_words * a + 1 + i) 0 }
{
    heap[SLOT_WORDS * a + 1 + i]
}

// The lowest free slot that is not below `from`. A loop of its own, as `order::first_broken` begins at 0; by `find` a New took 5 % longer.
#[tactic(auto, using(crate::specs::SlotLaws::since_start, crate::specs::SlotLaws::since_on, crate::specs::SlotLaws::since_hit, crate::specs::SlotLaws::since_none, crate::specs::SlotLaws::free_at, crate::specs::SlotLaws::taken_at_lem))]
pub fn lowest_free(heap: &[u64], from: usize) -> Option<usize>
    ensures { result ≡ scan (taken_at heap.now) (length heap.now / slot_words - from) from }
{
    for a in from..heap.len() / SLOT_WORDS {
        if heap[SLOT_WORDS * a] == 0 {
            return Some(a);
        }
    }
    None
}

// The word of a type's default value.
#[tactic(auto, using(crate::specs::SlotLaws::default_void, crate::specs::SlotLaws::default_boolean, crate::specs::SlotLaws::default_integer, crate::specs::SlotLaws::default_other))]
pub fn default_word(t: u32) -> u64
    ensures { result ≡ word_of (default (type_of t)) }
{
    match t {
        0 => 0,
        1 => 2 * TAG,
        2 => 3 * TAG,
        _ => TAG,
    }
}

// 14: whole slots, not too few and not too many.
#[tactic(auto, unfolding(rules::specs::Numbers::heap_length_holds))]
pub fn heap_length_holds(n: usize) -> bool
    ensures { result ≡ heap_length_holds n }
{
    (n % SLOT_WORDS == 0) & (FEWEST_SLOTS <= n / SLOT_WORDS) & (n / SLOT_WORDS <= MOST_SLOTS)
}

// 15: word i. The slot's class must be known where the word is not the one that names it.
#[tactic(auto, using(crate::specs::WordLaws::word_first, crate::specs::WordLaws::word_free, crate::specs::WordLaws::word_value, crate::specs::WordLaws::word_rest, crate::specs::WordLaws::class_count_lem), unfolding(rules::specs::Numbers::heap_word_rule))]
fn heap_word_holds(table: &Table, heap: &[u64], i: usize) -> bool
    requires { (i < length heap.now) × ((i % slot_words ≡ 0 → ⊥) → slot_first heap.now i ≤ class_count table.now.image.words.now) }
    ensures { result ≡ (heap_word_rule table.now.image.words.now heap.now).holds i }
{
    let first = heap[SLOT_WORDS * (i / SLOT_WORDS)];
    let k = i % SLOT_WORDS;
    if k == 0 {
        return first <= table.image.layout.class_count as u64;
    }
    let word = heap[i];
    if first == 0 {
        return word == 0;
    }
    let c = (first - 1) as usize;
    if k - 1 < table.counts[c] {
        words::value_of(word).is_some()
    } else {
        word == 0
    }
}

// Whether all words are 0. All are read before it is asked, so that a processor can read several at once. A fold takes more
// instructions than this loop.
#[tactic(auto, using(crate::specs::WordLaws::zeros_on))]
pub fn zeros(words: &[u64]) -> bool
    ensures { result ≡ list_all (λ w. eqb w 0) words.now }
{
    let mut digits = 0;
    for w in words {
        digits |= *w;
    }
    digits == 0
}

// Whether all words stand for values.
fn values(words: &[u64]) -> bool
    ensures { result ≡ list_all (λ w. is_some (value_of w)) words.now }
{
    words.iter().all(|w| words::value_of(*w).is_some())
}

// 15: all words of the slot that begins at word i.
fn slot_holds(table: &Table, heap: &[u64], i: usize) -> bool
    requires { (i % slot_words ≡ 0) × (i + slot_words ≤ length heap.now) }
    ensures { result ≡ true → SlotHolds table.now.image.words.now heap.now i }
{
    let first = heap[i];
    if first == 0 {
        return zeros(&heap[i..i + SLOT_WORDS]);
    }
    if (table.image.layout.class_count as u64) < first {
        return false;
    }
    let rest = i + 1 + table.counts[(first - 1) as usize];
    values(&heap[i + 1..rest]) && zeros(&heap[rest..i + SLOT_WORDS])
}

// 15: the first heap word of no known class, no value, or not 0 where it should be, if there is none before word `from`. It is no
// `order::first_broken`: a word may be asked only where those before it held.
#[tactic(auto, using(crate::specs::WordLaws::clean_on, crate::specs::WordLaws::first_known, order::specs::Scan::hit, order::specs::Scan::none), unfolding(order::specs::Rules::first_place, rules::specs::Numbers::heap_word_rule))]
fn word_place(table: &Table, heap: &[u64], from: usize) -> Option<usize>
    requires { Clean (heap_word_rule table.now.image.words.now heap.now).holds (length heap.now) from }
    ensures { result ≡ first_place (heap_word_rule table.now.image.words.now heap.now) }
{
    for i in from..heap.len() {
        if !heap_word_holds(table, heap, i) {
            return Some(i);
        }
    }
    None
}

// 15: slots that hold are passed over whole; in the first that does not, the word is sought. It is no `order::first_broken`:
// `slot_holds` promises something only where it is true.
#[tactic(auto, using(crate::specs::WordLaws::clean_start))]
pub fn heap_word_place(table: &Table, heap: &[u64]) -> Option<usize>
    ensures { result ≡ first_place (heap_word_rule table.now.image.words.now heap.now) }
{
    let slots = heap.len() / SLOT_WORDS;
    for a in 0..slots {
        if !slot_holds(table, heap, SLOT_WORDS * a) {
            return word_place(table, heap, SLOT_WORDS * a);
        }
    }
    word_place(table, heap, SLOT_WORDS * slots)
}

// 16: input i is a value, if there is one; and there are as many as main takes.
#[tactic(auto, using(crate::specs::WordLaws::input_last, crate::specs::WordLaws::input_value, crate::specs::WordLaws::input_beyond))]
fn input_holds(inputs: &[u64], count: usize, i: usize) -> bool
    ensures { result ≡ input_holds count inputs.now i }
{
    if i == count {
        return inputs.len() == count;
    }
    match inputs.get(i) {
        Some(w) => words::value_of(*w).is_some(),
        None => true,
    }
}

// 16: the first input that is no value, or main's count where there are more or fewer. No input from there on is asked: that
// place is lower.
#[tactic(auto, unfolding(order::specs::Rules::first_place, rules::specs::Numbers::input_rule))]
pub fn input_place(image: &Image, inputs: &[u64]) -> Option<usize>
    ensures { result ≡ first_place (input_rule image.now.words.now inputs.now) }
{
    let count = image.layout.inputs;
    order::first_broken(
        inputs.len().max(count) + 1,
        |i| input_holds(inputs, count, i),
    )
}
