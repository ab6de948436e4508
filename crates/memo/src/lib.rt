// What lookups found is kept, by node and by the class of the object, so that the next time nothing has to be looked up. The table is
// lent and has a word for every 64th node: who comes later takes the word.
#![tactic(auto)]

ghost use Rattle.std.specs.Prelude.{◌≡◌, true, false, List, ℕ, suc, ◌+◌, ◌*◌, ◌-◌, ◌/◌, ◌%◌, ◌<◌, length, get_or, Some, IfSome};
ghost use Rattle.words.specs.Value.{addresses};
ghost use Rattle.image.specs.Numbers.{most_nodes};
ghost use Rattle.image.specs.Trailer.{class_count};
ghost use Rattle.image.specs.Nodes.{node_word};
ghost use Rattle.rules.specs.Program.{program};
ghost use Rattle.laws.specs.Values.{value_at, IsValue};
ghost use Rattle.laws.specs.Heap.{Words};
ghost use Rattle.rows.specs.Rows.{Sizes};
ghost use Rattle.heap.specs.Slots.{class_at};
ghost use Rattle.redexes.specs.Outcomes.{EntersAt, Tries};
ghost use Rattle.objects.specs.Spots.{FieldSpot};
ghost use Rattle.room.specs.Room.{word, tag, IsNode, Fit};
ghost use Rattle.memo.specs.Memo.{memo_words, class_word, IsField, Learnt, Memo, Recalls};

use classes::Members;
use heap::SLOT_WORDS;
use image::Image;
use redexes::ADDRESS;
use room::{FRAME_WORDS, FRAMES, OPERANDS, Tag};
use rows::Table;
use words::TAG;

// Words of the table.
pub const MEMO_WORDS: usize = 64;

// An entry is (node * CLASSES + class word) * FOUNDS + what was found, which is never 0.
const CLASSES: u64 = 512;

const FOUNDS: u64 = 65536;

// What is kept of a Try, as a number: an entry is one lent word.
const PASSES: usize = 1;

const CATCHES: usize = 2;

// The class of the object that the value of w is the address of, where it is an object's.
fn receiver_class(heap: &[u64], w: u64) -> Option<usize>
    requires { IsValue w }
    ensures { IfSome result (λ c. (w / 4294967296 ≡ 4) × (class_at heap.now (w % 4294967296) ≡ Some c)) × IfSome result (λ c. c < 18446744073709551615) }
{
    if w / TAG != ADDRESS {
        return None;
    }
    heap::class_at(heap, (w % TAG) as usize)
}

// The class word of an entry for class c: 1 more, or 0 for none, of which nothing is kept.
fn class_word(c: Option<usize>) -> u64
    requires { IfSome c (λ d. d < 18446744073709551615) }
    ensures { result ≡ class_word c }
{
    c.map_or(0, |d| d as u64 + 1)
}

// What is kept of node p and class c. Whether there is a class is not asked apart: with that, runs took 1 % more instructions. No map of
// the library's: it would take memory from a heap. An entry is one word, so that keeping it is one write.
fn seen(memo: &[u64], p: usize, c: Option<usize>) -> Option<usize>
    requires { (length memo.now ≡ memo_words) × IfSome c (λ d. d < 18446744073709551615) }
    ensures { IfSome result (Recalls memo.now p (class_word c)) }
{
    let first = class_word(c);
    let e = memo[p % MEMO_WORDS];
    if (e / FOUNDS / CLASSES == p as u64) & (e / FOUNDS % CLASSES == first) {
        match (e % FOUNDS) as usize {
            0 => None,
            o => Some(o),
        }
    } else {
        None
    }
}

// Keeps o of node p and class c.
fn keep(memo: &mut [u64], p: usize, c: usize, o: usize)
    requires { (length memo.old ≡ memo_words) × (p < most_nodes) × (c < 511) × (o < 65536) }
    ensures { (ws : List ℕ) → Memo ws memo.old → Learnt ws p (c + 1) o → Memo ws memo.new }
{
    memo[p % MEMO_WORDS] = (p as u64 * CLASSES + (c as u64 + 1)) * FOUNDS + o as u64;
}

// Where the field of the Get or Set at node p stands in the heap, for the value of w, where that is known.
pub fn spot(heap: &[u64], memo: &[u64], p: usize, w: u64) -> Option<usize>
    requires { (length memo.now ≡ memo_words) × (p < most_nodes) × IsValue w }
    ensures { (ws : List ℕ) → Memo ws memo.now → Words (program ws) (class_count ws) heap.now → IsField ws p → IfSome result (FieldSpot ws heap.now (node_word ws p 2) (node_word ws p 3) w) }
{
    let c = receiver_class(heap, w);
    let o = seen(memo, p, c)?;
    Some(SLOT_WORDS * (w % TAG) as usize + o)
}

// The record of the method that the Call at node p enters on the value of w, where that is known.
pub fn method(heap: &[u64], memo: &[u64], p: usize, w: u64) -> Option<usize>
    requires { (length memo.now ≡ memo_words) × (p < most_nodes) × IsValue w }
    ensures { (ws : List ℕ) → Memo ws memo.now → Words (program ws) (class_count ws) heap.now → IsNode ws p 9 → IfSome result (EntersAt ws heap.now (node_word ws p 2) (node_word ws p 3) (value_at w) (w % 4294967296)) }
{
    let c = receiver_class(heap, w);
    let o = seen(memo, p, c)?;
    Some(o - 1)
}

// Whether the Try at node p catches address a, where that is known.
pub fn caught(heap: &[u64], memo: &[u64], p: usize, a: usize) -> Option<bool>
    requires { (length memo.now ≡ memo_words) × (p < most_nodes) × (a < addresses) }
    ensures { (ws : List ℕ) → Memo ws memo.now → Words (program ws) (class_count ws) heap.now → IsNode ws p 15 → IfSome result (λ b. Tries ws heap.now (node_word ws p 2) a (Some b)) }
{
    let c = heap::class_at(heap, a);
    match seen(memo, p, c)? {
        PASSES => Some(false),
        CATCHES => Some(true),
        _ => None,
    }
}

// Keeps where an object of the value of w has the field of node p, a Get or a Set. `learn_field`, `learn_method` and `learn_try` each look
// another thing up; what they share is `keep`.
fn learn_field(table: &Table, heap: &[u64], memo: &mut [u64], p: usize, w: u64)
    requires { Words (program table.now.image.words.now) (class_count table.now.image.words.now) heap.now × IsField table.now.image.words.now p × IsValue w × Memo table.now.image.words.now memo.old }
    ensures { Memo table.now.image.words.now memo.new }
{
    let Some(c) = receiver_class(heap, w) else {
        return;
    };
    let d = table.image.node_word(p, 3) as usize;
    if !classes::is_subclass(&table.image, c, d) {
        return;
    }
    let name = table.image.node_word(p, 2) as usize;
    let Some(i) = rows::field_index(table, d, name) else {
        return;
    };
    keep(memo, p, c, i + 1);
}

// Keeps which method the Call at node p enters on the value of w.
fn learn_method(image: &Image, heap: &[u64], memo: &mut [u64], p: usize, w: u64)
    requires { Words (program image.now.words.now) (class_count image.now.words.now) heap.now × IsNode image.now.words.now p 9 × IsValue w × Memo image.now.words.now memo.old }
    ensures { Memo image.now.words.now memo.new }
{
    let Some(c) = receiver_class(heap, w) else {
        return;
    };
    let name = image.node_word(p, 2) as usize;
    let Some(seen) = classes::look_up(image, Members::Methods, c, name) else {
        return;
    };
    let j = seen.record;
    if image.method_word(j, 4) == image.node_word(p, 3) {
        keep(memo, p, c, j + 1);
    }
}

// A value comes to frame i of a Call, at node p. Where it is the last operand, all are values, and the receiver is the first.
fn learn_call(
    image: &Image,
    heap: &[u64],
    room: &[u64],
    memo: &mut [u64],
    i: usize,
    w: u64,
    p: usize,
)
    requires { Words (program image.now.words.now) (class_count image.now.words.now) heap.now × Fit image.now.words.now room.now (suc i) × (tag image.now.words.now room.now i ≡ 9) × (p ≡ word image.now.words.now room.now i 1) × IsValue w × Memo image.now.words.now memo.old }
    ensures { Memo image.now.words.now memo.new }
{
    let at = FRAMES + FRAME_WORDS * i;
    let y = image.node_word(p, 3) as u64;
    if y == 0 {
        learn_method(image, heap, memo, p, w);
        return;
    }
    if room[at + 2] == y {
        learn_method(image, heap, memo, p, room[at + OPERANDS]);
    }
}

// Keeps what the Try at node p does with address a.
fn learn_try(image: &Image, heap: &[u64], memo: &mut [u64], p: usize, a: usize)
    requires { Words (program image.now.words.now) (class_count image.now.words.now) heap.now × IsNode image.now.words.now p 15 × (a < addresses) × Memo image.now.words.now memo.old }
    ensures { Memo image.now.words.now memo.new }
{
    let Some(d) = heap::class_at(heap, a) else {
        return;
    };
    let c = image.node_word(p, 2) as usize;
    if classes::is_subclass(image, d, c) {
        keep(memo, p, d, CATCHES);
    } else {
        keep(memo, p, d, PASSES);
    }
}

// A value comes to frame i: what its node has to look up for it is kept. `Memo` is a clause, since a type would name the image once more,
// and then a clause would have to say that the two are one.
pub fn learn_value(table: &Table, heap: &[u64], room: &[u64], memo: &mut [u64], i: usize, w: u64)
    requires { Words (program table.now.image.words.now) (class_count table.now.image.words.now) heap.now × Fit table.now.image.words.now room.now (suc i) × IsValue w × Memo table.now.image.words.now memo.old }
    ensures { Memo table.now.image.words.now memo.new }
{
    let at = FRAMES + FRAME_WORDS * i;
    let p = room[at + 1] as usize;
    match Tag::from(room[at]) {
        Tag::Get => learn_field(table, heap, memo, p, w),
        Tag::Call => learn_call(&table.image, heap, room, memo, i, w, p),
        Tag::SetSecond => learn_field(table, heap, memo, p, room[at + 2]),
        _ => {}
    }
}

// A thrown address comes to frame i: what its node, where it is a Try, does with it is kept.
pub fn learn_thrown(image: &Image, heap: &[u64], room: &[u64], memo: &mut [u64], i: usize, a: usize)
    requires { Words (program image.now.words.now) (class_count image.now.words.now) heap.now × Fit image.now.words.now room.now (suc i) × (a < addresses) × Memo image.now.words.now memo.old }
    ensures { Memo image.now.words.now memo.new }
{
    let at = FRAMES + FRAME_WORDS * i;
    if let Tag::Try = Tag::from(room[at]) {
        let p = room[at + 1] as usize;
        learn_try(image, heap, memo, p, a);
    }
}
