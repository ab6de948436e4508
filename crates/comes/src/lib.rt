// A value comes back to its node's frame, kind by kind.
#![tactic(auto)]

ghost use Rattle.std.specs.Prelude.{◌≡◌, List, ℕ, suc, ◌+◌, ◌≤◌, ◌<◌, length, get_or};
ghost use Rattle.image.specs.Numbers.{variables};
ghost use Rattle.image.specs.Nodes.{node_word};
ghost use Rattle.image.specs.Trailer.{class_count};
ghost use Rattle.rules.specs.Program.{program};
ghost use Rattle.laws.specs.Heap.{Words};
ghost use Rattle.laws.specs.Values.{IsValue};
ghost use Rattle.rows.specs.Rows.{Sizes};
ghost use Rattle.room.specs.declared.Focus.TheVariants.{Value};
ghost use Rattle.room.specs.Room.{frame_at, word, Fit};
ghost use Rattle.room.specs.Turn.{Turned};
ghost use Rattle.comes.specs.Comes.{Coming, Stays, Pairs, Changes, First, finish_of};

use image::Image;
use redexes::Outcome;
use room::{FRAME_WORDS, FRAMES, Focus, Go, LOOP, SECOND};
use rows::Table;

// The turn that a redex's outcome makes at place p. No `From`: a turn has a place and a level too.
#[tactic(auto, unfolding(crate::specs::Comes::finish_of))]
fn finish(r: Outcome<u64>, p: usize, i: usize) -> Go
    ensures { result ≡ finish_of r p i }
{
    match r {
        Outcome::Gives(u) => Go::Stepped(Focus::Value(u), i),
        Outcome::Raises(a) => Go::Stepped(Focus::Thrown(a, p), i),
        Outcome::Fails => Go::Stuck(p),
    }
}

// A Cast.
pub fn back_cast(image: &Image, heap: &[u64], p: usize, i: usize, w: u64) -> Go
    requires { Words (program image.now.words.now) (class_count image.now.words.now) heap.now × (p < image.now.layout.node_count) × IsValue w }
    ensures { Stays image.now.words.now heap.now 1 p i w result }
{
    let c = image.node_word(p, 2) as usize;
    finish(redexes::cast_redex(image, heap, c, w), p, i)
}

// An Add, whose first operand's value is v.
pub fn back_add(p: usize, i: usize, v: u64, w: u64) -> Go
    requires { IsValue v × IsValue w }
    ensures { (ws hs : List ℕ) → Pairs ws hs 20 p i v w result }
{
    finish(redexes::add_redex(v, w), p, i)
}

// An Eq.
pub fn back_eq(i: usize, v: u64, w: u64) -> Go
    requires { IsValue v × IsValue w }
    ensures { (ws hs : List ℕ) (p : ℕ) → Pairs ws hs 21 p i v w result }
{
    Go::Stepped(Focus::Value(redexes::eq_redex(v, w)), i)
}

// A Get.
pub fn back_get(table: &Table, heap: &[u64], p: usize, i: usize, w: u64) -> Go
    requires { Words (program table.now.image.words.now) (class_count table.now.image.words.now) heap.now × (p < table.now.image.layout.node_count) × (node_word table.now.image.words.now p 0 ≡ 7) × IsValue w }
    ensures { Stays table.now.image.words.now heap.now 7 p i w result }
{
    let name = table.image.node_word(p, 2) as usize;
    let d = table.image.node_word(p, 3) as usize;
    match objects::field_spot(table, heap, name, d, w) {
        Outcome::Gives(j) => Go::Stepped(Focus::Value(heap[j]), i),
        Outcome::Raises(a) => Go::Stepped(Focus::Thrown(a, p), i),
        Outcome::Fails => Go::Stuck(p),
    }
}

// A Set of the object of word v to the value of w. The heap is written with leave only.
pub fn back_set(
    table: &Table,
    heap: &mut [u64],
    may: bool,
    p: usize,
    i: usize,
    v: u64,
    w: u64,
) -> Go
    requires { Words (program table.now.image.words.now) (class_count table.now.image.words.now) heap.old × (p < table.now.image.layout.node_count) × (node_word table.now.image.words.now p 0 ≡ 8) × IsValue v }
    ensures { (D : ℕ) (room : List ℕ) → Coming table.now.image.words.now D heap.old room 24 p i w → word table.now.image.words.now room i 2 ≡ v → Turned table.now.image.words.now D may heap.old room (suc i) (Value w) heap.new room result }
{
    let name = table.image.node_word(p, 2) as usize;
    let d = table.image.node_word(p, 3) as usize;
    match objects::field_spot(table, heap, name, d, v) {
        Outcome::Gives(j) => {
            if !may {
                return Go::Limit;
            }
            heap[j] = w;
            Go::Stepped(Focus::Value(w), i)
        }
        Outcome::Raises(a) => Go::Stepped(Focus::Thrown(a, p), i),
        Outcome::Fails => Go::Stuck(p),
    }
}

// The first operand of an Add, an Eq or a Set, whose tag is t: the frame keeps it, and the second is gone into. The tag is a number, since
// SECOND is added to it where it stands in the room.
pub fn back_first(room: &mut [u64], t: u64, p: usize, i: usize, w: u64) -> Go
    requires { First t × (1 ≤ p) × (frame_at (suc i) ≤ length room.old) }
    ensures { (ws : List ℕ) → Changes ws room.old t p i w room.new result }
{
    let at = FRAMES + FRAME_WORDS * i;
    room[at] = t + SECOND;
    room[at + 2] = w;
    Go::Moved(Focus::Node(p - 1), i + 1)
}

// A Block is over: its variable is again what it was outside.
pub fn back_block(room: &mut [u64], i: usize, w: u64) -> Go
    requires { (get_or room.old (frame_at i + 2) 0 < variables) × (frame_at (suc i) ≤ length room.old) }
    ensures { (ws : List ℕ) (p : ℕ) → Changes ws room.old 10 p i w room.new result }
{
    let at = FRAMES + FRAME_WORDS * i;
    let x = room[at + 2] as usize;
    room[x] = room[at + 4];
    Go::Stepped(Focus::Value(w), i)
}

// An If.
pub fn back_if(image: &Image, p: usize, i: usize, w: u64) -> Go
    requires { (p < image.now.layout.node_count) × (node_word image.now.words.now p 0 ≡ 12) × IsValue w }
    ensures { (hs : List ℕ) → Stays image.now.words.now hs 12 p i w result }
{
    match redexes::if_redex(w) {
        Some(true) => Go::Stepped(Focus::Node(operands::operand_place(image, p, 1)), i),
        Some(false) => Go::Stepped(Focus::Node(p - 1), i),
        None => Go::Stuck(p),
    }
}

// The If of a loop: it becomes the Seq of the body and the loop, or the loop is over.
pub fn back_test(room: &mut [u64], p: usize, i: usize, w: u64) -> Go
    requires { (1 ≤ p) × (frame_at (suc i) ≤ length room.old) × IsValue w }
    ensures { (ws : List ℕ) → Changes ws room.old 13 p i w room.new result }
{
    match redexes::if_redex(w) {
        Some(true) => {
            room[FRAMES + FRAME_WORDS * i] = LOOP;
            Go::Stepped(Focus::Node(p - 1), i + 1)
        }
        Some(false) => Go::Stepped(Focus::Value(0), i),
        None => Go::Stuck(p),
    }
}

// A Throw: it is an exception now, or it throws one for Null.
pub fn back_throw(p: usize, i: usize, w: u64) -> Go
    requires { IsValue w }
    ensures { (ws hs : List ℕ) → Stays ws hs 14 p i w result }
{
    match redexes::throw_redex(w) {
        Outcome::Gives(a) => Go::Moved(Focus::Thrown(a, p), i),
        Outcome::Raises(null_pointer) => Go::Stepped(Focus::Thrown(null_pointer, p), i),
        Outcome::Fails => Go::Stuck(p),
    }
}

// An Assign. Where a block takes the value up, the sequence that the Assign begins goes on with its rest.
pub fn back_assign(image: &Image, room: &mut [u64], p: usize, i: usize, w: u64) -> Go
    requires { (p < image.now.layout.node_count) × (node_word image.now.words.now p 0 ≡ 6) × Fit image.now.words.now room.old (suc i) × IsValue w }
    ensures { Changes image.now.words.now room.old 6 p i w room.new result }
{
    let x = image.node_word(p, 2) as usize;
    if pushes::armed_seq(room, i, x) {
        let j = i - 1;
        let rest = pushes::take_up(room, j, x, w);
        return Go::Moved(Focus::Node(rest), j);
    }
    room[x] = w + 1;
    Go::Stepped(Focus::Value(w), i)
}
