// Leaps of a value that comes back to a frame, and of an address that is thrown through one.
// Each function has a turn of `comes` or `unwind` beside it, and is not one with it, as `enters` of the crate enter_leaps says. The words and
// where the nodes begin stand for the image there, and here too.
ghost use Rattle.std.specs.Prelude.{◌≡◌, List, ℕ, suc, ◌+◌, ◌≤◌, ◌<◌, length, get_or};
ghost use Rattle.words.specs.Value.{addresses};
ghost use Rattle.image.specs.Numbers.{most_nodes, variables};
ghost use Rattle.image.specs.Trailer.{class_count, node_count};
ghost use Rattle.rules.specs.Trees.{operand};
ghost use Rattle.rules.specs.Program.{program};
ghost use Rattle.laws.specs.Values.{IsValue};
ghost use Rattle.laws.specs.Heap.{Words};
ghost use Rattle.memo.specs.Memo.{Memo};
ghost use Rattle.quick.specs.Known.{Tabled, Stored, IsPair};
ghost use Rattle.room.specs.declared.Focus.TheVariants.{Value as Word, Thrown};
ghost use Rattle.room.specs.Room.{frame_at, word, IsNode};
ghost use Rattle.landings.specs.Lands.{Lands};
ghost use Rattle.back_leaps.specs.Backs.{Comes, LandsBack, Begun, Fielded, Tried};

use heap::NULL_POINTER;
use landings::Leap;
use redexes::Outcome;
use room::{ADDRESS, CLASS, FRAME_WORDS, FRAMES, LOOP, SECOND};
use words::TAG;

// The first operand of an Add, an Eq or a Set, whose tag is t: the frame keeps it, and the second is gone into.
pub fn first(room: &mut [u64], t: u64, p: usize, i: usize, w: u64) -> Option<Leap>
    requires { Begun t × (1 ≤ p) × (frame_at (suc i) ≤ length room.old) }
    ensures { (ws : List ℕ) → LandsBack ws room.old t p i w room.new result }
{
    let at = FRAMES + FRAME_WORDS * i;
    room[at] = t + SECOND;
    room[at + 2] = w;
    landings::at_node(p - 1, i + 1, 0)
}

// The first operand of an Add or an Eq. Where the second one is a literal or a variable, the frame is left at once.
pub fn first_of_pair(
    ws: &[u32],
    nodes: usize,
    room: &mut [u64],
    t: u64,
    p: usize,
    i: usize,
    w: u64,
) -> Option<Leap>
    requires { Tabled ws.now nodes × Stored ws.now room.old × IsPair t × (1 ≤ p) × (p < node_count ws.now) × (frame_at (suc i) ≤ length room.old) × IsValue w }
    ensures { LandsBack ws.now room.old t p i w room.new result }
{
    let Some(b) = quick::leaf(ws, nodes, room, p - 1) else {
        return first(room, t, p, i, w);
    };
    let u = quick::pair_word(t, w, b.word)?;
    landings::at_value(u, i, b.steps + 1)
}

// The second operand of an Add or an Eq, whose first one's word is v.
pub fn second_of_pair(t: u64, i: usize, v: u64, w: u64) -> Option<Leap>
    requires { IsPair t × IsValue v × IsValue w }
    ensures { (ws room : List ℕ) (p : ℕ) → word ws room i 2 ≡ v → LandsBack ws room (t + 16) p i w room result }
{
    let u = quick::pair_word(t, v, w)?;
    landings::at_value(u, i, 1)
}

// An Assign. Where the variable is set, no block takes the value up.
pub fn assign(
    ws: &[u32],
    nodes: usize,
    room: &mut [u64],
    p: usize,
    i: usize,
    w: u64,
) -> Option<Leap>
    requires { Tabled ws.now nodes × IsNode ws.now p 6 × (frame_at (suc i) ≤ length room.old) × IsValue w }
    ensures { LandsBack ws.now room.old 6 p i w room.new result }
{
    let x = quick::word_at(ws, nodes, p, 2) as usize;
    if room[x] == 0 {
        return None;
    }
    room[x] = w + 1;
    landings::at_value(w, i, 1)
}

// A Get. Of a field that was not looked up before nothing is told.
pub fn get(heap: &[u64], memo: &[u64], p: usize, i: usize, w: u64) -> Option<Leap>
    requires { (p < most_nodes) × IsValue w × Fielded heap.now memo.now p }
    ensures { (ws : List ℕ) → Memo ws memo.now → (D : ℕ) (room : List ℕ) → Comes ws D heap.now room 7 p i w → Lands ws D i heap.now room (suc i) (Word w) heap.now room result }
{
    if w == TAG {
        return landings::at_thrown(NULL_POINTER, p, i, 1);
    }
    let j = memo::spot(heap, memo, p, w)?;
    landings::at_value(heap[j], i, 1)
}

// A Set of the object of word v to the value of w.
pub fn set(heap: &mut [u64], memo: &[u64], p: usize, i: usize, v: u64, w: u64) -> Option<Leap>
    requires { (p < most_nodes) × IsValue v × Fielded heap.old memo.now p }
    ensures { (ws : List ℕ) → Memo ws memo.now → (D : ℕ) (room : List ℕ) → Comes ws D heap.old room 24 p i w → word ws room i 2 ≡ v → Lands ws D i heap.old room (suc i) (Word w) heap.new room result }
{
    let j = memo::spot(heap, memo, p, v)?;
    heap[j] = w;
    landings::at_value(w, i, 1)
}

// A Block is over: its variable is again what it was outside.
pub fn block(room: &mut [u64], i: usize, w: u64) -> Option<Leap>
    requires { (get_or room.old (frame_at i + 2) 0 < variables) × (frame_at (suc i) ≤ length room.old) }
    ensures { (ws : List ℕ) (p : ℕ) → LandsBack ws room.old 10 p i w room.new result }
{
    let at = FRAMES + FRAME_WORDS * i;
    let x = room[at + 2] as usize;
    room[x] = room[at + 4];
    landings::at_value(w, i, 1)
}

// An If.
pub fn choice(ws: &[u32], nodes: usize, p: usize, i: usize, w: u64) -> Option<Leap>
    requires { Tabled ws.now nodes × IsNode ws.now p 12 }
    ensures { (room : List ℕ) → LandsBack ws.now room 12 p i w room result }
{
    if redexes::if_redex(w)? {
        landings::at_node(quick::first_of_two(ws, nodes, p), i, 1)
    } else {
        landings::at_node(p - 1, i, 1)
    }
}

// The If of a loop: it becomes the Seq of the body and the loop, or the loop is over.
pub fn test(room: &mut [u64], p: usize, i: usize, w: u64) -> Option<Leap>
    requires { (1 ≤ p) × (frame_at (suc i) ≤ length room.old) }
    ensures { (ws : List ℕ) → LandsBack ws room.old 13 p i w room.new result }
{
    if redexes::if_redex(w)? {
        room[FRAMES + FRAME_WORDS * i] = LOOP;
        landings::at_node(p - 1, i + 1, 1)
    } else {
        landings::at_value(0, i, 1)
    }
}

// A Throw of an address.
pub fn throw(p: usize, i: usize, w: u64) -> Option<Leap>
    requires { IsValue w }
    ensures { (ws room : List ℕ) → LandsBack ws room 14 p i w room result }
{
    let Outcome::Gives(a) = redexes::throw_redex(w) else {
        return None;
    };
    landings::at_thrown(a, p, i, 0)
}

// A thrown address comes to a Try at node p. Of a class that was not looked up before nothing is told.
pub fn unwind_try(
    ws: &[u32],
    nodes: usize,
    heap: &[u64],
    room: &mut [u64],
    memo: &[u64],
    i: usize,
    a: usize,
    p: usize,
) -> Option<Leap>
    requires { Tabled ws.now nodes × Memo ws.now memo.now × Words (program ws.now) (class_count ws.now) heap.now × IsNode ws.now p 15 × (p < most_nodes) × (a < addresses) × (frame_at (suc i) ≤ length room.old) }
    ensures { (D q : ℕ) → Tried ws.now D heap.now room.old p i a q → Lands ws.now D i heap.now room.old (suc i) (Thrown a q) heap.now room.new result }
{
    let catches = memo::caught(heap, memo, p, a)?;
    if !catches {
        return landings::at_thrown(a, p, i, 1);
    }
    let c = quick::word_at(ws, nodes, p, 2) as u64;
    let x = quick::word_at(ws, nodes, p, 3) as usize;
    pushes::push_block(room, i, p, x, CLASS + c, ADDRESS + a as u64 + 1);
    landings::at_node(p - 1, i + 1, 1)
}
