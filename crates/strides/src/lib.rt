// Leaps in a row, as long as there are any.
#![tactic(auto)]

ghost use Rattle.std.specs.Prelude.{◌≡◌, ◌+◌, ◌-◌, ◌≤◌, get_or};
ghost use Rattle.rows.specs.Rows.{Rows};
ghost use Rattle.room.specs.declared.Focus.TheVariants.{Node, Value as Word, Thrown};
ghost use Rattle.room.specs.Room.{search_word};
ghost use Rattle.room.specs.Turn.{HeapOk, Inv};
ghost use Rattle.memo.specs.Memo.{Memo};
ghost use Rattle.landings.specs.Lands.{Low};
ghost use Rattle.strides.specs.Reaches.{Reaches};

use image::Image;
use landings::Leap;
use room::Focus;
use rows::Table;

// Where leaps have come to: what is looked at, under how many frames, and the steps that are left. Not a `Leap`, which counts the steps that
// were taken.
#[derive(Clone, Copy)]
pub struct Reached {
    pub focus: Focus,
    pub level: usize,
    pub left: u64,
}

// So many steps are left that every leap may be taken.
const ENOUGH: u64 = 63;

// This is looked at.
pub fn at(focus: Focus, level: usize, left: u64) -> Reached
    ensures { result ≡ record { focus = focus; level = level; left = left } }
{
    Reached { focus, level, left }
}

// A value comes back to frame after frame, as long as leaps take it.
fn backs(
    image: &Image,
    heap: &mut [u64],
    room: &mut [u64],
    memo: &[u64],
    depth: usize,
    word: u64,
    from: usize,
    steps: u64,
) -> Reached
    requires { Inv image.now.words.now depth room.old from (Word word) × HeapOk image.now.words.now heap.old (get_or room.old search_word 0) × Memo image.now.words.now memo.now × (from ≤ depth) }
    ensures { Reaches image.now.words.now depth steps heap.old room.old from (Word word) heap.new room.new result }
{
    let mut w = word;
    let mut l = from;
    let mut left = steps;
    while l != 0 {
        if left < ENOUGH {
            return at(Focus::Value(w), l, left);
        }
        let Some(r) = back_leaps::back_leap(image, heap, room, memo, depth, l - 1, w) else {
            return at(Focus::Value(w), l, left);
        };
        left -= r.steps;
        let Focus::Value(v) = r.focus else {
            return at(r.focus, r.level, left);
        };
        w = v;
        l = r.level;
    }
    at(Focus::Value(w), l, left)
}

// A thrown address goes out of frame after frame, as long as leaps take it. It is no part of `backs`: a thrown address only reads the heap,
// and asks for another leap.
fn unwinds(
    image: &Image,
    heap: &[u64],
    room: &mut [u64],
    memo: &[u64],
    depth: usize,
    address: usize,
    place: usize,
    from: usize,
    steps: u64,
) -> Reached
    requires { Inv image.now.words.now depth room.old from (Thrown address place) × HeapOk image.now.words.now heap.now (get_or room.old search_word 0) × Memo image.now.words.now memo.now }
    ensures { Reaches image.now.words.now depth steps heap.now room.old from (Thrown address place) heap.now room.new result }
{
    let mut a = address;
    let mut p = place;
    let mut l = from;
    let mut left = steps;
    while l != 0 {
        if left < ENOUGH {
            return at(Focus::Thrown(a, p), l, left);
        }
        let Some(r) = back_leaps::unwind_leap(image, heap, room, memo, depth, l - 1, a, p) else {
            return at(Focus::Thrown(a, p), l, left);
        };
        left -= r.steps;
        let Focus::Thrown(b, q) = r.focus else {
            return at(r.focus, r.level, left);
        };
        a = b;
        p = q;
        l = r.level;
    }
    at(Focus::Thrown(a, p), l, left)
}

// Where a leap has come to, a value comes back.
fn returned(
    image: &Image,
    heap: &mut [u64],
    room: &mut [u64],
    memo: &[u64],
    depth: usize,
    e: Leap,
    left: u64,
) -> Reached
    requires { Inv image.now.words.now depth room.old e.level e.focus × HeapOk image.now.words.now heap.old (get_or room.old search_word 0) × Memo image.now.words.now memo.now × Low depth e.focus e.level }
    ensures { Reaches image.now.words.now depth left heap.old room.old e.level e.focus heap.new room.new result }
{
    match e.focus {
        Focus::Value(w) => backs(image, heap, room, memo, depth, w, e.level, left),
        _ => at(e.focus, e.level, left),
    }
}

// Then a thrown address goes out.
fn outward(
    image: &Image,
    heap: &mut [u64],
    room: &mut [u64],
    memo: &[u64],
    depth: usize,
    e: Leap,
    left: u64,
) -> Reached
    requires { Inv image.now.words.now depth room.old e.level e.focus × HeapOk image.now.words.now heap.old (get_or room.old search_word 0) × Memo image.now.words.now memo.now × Low depth e.focus e.level }
    ensures { Reaches image.now.words.now depth left heap.old room.old e.level e.focus heap.new room.new result }
{
    let r = returned(image, heap, room, memo, depth, e, left);
    match r.focus {
        Focus::Thrown(a, p) => unwinds(image, heap, room, memo, depth, a, p, r.level, r.left),
        _ => r,
    }
}

// Leaps from a node on, as long as there are any.
pub fn strides(
    table: &Table,
    heap: &mut [u64],
    room: &mut [u64],
    memo: &[u64],
    depth: usize,
    node: usize,
    from: usize,
    steps: u64,
) -> Reached
    requires { Inv table.now.image.words.now depth room.old from (Node node) × HeapOk table.now.image.words.now heap.old (get_or room.old search_word 0) × Memo table.now.image.words.now memo.now }
    ensures { Reaches table.now.image.words.now depth steps heap.old room.old from (Node node) heap.new room.new result }
{
    // A copy on the stack: what is lent may be read again for each leap.
    let here = *table;
    let mut n = node;
    let mut l = from;
    let mut left = steps;
    while l + 3 <= depth {
        if left < ENOUGH {
            return at(Focus::Node(n), l, left);
        }
        let Some(e) = enter_leaps::enter_leap(&here, heap, room, memo, depth, n, l) else {
            return at(Focus::Node(n), l, left);
        };
        let r = outward(&here.image, heap, room, memo, depth, e, left - e.steps);
        let Focus::Node(m) = r.focus else {
            return r;
        };
        n = m;
        l = r.level;
        left = r.left;
    }
    at(Focus::Node(n), l, left)
}
