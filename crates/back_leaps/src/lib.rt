// Leaps with a value that comes back to its frame, and with an address that is thrown.
#![tactic(auto)]

ghost use Rattle.std.specs.Prelude.{suc, ◌≤◌, get_or};
ghost use Rattle.room.specs.declared.Focus.TheVariants.{Value as Word, Thrown};
ghost use Rattle.room.specs.Room.{search_word};
ghost use Rattle.room.specs.Turn.{HeapOk, Inv};
ghost use Rattle.memo.specs.Memo.{Memo};
ghost use Rattle.landings.specs.Lands.{Lands};

use image::Image;
use landings::Leap;
use room::{ADD, EQ, FRAME_WORDS, FRAMES, SET, Tag};

mod backs;

// A value comes back to frame i. Words and nodes are handed on: with `&Image` in their place runs were slower.
pub fn back_leap(
    image: &Image,
    heap: &mut [u64],
    room: &mut [u64],
    memo: &[u64],
    depth: usize,
    i: usize,
    w: u64,
) -> Option<Leap>
    requires { Inv image.now.words.now depth room.old (suc i) (Word w) × HeapOk image.now.words.now heap.old (get_or room.old search_word 0) × Memo image.now.words.now memo.now × (suc i ≤ depth) }
    ensures { Lands image.now.words.now depth i heap.old room.old (suc i) (Word w) heap.new room.new result }
{
    let at = FRAMES + FRAME_WORDS * i;
    let p = room[at + 1] as usize;
    match Tag::from(room[at]) {
        Tag::AddFirst => backs::first_of_pair(image.words, image.layout.nodes, room, ADD, p, i, w),
        Tag::EqFirst => backs::first_of_pair(image.words, image.layout.nodes, room, EQ, p, i, w),
        Tag::Assign => backs::assign(image.words, image.layout.nodes, room, p, i, w),
        Tag::Get => backs::get(heap, memo, p, i, w),
        Tag::SetFirst => backs::first(room, SET, p, i, w),
        Tag::Block => backs::block(room, i, w),
        Tag::Seq => landings::at_node(p - 1, i, 1),
        Tag::If => backs::choice(image.words, image.layout.nodes, p, i, w),
        Tag::Test => backs::test(room, p, i, w),
        Tag::Throw => backs::throw(p, i, w),
        Tag::Try => landings::at_value(w, i, 1),
        Tag::AddSecond => backs::second_of_pair(ADD, i, room[at + 2], w),
        Tag::EqSecond => backs::second_of_pair(EQ, i, room[at + 2], w),
        Tag::SetSecond => backs::set(heap, memo, p, i, room[at + 2], w),
        Tag::Loop => landings::at_node(p, i, 1),
        _ => None,
    }
}

// An address that is thrown comes to frame i.
pub fn unwind_leap(
    image: &Image,
    heap: &[u64],
    room: &mut [u64],
    memo: &[u64],
    depth: usize,
    i: usize,
    a: usize,
    q: usize,
) -> Option<Leap>
    requires { Inv image.now.words.now depth room.old (suc i) (Thrown a q) × HeapOk image.now.words.now heap.now (get_or room.old search_word 0) × Memo image.now.words.now memo.now }
    ensures { Lands image.now.words.now depth i heap.now room.old (suc i) (Thrown a q) heap.now room.new result }
{
    let at = FRAMES + FRAME_WORDS * i;
    let p = room[at + 1] as usize;
    match Tag::from(room[at]) {
        Tag::Block => {
            let x = room[at + 2] as usize;
            room[x] = room[at + 4];
            landings::at_thrown(a, p, i, 1)
        }
        Tag::Try => backs::unwind_try(image.words, image.layout.nodes, heap, room, memo, i, a, p),
        _ => landings::at_thrown(a, p, i, 1),
    }
}
