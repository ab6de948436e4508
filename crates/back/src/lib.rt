// A value comes back to the innermost frame: its node takes a step, or goes on to its next operand. A Call's frame is not for here.
#![tactic(auto)]

ghost use Rattle.std.specs.Prelude.{◌≡◌, ℕ, suc, ◌+◌, get_or};
ghost use Rattle.laws.specs.Values.{IsValue};
ghost use Rattle.rows.specs.Rows.{Sizes};
ghost use Rattle.room.specs.declared.Focus.TheVariants.{Value};
ghost use Rattle.room.specs.Room.{search_word, word, tag, Fit};
ghost use Rattle.room.specs.Turn.{HeapOk, Inv, Turned};
ghost use Rattle.comes.specs.Comes.{Changes, Unheaped};

use image::Image;
use room::{FRAME_WORDS, FRAMES, Focus, Go, Tag};
use rows::Table;

// The frames for which the heap is not read: t and p are the tag and the place of frame i.
fn back_plain(image: &Image, room: &mut [u64], t: u64, p: usize, i: usize, w: u64) -> Go
    requires { Unheaped t × Fit image.now.words.now room.old (suc i) × IsValue w × (tag image.now.words.now room.old i ≡ t) × (word image.now.words.now room.old i 1 ≡ p) }
    ensures { Changes image.now.words.now room.old t p i w room.new result }
{
    match Tag::from(t) {
        Tag::Assign => comes::back_assign(image, room, p, i, w),
        Tag::Block => comes::back_block(room, i, w),
        Tag::Seq => Go::Stepped(Focus::Node(p - 1), i),
        Tag::If => comes::back_if(image, p, i, w),
        Tag::Test => comes::back_test(room, p, i, w),
        Tag::Throw => comes::back_throw(p, i, w),
        Tag::Try => Go::Stepped(Focus::Value(w), i),
        Tag::AddSecond => comes::back_add(p, i, room[FRAMES + FRAME_WORDS * i + 2], w),
        Tag::EqSecond => comes::back_eq(i, room[FRAMES + FRAME_WORDS * i + 2], w),
        Tag::Loop => Go::Stepped(Focus::Node(p), i),
        _ => comes::back_first(room, t, p, i, w),
    }
}

// A value comes back to frame i, which is not a Call's.
pub fn back(table: &Table, heap: &mut [u64], room: &mut [u64], may: bool, i: usize, w: u64) -> Go
    requires { Fit table.now.image.words.now room.old (suc i) × IsValue w × HeapOk table.now.image.words.now heap.old (get_or room.old search_word 0) × (tag table.now.image.words.now room.old i ≡ 9 → ⊥) }
    ensures { (D : ℕ) → Inv table.now.image.words.now D room.old (suc i) (Value w) → Turned table.now.image.words.now D may heap.old room.old (suc i) (Value w) heap.new room.new result }
{
    let at = FRAMES + FRAME_WORDS * i;
    let t = room[at];
    let p = room[at + 1] as usize;
    match Tag::from(t) {
        Tag::Cast => comes::back_cast(&table.image, heap, p, i, w),
        Tag::Get => comes::back_get(table, heap, p, i, w),
        Tag::SetSecond => comes::back_set(table, heap, may, p, i, room[at + 2], w),
        _ => back_plain(&table.image, room, t, p, i, w),
    }
}
