// Frames are pushed, and a block takes up a value.
#![tactic(auto)]

ghost use Rattle.std.specs.Prelude.{◌≡◌, List, ℕ, suc, ◌+◌, ◌≤◌, ◌<◌, length, get_or, set};
ghost use Rattle.image.specs.Numbers.{variables};
ghost use Rattle.laws.specs.Values.{IsValue};
ghost use Rattle.room.specs.Room.{frame_at, first};
ghost use Rattle.room.specs.RoomLaws.{push, push3, push_block};
ghost use Rattle.room.specs.Armed.{armed, armed_seq};
ghost use Rattle.pushes.specs.Turns.{rest_of};

use room::{BLOCK, FRAME_WORDS, FRAMES, LOOP, SEQ};

// Writes the tag and the place of frame l. The tag is a number, since a word of the lent room is written with it.
#[tactic(auto, unfolding(room::specs::RoomLaws::push))]
pub fn push(room: &mut [u64], l: usize, tag: u64, p: usize)
    requires { frame_at l + 1 < length room.old }
    ensures { room.new ≡ push room.old l tag p }
{
    let at = FRAMES + FRAME_WORDS * l;
    room[at] = tag;
    room[at + 1] = p as u64;
}

// Writes the first three words of frame l.
#[tactic(auto, unfolding(room::specs::RoomLaws::push, room::specs::RoomLaws::push3))]
pub fn push3(room: &mut [u64], l: usize, tag: u64, p: usize, a: u64)
    requires { frame_at l + 2 < length room.old }
    ensures { room.new ≡ push3 room.old l tag p a }
{
    push(room, l, tag, p);
    room[FRAMES + FRAME_WORDS * l + 2] = a;
}

// Writes frame l, a block's of the variable x with the type word t, and sets the variable to what w says. The frame keeps what
// the variable held.
#[tactic(auto, unfolding(room::specs::RoomLaws::framed, room::specs::RoomLaws::push_block))]
pub fn push_block(room: &mut [u64], l: usize, p: usize, x: usize, t: u64, w: u64)
    requires { (frame_at (suc l) ≤ length room.old) × (x < variables) }
    ensures { room.new ≡ push_block room.old l p x t w }
{
    let at = FRAMES + FRAME_WORDS * l;
    let old = room[x];
    push3(room, l, BLOCK, p, x as u64);
    room[at + 3] = t;
    room[at + 4] = old;
    room[x] = w;
}

// Whether the innermost of l frames is a block's of the variable x, which is unset. One frame's word is compared with one tag or two here,
// in `armed_seq` and in `take_up`: `room::Tag` would read it as one of eighteen first.
#[tactic(auto, using(crate::specs::ArmedLaws::armed_none, crate::specs::ArmedLaws::armed_top))]
pub fn armed(room: &[u64], l: usize, x: usize) -> bool
    requires { (frame_at l ≤ length room.now) × (x < variables) }
    ensures { (ws : List ℕ) → result ≡ armed ws room.now l x }
{
    if l == 0 {
        return false;
    }
    let at = FRAMES + FRAME_WORDS * (l - 1);
    (room[at] == BLOCK) & (room[at + 2] == x as u64) & (room[x] == 0)
}

// Whether the innermost of l frames is a sequence's or a loop's, and the one around it such a block's.
#[tactic(auto, using(crate::specs::ArmedLaws::armed_seq_none, crate::specs::ArmedLaws::armed_seq_other))]
pub fn armed_seq(room: &[u64], l: usize, x: usize) -> bool
    requires { (frame_at l ≤ length room.now) × (x < variables) }
    ensures { (ws : List ℕ) → result ≡ armed_seq ws room.now l x }
{
    if l == 0 {
        return false;
    }
    let i = l - 1;
    let tag = room[FRAMES + FRAME_WORDS * i];
    if (tag == SEQ) | (tag == LOOP) {
        armed(room, i, x)
    } else {
        false
    }
}

// A block takes the value of w up: its variable x is set. The answer is the node with which the sequence or loop of frame i
// goes on.
#[tactic(auto, unfolding(crate::specs::Turns::rest_of))]
pub fn take_up(room: &mut [u64], i: usize, x: usize, w: u64) -> usize
    requires { (frame_at (suc i) ≤ length room.old) × (x < variables) × IsValue w × (0 < get_or room.old (frame_at i + 1) 0) }
    ensures { (room.new ≡ set room.old x (suc w)) × (result ≡ rest_of room.old i) }
{
    let at = FRAMES + FRAME_WORDS * i;
    let tag = room[at];
    let p = room[at + 1] as usize;
    room[x] = w + 1;
    if tag == SEQ { p - 1 } else { p }
}
