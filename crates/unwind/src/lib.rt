// An address that is thrown comes to the innermost frame: it goes out of the frame, or a Try catches it.
#![tactic(auto)]

ghost use Rattle.std.specs.Prelude.{◌≡◌, Bool, suc, get_or};
ghost use Rattle.room.specs.declared.Focus.TheVariants.{Thrown};
ghost use Rattle.room.specs.Room.{search_word, word, tag};
ghost use Rattle.room.specs.Turn.{HeapOk, Inv, Turned};

use image::Image;
use room::{ADDRESS, CLASS, FRAME_WORDS, FRAMES, Focus, Go, Tag};

// It comes to a Try, at node p.
fn unwind_try(
    image: &Image,
    heap: &[u64],
    room: &mut [u64],
    depth: usize,
    i: usize,
    a: usize,
    q: usize,
    p: usize,
) -> Go
    requires { Inv image.now.words.now depth room.old (suc i) (Thrown a q) × HeapOk image.now.words.now heap.now (get_or room.old search_word 0) × (tag image.now.words.now room.old i ≡ 15) × (p ≡ word image.now.words.now room.old i 1) }
    ensures { (may : Bool) → Turned image.now.words.now depth may heap.now room.old (suc i) (Thrown a q) heap.now room.new result }
{
    let c = image.node_word(p, 2) as usize;
    match redexes::catch_redex(image, heap, c, a) {
        Some(true) => {
            let x = image.node_word(p, 3) as usize;
            pushes::push_block(room, i, p, x, CLASS + c as u64, ADDRESS + a as u64 + 1);
            Go::Stepped(Focus::Node(p - 1), i + 1)
        }
        Some(false) => Go::Stepped(Focus::Thrown(a, p), i),
        None => Go::Stuck(p),
    }
}

// It comes to frame i. A block gives its variable back what it held.
pub fn unwind(
    image: &Image,
    heap: &[u64],
    room: &mut [u64],
    depth: usize,
    i: usize,
    a: usize,
    q: usize,
) -> Go
    requires { Inv image.now.words.now depth room.old (suc i) (Thrown a q) × HeapOk image.now.words.now heap.now (get_or room.old search_word 0) }
    ensures { (may : Bool) → Turned image.now.words.now depth may heap.now room.old (suc i) (Thrown a q) heap.now room.new result }
{
    let at = FRAMES + FRAME_WORDS * i;
    let p = room[at + 1] as usize;
    match Tag::from(room[at]) {
        Tag::Block => {
            let x = room[at + 2] as usize;
            room[x] = room[at + 4];
            Go::Stepped(Focus::Thrown(a, p), i)
        }
        Tag::Try => unwind_try(image, heap, room, depth, i, a, q, p),
        _ => Go::Stepped(Focus::Thrown(a, p), i),
    }
}
