// A value comes back to a Call: the next operand is gone into, or the Call has all its operands and does what its receiver says.
#![tactic(auto)]

ghost use Rattle.std.specs.Prelude.{◌≡◌, Bool, suc, get_or};
ghost use Rattle.image.specs.Nodes.{node_word};
ghost use Rattle.room.specs.declared.Focus.TheVariants.{Value};
ghost use Rattle.room.specs.Room.{search_word, word, tag};
ghost use Rattle.room.specs.Turn.{HeapOk, Inv, Turned};
ghost use Rattle.calls.specs.Blocks.{Callable, Pushed};

use image::Image;
use redexes::Outcome;
use room::{CLASS, FRAME_WORDS, FRAMES, Focus, Go, OPERANDS};

// Pushes the blocks of a call of method j, from frame i on: the receiver's, and one for each of the y arguments. The first of them
// takes the Call's own frame, but not the words of the operands.
pub fn push_blocks(image: &Image, room: &mut [u64], i: usize, p: usize, j: usize, y: usize)
    requires { Callable image.now.words.now room.old i j y }
    ensures { Pushed image.now.words.now room.old i p j y room.new (suc y) }
{
    let at = FRAMES + FRAME_WORDS * i;
    let owner = image.method_word(j, 0) as u64;
    let first = image.method_word(j, 3) as usize;
    let receiver = room[at + OPERANDS];
    pushes::push_block(room, i, p, 0, CLASS + owner, receiver + 1);
    for k in 0..y {
        let c = k + 1;
        let t = image.type_word(first + k) as u64;
        let w = room[at + (OPERANDS + c)];
        pushes::push_block(room, i + c, p, c, t, w + 1);
    }
}

// All y arguments of the Call at node p are values, the last of them w. Place and count were read before and are handed on, so that no word
// is read twice.
fn call(
    image: &Image,
    heap: &[u64],
    room: &mut [u64],
    depth: usize,
    i: usize,
    w: u64,
    p: usize,
    y: usize,
) -> Go
    requires { Inv image.now.words.now depth room.old (suc i) (Value w) × HeapOk image.now.words.now heap.now (get_or room.old search_word 0) × (tag image.now.words.now room.old i ≡ 9) × (p ≡ word image.now.words.now room.old i 1) × (y ≡ word image.now.words.now room.old i 2) × (word image.now.words.now room.old i 2 ≡ node_word image.now.words.now (word image.now.words.now room.old i 1) 3) }
    ensures { (may : Bool) → Turned image.now.words.now depth may heap.now room.old (suc i) (Value w) heap.now room.new result }
{
    let at = FRAMES + FRAME_WORDS * i;
    room[at + (OPERANDS + y)] = w;
    let receiver = room[at + OPERANDS];
    let name = image.node_word(p, 2) as usize;
    match redexes::call_target(image, heap, name, y, receiver) {
        Outcome::Gives(entry) => {
            if depth < i + y {
                return Go::Sunk;
            }
            let j = entry.method;
            push_blocks(image, room, i, p, j, y);
            let m = image.method_word(j, 5) as usize;
            Go::Stepped(Focus::Node(m), i + y + 1)
        }
        Outcome::Raises(a) => Go::Stepped(Focus::Thrown(a, p), i),
        Outcome::Fails => Go::Stuck(p),
    }
}

// The value w comes back to the frame of a Call. Its operands that are values so far stand in the frame, the receiver first.
pub fn back_call(
    image: &Image,
    heap: &[u64],
    room: &mut [u64],
    depth: usize,
    i: usize,
    w: u64,
) -> Go
    requires { Inv image.now.words.now depth room.old (suc i) (Value w) × HeapOk image.now.words.now heap.now (get_or room.old search_word 0) × (tag image.now.words.now room.old i ≡ 9) }
    ensures { (may : Bool) → Turned image.now.words.now depth may heap.now room.old (suc i) (Value w) heap.now room.new result }
{
    let at = FRAMES + FRAME_WORDS * i;
    let p = room[at + 1] as usize;
    let k = room[at + 2] as usize;
    let y = image.node_word(p, 3) as usize;
    if k == y {
        return call(image, heap, room, depth, i, w, p, y);
    }
    room[at + (OPERANDS + k)] = w;
    room[at + 2] = (k + 1) as u64;
    let m = operands::operand_place(image, p, y - (k + 1));
    Go::Moved(Focus::Node(m), i + 1)
}
