// Leaps from a node: where its operands have their values without a frame, the node's own step is taken at once.
// Each function has a turn of `enter`, `fresh` or `calls` beside it. The two are not one: a leap reads the words without the image, asks the
// memo in place of a lookup and takes several steps. The words and where the nodes begin stand for the image, as in `quick`: with `&Image`
// in their place runs were slower.
ghost use Rattle.std.specs.Prelude.{◌≡◌, List, ℕ, suc, ◌+◌, ◌-◌, ◌≤◌, ◌<◌, length, get_or, IfSome};
ghost use Rattle.image.specs.Nodes.{node_word};
ghost use Rattle.image.specs.Trailer.{class_count, node_count};
ghost use Rattle.rules.specs.Program.{program};
ghost use Rattle.rules.specs.Trees.{operand};
ghost use Rattle.laws.specs.Heap.{Words};
ghost use Rattle.laws.specs.Trees.{operand_count};
ghost use Rattle.rows.specs.Rows.{Rows};
ghost use Rattle.room.specs.declared.Focus.TheVariants.{Node};
ghost use Rattle.room.specs.Room.{search_word, frame_at};
ghost use Rattle.room.specs.RoomLaws.{Kept};
ghost use Rattle.room.specs.Turn.{HeapOk, Inv};
ghost use Rattle.memo.specs.Memo.{Memo};
ghost use Rattle.quick.specs.Known.{Tabled, Stored, Known, Valued};
ghost use Rattle.landings.specs.Lands.{Lands};
ghost use Rattle.enter_leaps.specs.Enters.{Holds, Enters, First, Asked, Whole, Quickly, Ready};

use image::Image;
use landings::Leap;
use quick::{ADD, ASSIGN, EQ, GET, IF, Quick, WHILE};
use room::{ADDRESS, FRAME_WORDS, FRAMES, LOOP, OPERANDS, SEARCH, TEST};
use rows::Table;
use words::TAG;

// The words of the two booleans: a word is compared with them, which is shorter than to ask what value it is.
const TRUE: u64 = 2 * TAG + 1;

const FALSE: u64 = 2 * TAG;

// The first of an If's three operands.
fn condition(ws: &[u32], nodes: usize, n: usize) -> usize
    requires { Tabled ws.now nodes × (n < node_count ws.now) × (2 < operand_count ws.now n) }
    ensures { (result ≡ operand ws.now n 2) × (result < n) }
{
    let m = quick::first_of_two(ws, nodes, n);
    m - quick::word_at(ws, nodes, m, 1) as usize
}

// Pushes the frame of node n and goes on to its first operand m.
pub fn first(room: &mut [u64], kind: u32, n: usize, m: usize, l: usize) -> Option<Leap>
    requires { frame_at (suc l) ≤ length room.old }
    ensures { (ws hs : List ℕ) → Holds ws → First ws kind n m → Enters ws hs room.old l n hs room.new result }
{
    pushes::push(room, l, kind as u64, n);
    landings::at_node(m, l + 1, 0)
}

// A literal, or a variable that is set.
pub fn leaf(ws: &[u32], nodes: usize, room: &[u64], n: usize, l: usize) -> Option<Leap>
    requires { Tabled ws.now nodes × (n < node_count ws.now) × Stored ws.now room.now }
    ensures { (hs : List ℕ) → Enters ws.now hs room.now l n hs room.now result }
{
    let q = quick::leaf(ws, nodes, room, n)?;
    landings::at_value(q.word, l, q.steps)
}

// New: an object in the lowest free slot, where there is one.
pub fn new(table: &Table, heap: &mut [u64], room: &mut [u64], n: usize, l: usize) -> Option<Leap>
    requires { (n < node_count table.now.image.words.now) × (frame_at l ≤ length room.old) × (node_word table.now.image.words.now n 0 ≡ 0) × HeapOk table.now.image.words.now heap.old (get_or room.old search_word 0) }
    ensures { Enters table.now.image.words.now heap.old room.old l n heap.new room.new result }
{
    let from = room[SEARCH] as usize;
    match heap::lowest_free(heap, from) {
        None => None,
        Some(a) => {
            let c = table.image.node_word(n, 2) as usize;
            objects::new_object(table, heap, a, c);
            room[SEARCH] = (a + 1) as u64;
            landings::at_value(ADDRESS + a as u64, l, 1)
        }
    }
}

// A Block: its variable is unset inside.
pub fn block(ws: &[u32], nodes: usize, room: &mut [u64], n: usize, l: usize) -> Option<Leap>
    requires { Tabled ws.now nodes × (n < node_count ws.now) × (frame_at (suc l) ≤ length room.old) × (node_word ws.now n 0 ≡ 10) }
    ensures { (hs : List ℕ) → Enters ws.now hs room.old l n hs room.new result }
{
    let x = quick::word_at(ws, nodes, n, 2) as usize;
    let t = quick::word_at(ws, nodes, n, 3) as u64;
    pushes::push_block(room, l, n, x, t, 0);
    landings::at_node(n - 1, l + 1, 0)
}

// The node whose value decides how node n goes on.
fn asked(ws: &[u32], nodes: usize, kind: u32, n: usize) -> usize
    requires { Tabled ws.now nodes × (n < node_count ws.now) × (node_word ws.now n 0 ≡ kind) }
    ensures { Asked ws.now kind n result }
{
    match kind {
        ASSIGN => n - 1,
        IF => condition(ws, nodes, n),
        WHILE => quick::first_of_two(ws, nodes, n),
        _ => n,
    }
}

// An Assign: where its operand's value is known and the variable is set, it is written at once. One that is unset may be a block's that
// takes the value up.
fn assign(
    ws: &[u32],
    nodes: usize,
    room: &mut [u64],
    n: usize,
    l: usize,
    q: Option<Quick>,
) -> Option<Leap>
    requires { Tabled ws.now nodes × (n < node_count ws.now) × (frame_at (suc l) ≤ length room.old) × (node_word ws.now n 0 ≡ 6) × IfSome q Valued }
    ensures { (hs : List ℕ) → IfSome q (Known ws.now hs room.old (operand ws.now n 0) 2) → Enters ws.now hs room.old l n hs room.new result }
{
    let x = quick::word_at(ws, nodes, n, 2) as usize;
    let set = room[x] != 0;
    match q {
        Some(v) if set => {
            room[x] = v.word + 1;
            landings::at_value(v.word, l, v.steps + 1)
        }
        _ => first(room, ASSIGN, n, n - 1, l),
    }
}

// An If with the condition m.
fn branch(
    ws: &[u32],
    nodes: usize,
    room: &mut [u64],
    n: usize,
    m: usize,
    l: usize,
    q: Option<Quick>,
) -> Option<Leap>
    requires { Tabled ws.now nodes × (n < node_count ws.now) × (frame_at (suc l) ≤ length room.old) × (node_word ws.now n 0 ≡ 12) × (m ≡ operand ws.now n 2) × IfSome q Valued }
    ensures { (hs : List ℕ) → IfSome q (Known ws.now hs room.old m 2) → Enters ws.now hs room.old l n hs room.new result }
{
    match q {
        Some(v) if v.word == TRUE => landings::at_node(
            quick::first_of_two(ws, nodes, n),
            l,
            v.steps + 1,
        ),
        Some(v) if v.word == FALSE => landings::at_node(n - 1, l, v.steps + 1),
        _ => first(room, IF, n, m, l),
    }
}

// A While with the condition m: into its body, or past it.
fn repeat(room: &mut [u64], n: usize, m: usize, l: usize, q: Option<Quick>) -> Option<Leap>
    requires { (1 ≤ n) × (frame_at (suc l) ≤ length room.old) × IfSome q Valued }
    ensures { (ws hs : List ℕ) → Holds ws → node_word ws n 0 ≡ 13 → m ≡ operand ws n 1 → IfSome q (Known ws hs room.old m 2) → Enters ws hs room.old l n hs room.new result }
{
    match q {
        Some(v) if v.word == TRUE => {
            pushes::push(room, l, LOOP, n);
            landings::at_node(n - 1, l + 1, v.steps + 2)
        }
        Some(v) if v.word == FALSE => landings::at_value(0, l, v.steps + 2),
        _ => {
            pushes::push(room, l, TEST, n);
            landings::at_node(m, l + 1, 1)
        }
    }
}

// An Add, an Eq or a Get, of which q is the value.
fn whole(
    ws: &[u32],
    nodes: usize,
    room: &mut [u64],
    kind: u32,
    n: usize,
    l: usize,
    q: Option<Quick>,
) -> Option<Leap>
    requires { Tabled ws.now nodes × (n < node_count ws.now) × (frame_at (suc l) ≤ length room.old) × (node_word ws.now n 0 ≡ kind) × Whole kind }
    ensures { (hs : List ℕ) → IfSome q (Known ws.now hs room.old n 2) → Enters ws.now hs room.old l n hs room.new result }
{
    if let Some(v) = q {
        return landings::at_value(v.word, l, v.steps);
    }
    if kind == GET {
        return first(room, kind, n, n - 1, l);
    }
    first(room, kind, n, quick::first_of_two(ws, nodes, n), l)
}

// A node that goes on by a value, if that is to be had without a frame.
pub fn with_quick(
    ws: &[u32],
    nodes: usize,
    heap: &[u64],
    room: &mut [u64],
    memo: &[u64],
    kind: u32,
    n: usize,
    l: usize,
) -> Option<Leap>
    requires { Tabled ws.now nodes × (n < node_count ws.now) × (frame_at (suc l) ≤ length room.old) × (node_word ws.now n 0 ≡ kind) × Quickly kind × Stored ws.now room.old × Words (program ws.now) (class_count ws.now) heap.now × Memo ws.now memo.now }
    ensures { Enters ws.now heap.now room.old l n heap.now room.new result }
{
    let m = asked(ws, nodes, kind, n);
    let q = quick::nested(ws, nodes, room, heap, memo, m);
    match kind {
        ASSIGN => assign(ws, nodes, room, n, l, q),
        IF => branch(ws, nodes, room, n, m, l, q),
        WHILE => repeat(room, n, m, l, q),
        _ => whole(ws, nodes, room, kind, n, l, q),
    }
}

// The value of a Call's operand m. `quick::nested` asks a leaf last; most arguments are one, so it is asked first here.
fn argument(
    ws: &[u32],
    nodes: usize,
    heap: &[u64],
    room: &[u64],
    memo: &[u64],
    m: usize,
) -> Option<Quick>
    requires { Tabled ws.now nodes × (m < node_count ws.now) × Stored ws.now room.now × Words (program ws.now) (class_count ws.now) heap.now × Memo ws.now memo.now }
    ensures { IfSome result (Known ws.now heap.now room.now m 1) }
{
    let q = quick::leaf(ws, nodes, room, m);
    if q.is_some() {
        return q;
    }
    let kind = quick::word_at(ws, nodes, m, 0);
    if (kind == ADD) | (kind == EQ) {
        return quick::pair_at(ws, nodes, room, kind, m);
    }
    if kind == GET {
        return quick::get_at(ws, nodes, room, heap, memo, m);
    }
    None
}

// The operands of a Call with y arguments, from the last to the receiver: their values are written into the words of frame l. The
// answer is the steps to them, where all of them have a value that is known; the values stand in the lent room already.
fn gather(
    ws: &[u32],
    nodes: usize,
    heap: &[u64],
    room: &mut [u64],
    memo: &[u64],
    n: usize,
    l: usize,
    y: usize,
) -> Option<u64>
    requires { Tabled ws.now nodes × (n < node_count ws.now) × (node_word ws.now n 0 ≡ 9) × (y ≡ node_word ws.now n 3) × (frame_at (suc l) ≤ length room.old) × Stored ws.now room.old × Words (program ws.now) (class_count ws.now) heap.now × Memo ws.now memo.now }
    ensures { Kept room.old room.new l × IfSome result (λ s. (s ≤ 45) × Ready ws.now heap.now room.old room.new l n (suc y) 0 s) }
{
    let at = FRAMES + FRAME_WORDS * l;
    let mut end = n;
    let mut steps = 0;
    for k in (0..y + 1).rev() {
        let m = end - 1;
        let q = argument(ws, nodes, heap, room, memo, m)?;
        room[at + (OPERANDS + k)] = q.word;
        steps += q.steps;
        end -= quick::word_at(ws, nodes, m, 1) as usize;
    }
    Some(steps)
}

// A Call whose operands all have their values and whose method is known: on to the body, under the blocks.
pub fn call(
    image: &Image,
    heap: &[u64],
    room: &mut [u64],
    memo: &[u64],
    depth: usize,
    n: usize,
    l: usize,
) -> Option<Leap>
    requires { Inv image.now.words.now depth room.old l (Node n) × HeapOk image.now.words.now heap.now (get_or room.old search_word 0) × Memo image.now.words.now memo.now × (l + 3 ≤ depth) × (node_word image.now.words.now n 0 ≡ 9) }
    ensures { Lands image.now.words.now depth l heap.now room.old l (Node n) heap.now room.new result }
{
    let y = image.node_word(n, 3) as usize;
    if depth < l + y {
        return None;
    }
    let s = gather(image.words, image.layout.nodes, heap, room, memo, n, l, y)?;
    let w = room[FRAMES + FRAME_WORDS * l + OPERANDS];
    let j = memo::method(heap, memo, n, w)?;
    calls::push_blocks(image, room, l, n, j, y);
    landings::at_node(image.method_word(j, 5) as usize, l + y + 1, s + 1)
}
