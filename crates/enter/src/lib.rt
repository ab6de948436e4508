// The machine goes into a node: it pushes a frame for the node, or takes the step of a node that has no operand to go into.
#![tactic(auto)]

ghost use Rattle.std.specs.Prelude.{◌≡◌, ℕ, suc, ◌+◌, ◌≤◌, ◌<◌, length, get_or, set};
ghost use Rattle.image.specs.Nodes.{node_word, kind_of, operands};
ghost use Rattle.room.specs.declared.Focus.TheVariants.{Node};
ghost use Rattle.rows.specs.Rows.{Rows};
ghost use Rattle.room.specs.Room.{search_word, frame_at, first, shape_of};
ghost use Rattle.room.specs.RoomLaws.{push, push3};
ghost use Rattle.room.specs.Turn.{HeapOk, Inv, Turned};
ghost use Rattle.pushes.specs.Turns.{Turns, Within};

use image::{Image, Kind};
use room::{CALL, Focus, Go, TEST};
use rows::Table;

// How many operands stand behind the first one, of a kind that is gone into by its first.
#[tactic(auto, unfolding(image::specs::Nodes::operands))]
fn behind_first(kind: u32) -> usize
    requires { shape_of kind ≡ first }
    ensures { (y : ℕ) → suc result ≡ operands (kind_of kind) y }
{
    match Kind::from(kind) {
        Kind::If => 2,
        Kind::Add | Kind::Eq | Kind::Set | Kind::Seq | Kind::Try => 1,
        _ => 0,
    }
}

// Pushes a frame whose tag is the node's kind, and goes into the first operand.
fn enter_first(image: &Image, room: &mut [u64], n: usize, l: usize, kind: u32) -> Go
    requires { (n < image.now.layout.node_count) × (frame_at (suc l) ≤ length room.old) × (node_word image.now.words.now n 0 ≡ kind) × (shape_of kind ≡ first) }
    ensures { Turns image.now.words.now room.old l (Node n) room.new (Within l) result }
{
    let m = operands::operand_place(image, n, behind_first(kind));
    pushes::push(room, l, kind as u64, n);
    Go::Moved(Focus::Node(m), l + 1)
}

// A Call: its receiver first. The frame has no operand's value yet.
fn enter_call(image: &Image, room: &mut [u64], n: usize, l: usize) -> Go
    requires { (n < image.now.layout.node_count) × (frame_at (suc l) ≤ length room.old) × (node_word image.now.words.now n 0 ≡ 9) }
    ensures { Turns image.now.words.now room.old l (Node n) room.new (Within l) result }
{
    let y = image.node_word(n, 3) as usize;
    let m = operands::operand_place(image, n, y);
    pushes::push3(room, l, CALL, n, 0);
    Go::Moved(Focus::Node(m), l + 1)
}

// A Block: its variable is unset inside.
fn enter_block(image: &Image, room: &mut [u64], n: usize, l: usize) -> Go
    requires { (n < image.now.layout.node_count) × (frame_at (suc l) ≤ length room.old) × (node_word image.now.words.now n 0 ≡ 10) }
    ensures { Turns image.now.words.now room.old l (Node n) room.new (Within l) result }
{
    let x = image.node_word(n, 2) as usize;
    let t = image.node_word(n, 3) as u64;
    pushes::push_block(room, l, n, x, t, 0);
    Go::Moved(Focus::Node(n - 1), l + 1)
}

// A While steps to an If, whose condition is gone into.
fn enter_while(image: &Image, room: &mut [u64], n: usize, l: usize) -> Go
    requires { (n < image.now.layout.node_count) × (frame_at (suc l) ≤ length room.old) × (node_word image.now.words.now n 0 ≡ 13) }
    ensures { Turns image.now.words.now room.old l (Node n) room.new (Within l) result }
{
    let m = operands::operand_place(image, n, 1);
    pushes::push(room, l, TEST, n);
    Go::Stepped(Focus::Node(m), l + 1)
}

// A variable: what it holds, if it is set.
fn enter_var(image: &Image, room: &[u64], n: usize, l: usize) -> Go
    requires { (n < image.now.layout.node_count) × (frame_at l ≤ length room.now) × (node_word image.now.words.now n 0 ≡ 3) }
    ensures { Turns image.now.words.now room.now l (Node n) room.now (Within l) result }
{
    let x = image.node_word(n, 2) as usize;
    let w = room[x];
    if w == 0 {
        Go::Stuck(n)
    } else {
        Go::Stepped(Focus::Value(w - 1), l)
    }
}

// Goes into node n, under l frames.
pub fn enter(
    table: &Table,
    heap: &mut [u64],
    room: &mut [u64],
    depth: usize,
    may: bool,
    n: usize,
    l: usize,
) -> Go
    requires { Inv table.now.image.words.now depth room.old l (Node n) × HeapOk table.now.image.words.now heap.old (get_or room.old search_word 0) }
    ensures { Turned table.now.image.words.now depth may heap.old room.old l (Node n) heap.new room.new result }
{
    let word = table.image.node_word(n, 0);
    let kind = Kind::from(word);
    if let Kind::Value = kind {
        return Go::Moved(Focus::Value(redexes::literal_word(&table.image, n)), l);
    }
    if depth < l {
        return beyond::beyond(&table.image, room, n, l, kind);
    }
    match kind {
        Kind::New => fresh::enter_new(table, heap, room, may, n, l),
        Kind::Var => enter_var(&table.image, room, n, l),
        Kind::Call => enter_call(&table.image, room, n, l),
        Kind::Block => enter_block(&table.image, room, n, l),
        Kind::While => enter_while(&table.image, room, n, l),
        _ => enter_first(&table.image, room, n, l, word),
    }
}
