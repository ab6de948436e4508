// Leaps into a node.
#![tactic(auto)]

ghost use Rattle.std.specs.Prelude.{◌+◌, ◌≤◌, get_or};
ghost use Rattle.rows.specs.Rows.{Rows};
ghost use Rattle.room.specs.declared.Focus.TheVariants.{Node};
ghost use Rattle.room.specs.Room.{search_word};
ghost use Rattle.room.specs.Turn.{HeapOk, Inv};
ghost use Rattle.memo.specs.Memo.{Memo};
ghost use Rattle.landings.specs.Lands.{Lands};

use landings::Leap;
use quick::{BLOCK, CALL, CAST, LITERAL, NEW, SEQ, SET, THROW, TRY, VAR};
use rows::Table;

mod enters;

// From node n on, under l frames. A kind is read by its number, and words and nodes are handed on: with the enum `image::Kind` or with
// `&Image` in their place runs were slower.
pub fn enter_leap(
    table: &Table,
    heap: &mut [u64],
    room: &mut [u64],
    memo: &[u64],
    depth: usize,
    n: usize,
    l: usize,
) -> Option<Leap>
    requires { Inv table.now.image.words.now depth room.old l (Node n) × HeapOk table.now.image.words.now heap.old (get_or room.old search_word 0) × Memo table.now.image.words.now memo.now × (l + 3 ≤ depth) }
    ensures { Lands table.now.image.words.now depth l heap.old room.old l (Node n) heap.new room.new result }
{
    let ws = table.image.words;
    let nodes = table.image.layout.nodes;
    let kind = quick::word_at(ws, nodes, n, 0);
    // Kinds are numbers in this crate and in `quick`: with `image::Kind` in their place runs were slower, by 2 % alone and by an eighth
    // beside the other forms.
    match kind {
        NEW => enters::new(table, heap, room, n, l),
        LITERAL => enters::leaf(ws, nodes, room, n, l),
        VAR => enters::leaf(ws, nodes, room, n, l),
        CALL => enters::call(&table.image, heap, room, memo, depth, n, l),
        BLOCK => enters::block(ws, nodes, room, n, l),
        CAST | THROW => enters::first(room, kind, n, n - 1, l),
        SET | SEQ | TRY => enters::first(room, kind, n, quick::first_of_two(ws, nodes, n), l),
        _ => enters::with_quick(ws, nodes, heap, room, memo, kind, n, l),
    }
}
