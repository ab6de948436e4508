// One turn of the machine, in its plain form: into a node, or a value or a thrown address to its frame.
#![tactic(auto)]

ghost use Rattle.std.specs.Prelude.{suc, ◌+◌, ◌-◌, get_or};
ghost use Rattle.rows.specs.Rows.{Sizes, Rows};
ghost use Rattle.room.specs.declared.Focus.TheVariants.{Node, Value as Word, Thrown};
ghost use Rattle.room.specs.Room.{search_word};
ghost use Rattle.room.specs.Turn.{HeapOk, Inv, Turned};

use room::{FRAME_WORDS, FRAMES, Focus, Go, Tag};
use rows::Table;

// A value comes back to frame i.
fn value_back(
    table: &Table,
    heap: &mut [u64],
    room: &mut [u64],
    depth: usize,
    may: bool,
    i: usize,
    w: u64,
) -> Go
    requires { Inv table.now.image.words.now depth room.old (suc i) (Word w) × HeapOk table.now.image.words.now heap.old (get_or room.old search_word 0) }
    ensures { Turned table.now.image.words.now depth may heap.old room.old (suc i) (Word w) heap.new room.new result }
{
    match Tag::from(room[FRAMES + FRAME_WORDS * i]) {
        Tag::Call => calls::back_call(&table.image, heap, room, depth, i, w),
        _ => back::back(table, heap, room, may, i, w),
    }
}

// One turn.
pub fn turn(
    table: &Table,
    heap: &mut [u64],
    room: &mut [u64],
    depth: usize,
    may: bool,
    l: usize,
    f: Focus,
) -> Go
    requires { Inv table.now.image.words.now depth room.old l f × HeapOk table.now.image.words.now heap.old (get_or room.old search_word 0) }
    ensures { Turned table.now.image.words.now depth may heap.old room.old l f heap.new room.new result }
{
    match f {
        Focus::Node(n) => enter::enter(table, heap, room, depth, may, n, l),
        Focus::Value(w) => {
            if l == 0 {
                return Go::Over;
            }
            value_back(table, heap, room, depth, may, l - 1, w)
        },
        Focus::Thrown(a, q) => {
            if l == 0 {
                return Go::Over;
            }
            unwind::unwind(&table.image, heap, room, depth, l - 1, a, q)
        },
    }
}
