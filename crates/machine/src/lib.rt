// The machine: turns are taken until the run ends. The expression is kept in the lent room, the focus and the level in locals.
// Table, heap, room and memo go apart: a function that takes one of them by & cannot change it, and one struct of all four would need a clause
// for that.
#![tactic(auto)]

ghost use Rattle.std.specs.Prelude.{◌≡◌, ◌-◌, ◌≤◌, length, get_or};
ghost use Rattle.image.specs.Trailer.{class_count};
ghost use Rattle.rules.specs.Program.{program};
ghost use Rattle.rules.specs.Heap.{heap_of};
ghost use Rattle.rules.specs.Run.{run};
ghost use Rattle.laws.specs.Heap.{Words};
ghost use Rattle.rows.specs.Rows.{Sizes, Rows};
ghost use Rattle.room.specs.declared.Focus.TheVariants.{Node, Thrown};
ghost use Rattle.room.specs.Room.{search_word, Fit};
ghost use Rattle.room.specs.Turn.{HeapOk, FocusOk, whole, outside, Inv};
ghost use Rattle.memo.specs.Memo.{Memo};
ghost use Rattle.ends.specs.Finished.{Finishes};
ghost use Rattle.strides.specs.Reaches.{Reaches};

use ends::Finished;
use memo::MEMO_WORDS;
use room::Focus;
use rows::Table;
use strides::Reached;

// On by leaps, where a node is looked at.
fn onward(
    table: &Table,
    heap: &mut [u64],
    room: &mut [u64],
    memo: &[u64],
    depth: usize,
    f: Focus,
    l: usize,
    left: u64,
) -> Reached
    requires { Inv table.now.image.words.now depth room.old l f × HeapOk table.now.image.words.now heap.old (get_or room.old search_word 0) × Memo table.now.image.words.now memo.now }
    ensures { Reaches table.now.image.words.now depth left heap.old room.old l f heap.new room.new result }
{
    match f {
        Focus::Node(n) => strides::strides(table, heap, room, memo, depth, n, l, left),
        _ => strides::at(f, l, left),
    }
}

// What the next turn has to look up is kept, for leaps to come.
fn learn(table: &Table, heap: &[u64], room: &[u64], memo: &mut [u64], l: usize, f: Focus)
    requires { Words (program table.now.image.words.now) (class_count table.now.image.words.now) heap.now × Fit table.now.image.words.now room.now l × FocusOk table.now.image.words.now f × Memo table.now.image.words.now memo.old }
    ensures { Memo table.now.image.words.now memo.new }
{
    if l == 0 {
        return;
    }
    match f {
        Focus::Node(_) => {},
        Focus::Value(w) => memo::learn_value(table, heap, room, memo, l - 1, w),
        Focus::Thrown(a, _) => memo::learn_thrown(&table.image, heap, room, memo, l - 1, a),
    }
}

// A run that has come to a focus under so many frames, in so many steps, with a table for lookups.
fn run_with(
    table: &Table,
    heap: &mut [u64],
    room: &mut [u64],
    memo: &mut [u64],
    depth: usize,
    limit: u64,
    start: Focus,
    from: usize,
    taken: u64,
) -> Finished
    requires { Inv table.now.image.words.now depth room.old from start × HeapOk table.now.image.words.now heap.old (get_or room.old search_word 0) × Memo table.now.image.words.now memo.old × (taken ≤ limit) }
    ensures { Finishes (run depth (program table.now.image.words.now) (limit - taken) taken (heap_of (program table.now.image.words.now) heap.old) (outside table.now.image.words.now room.old from) (whole table.now.image.words.now room.old from start)) result heap.new × (length room.new ≡ length room.old) }
{
    let mut focus = start;
    let mut level = from;
    let mut count = taken;
    loop {
        learn(table, heap, room, memo, level, focus);
        let may = count < limit;
        let g = turns::turn(table, heap, room, depth, may, level, focus);
        let Some(next) = ends::next_of(g, limit, count) else {
            return ends::ended(g, focus, limit, count);
        };
        let left = limit - next.count;
        let r = onward(table, heap, room, memo, depth, next.focus, next.level, left);
        focus = r.focus;
        level = r.level;
        count = limit - r.left;
    }
}

// A run from node n on.
pub fn run_on(
    table: &Table,
    heap: &mut [u64],
    room: &mut [u64],
    depth: usize,
    limit: u64,
    n: usize,
) -> Finished
    requires { Inv table.now.image.words.now depth room.old 0 (Node n) × HeapOk table.now.image.words.now heap.old (get_or room.old search_word 0) }
    ensures { Finishes (run depth (program table.now.image.words.now) limit 0 (heap_of (program table.now.image.words.now) heap.old) (outside table.now.image.words.now room.old 0) (whole table.now.image.words.now room.old 0 (Node n))) result heap.new × (length room.new ≡ length room.old) }
{
    let mut memo = [0u64; MEMO_WORDS];
    let r = strides::strides(table, heap, room, &memo, depth, n, 0, limit);
    run_with(
        table,
        heap,
        room,
        &mut memo,
        depth,
        limit,
        r.focus,
        r.level,
        limit - r.left,
    )
}
