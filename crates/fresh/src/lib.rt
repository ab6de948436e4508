// New: an object in the lowest free slot.
#![tactic(auto)]

ghost use Rattle.std.specs.Prelude.{◌≡◌, ℕ, ◌+◌, ◌≤◌, ◌<◌, length, get_or};
ghost use Rattle.image.specs.Nodes.{node_word};
ghost use Rattle.room.specs.declared.Focus.TheVariants.{Node};
ghost use Rattle.rows.specs.Rows.{Rows};
ghost use Rattle.room.specs.Room.{search_word, frame_at};
ghost use Rattle.room.specs.Turn.{HeapOk, Inv, Turned};

use heap::OUT_OF_MEMORY;
use room::{ADDRESS, Focus, Go, SEARCH};
use rows::Table;

// New: an object in the lowest free slot. The slots below the one where the search goes on are taken.
pub fn enter_new(
    table: &Table,
    heap: &mut [u64],
    room: &mut [u64],
    may: bool,
    n: usize,
    l: usize,
) -> Go
    requires { (n < table.now.image.layout.node_count) × (frame_at l ≤ length room.old) × (node_word table.now.image.words.now n 0 ≡ 0) × HeapOk table.now.image.words.now heap.old (get_or room.old search_word 0) }
    ensures { (D : ℕ) → Inv table.now.image.words.now D room.old l (Node n) → l ≤ D → Turned table.now.image.words.now D may heap.old room.old l (Node n) heap.new room.new result }
{
    let from = room[SEARCH] as usize;
    match heap::lowest_free(heap, from) {
        None => Go::Stepped(Focus::Thrown(OUT_OF_MEMORY, n), l),
        Some(a) => {
            if !may {
                return Go::Limit;
            }
            let c = table.image.node_word(n, 2) as usize;
            objects::new_object(table, heap, a, c);
            room[SEARCH] = (a + 1) as u64;
            Go::Stepped(Focus::Value(ADDRESS + a as u64), l)
        }
    }
}
