// What the words of a room and of its record say of a call: whether it starts a run.
#![tactic(auto)]

ghost use Rattle.std.specs.Prelude.{◌≡◌};
ghost use Rattle.pause.specs.Paused.{fresh};

use pause::Record;

// Whether a call starts a run: room and record are all 0. The words are asked as docs/ROOM.md says it; a derived equality would compare
// with an empty record that nothing else uses.
pub fn is_fresh(room: &[u64], r: Record) -> bool
    ensures { result ≡ fresh room.now r }
{
    if (r.steps == 0) & (r.node == 0) & (r.levels == 0) {
        heap::zeros(room)
    } else {
        false
    }
}
