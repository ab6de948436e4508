// The lent room as a run begins and as it ends.
#![tactic(auto)]

ghost use Rattle.std.specs.Prelude.{◌≡◌, ℕ, ◌≤◌, ◌<◌, length, get_or, replicate};
ghost use Rattle.image.specs.Numbers.{most_inputs};
ghost use Rattle.laws.specs.Values.{IsValue};
ghost use Rattle.start.specs.Start.{Zeros, Filled, start_words};

// The words that hold variables, and the one behind them that says where New goes on to look.
const START_WORDS: usize = 65;

// All words become 0.
pub fn clear(words: &mut [u64])
    ensures { words.new ≡ replicate (length words.old) 0 }
{
    words.fill(0);
}

// The first words become 0: no variable is set, and New begins at slot 0.
pub fn clear_start(room: &mut [u64])
    requires { start_words ≤ length room.old }
    ensures { Zeros room.new start_words × (length room.new ≡ length room.old) }
{
    room[..START_WORDS].fill(0);
}

// The inputs become variables, from 1 on.
pub fn set_inputs(room: &mut [u64], inputs: &[u64])
    requires { (start_words ≤ length room.old) × Zeros room.old start_words × (length inputs.now ≤ most_inputs) × ((k : ℕ) → k < length inputs.now → IsValue (get_or inputs.now k 0)) }
    ensures { Filled inputs.now room.new (length inputs.now) × (length room.new ≡ length room.old) }
{
    for (i, input) in inputs.iter().enumerate() {
        room[i + 1] = *input + 1;
    }
}
