// What every check answers with: where a rule is first broken, and the number and place that a caller gets.
#![tactic(auto)]

ghost use Rattle.std.specs.Prelude.{◌≡◌, Bool, ℕ, ◌<◌};
ghost use Rattle.order.specs.Rules.{Asks, scan};

// A number of the table with its place. Number 0 at place 0 says that no rule is broken: it is what C and the tests get, so it is no
// Option.
#[derive(Clone, Copy)]
pub struct Answer {
    pub number: u64,
    pub place: u64,
}

impl Answer {
    pub const ACCEPTED: Answer = Answer {
        number: 0,
        place: 0,
    };
}

// The lowest of so many places at which a test fails.
pub fn first_broken<F: Fn(usize) -> bool>(places: usize, holds: F) -> Option<usize>
    requires { (i : ℕ) → i < places → F.pre holds i }
    ensures { (test : ℕ → Bool) → Asks (F.post holds) places test → result ≡ scan test places 0 }
{
    for i in 0..places {
        if !holds(i) {
            return Some(i);
        }
    }
    None
}
