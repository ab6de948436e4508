// What a turn says of the run: it goes on, or it is at its end, with its count.
#![tactic(auto)]

ghost use Rattle.std.specs.Prelude.{◌≡◌, ◌+◌, ◌-◌, ◌≤◌};
ghost use Rattle.rules.specs.Run.{run};
ghost use Rattle.room.specs.declared.Focus.TheVariants.{Node, Thrown};
ghost use Rattle.ends.specs.Finished.{end_of, sunk_at, next_of, ended_at};

use room::{Focus, Go};
use rules::End;
use words::Value;

// How a run ended, and how many steps it took.
#[derive(Clone, Copy)]
pub struct Finished {
    pub end: End,
    pub count: u64,
}

// The end of a run whose focus is final. No `From`: the focus and the end are of other crates.
fn final_end(f: Focus) -> End
    ensures { result ≡ end_of f }
{
    match f {
        Focus::Node(_) => End::TooDeep,
        Focus::Value(w) => End::Returned(words::value_of(w).unwrap_or(Value::Unit)),
        Focus::Thrown(a, _) => End::Threw((a % 4294967296) as u32),
    }
}

// The run goes on with a focus under so many frames, after so many steps.
#[derive(Clone, Copy)]
pub struct Going {
    pub focus: Focus,
    pub level: usize,
    pub count: u64,
}

// How the run goes on after a turn, if it is not at its end. Limit and count are two numbers of the run: a struct of both would be taken
// apart at once.
pub fn next_of(g: Go, limit: u64, count: u64) -> Option<Going>
    requires { count ≤ limit }
    ensures { result ≡ next_of g limit count }
{
    match g {
        Go::Moved(focus, level) => Some(Going {
            focus,
            level,
            count,
        }),
        Go::Stepped(focus, level) => {
            if limit <= count {
                return None;
            }
            Some(Going {
                focus,
                level,
                count: count + 1,
            })
        },
        _ => None,
    }
}

// The end of a run whose last turn came to g, with the focus f.
pub fn ended(g: Go, f: Focus, limit: u64, count: u64) -> Finished
    ensures { result ≡ ended_at g f limit count }
{
    let end = match g {
        Go::Moved(_, _) | Go::Stepped(_, _) | Go::Limit => End::OutOfSteps,
        Go::Sunk => return sunk(limit, count),
        Go::Stuck(q) => End::Stuck(q),
        Go::Deep => End::TooDeep,
        Go::Over => final_end(f),
    };
    Finished { end, count }
}

// A step after which the active place is too deep, if it may be taken.
#[tactic(auto, unfolding(crate::specs::Finished::sunk_at))]
fn sunk(limit: u64, count: u64) -> Finished
    ensures { result ≡ sunk_at limit count }
{
    if count < limit {
        Finished {
            end: End::TooDeep,
            count: count + 1,
        }
    } else {
        Finished {
            end: End::OutOfSteps,
            count,
        }
    }
}
