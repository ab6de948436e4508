// What a leap comes to. A leap is a turn that takes several steps at once. It is taken where enough steps and levels are left, and where
// it has nothing to look up; otherwise there is none, and the machine takes the turn in its plain form.
#![tactic(auto)]

ghost use Rattle.std.specs.Prelude.{◌≡◌};
ghost use Rattle.landings.specs.Lands.{at_node, at_value, at_thrown};

use room::Focus;

// What is looked at after a leap, under how many frames, and the steps that it took.
#[derive(Clone, Copy)]
pub struct Leap {
    pub focus: Focus,
    pub level: usize,
    pub steps: u64,
}

pub fn at_node(n: usize, level: usize, steps: u64) -> Option<Leap>
    ensures { result ≡ at_node n level steps }
{
    Some(Leap {
        focus: Focus::Node(n),
        level,
        steps,
    })
}

pub fn at_value(w: u64, level: usize, steps: u64) -> Option<Leap>
    ensures { result ≡ at_value w level steps }
{
    Some(Leap {
        focus: Focus::Value(w),
        level,
        steps,
    })
}

pub fn at_thrown(a: usize, place: usize, level: usize, steps: u64) -> Option<Leap>
    ensures { result ≡ at_thrown a place level steps }
{
    Some(Leap {
        focus: Focus::Thrown(a, place),
        level,
        steps,
    })
}
