// The enums that the rules of the language share with the code that keeps them.
#![tactic(auto)]

use words::Value;

// How a run ends. A value and a thrown address stand in the case that names the end; a stuck run has its node.
#[derive(Clone, Copy)]
pub enum End {
    Returned(Value),
    Threw(u32),
    OutOfSteps,
    TooDeep,
    Stuck(usize),
}
