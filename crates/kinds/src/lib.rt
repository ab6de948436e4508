// What x and y of a node must be, and how many operands it has, by its kind: number 8.
#![tactic(auto)]

ghost use Rattle.std.specs.Prelude.{◌≡◌, ◌≤◌};
ghost use Rattle.image.specs.Numbers.{most_classes};
ghost use Rattle.image.specs.Nodes.{is_local, names_hold, operands};

use image::{HIGHEST_NAME, Kind, MOST_ARGUMENTS, VARIABLES, WRITTEN_TAGS};

// A Block's or a Try's variable: not `this`.
#[tactic(auto, unfolding(image::specs::Nodes::is_local))]
fn is_local(x: u32) -> bool
    ensures { result ≡ is_local x }
{
    1 <= x && x < VARIABLES
}

// What x and y of a node must be. They are words of a record that may be broken, so there is no type of nodes yet.
#[tactic(auto, unfolding(image::specs::Nodes::names_hold, image::specs::Nodes::is_class, image::specs::Nodes::is_variable, image::specs::Nodes::is_unused, image::specs::Records::is_name))]
pub fn names_hold(classes: u32, k: Kind, x: u32, y: u32) -> bool
    requires { classes ≤ most_classes }
    ensures { result ≡ names_hold classes k x y }
{
    match k {
        Kind::New | Kind::Cast => x < classes && y == 0,
        Kind::Value => x < WRITTEN_TAGS && words::is_value(x, y),
        Kind::Var | Kind::Assign => x < VARIABLES && y == 0,
        Kind::Add | Kind::Eq | Kind::Seq | Kind::If | Kind::While => x == 0 && y == 0,
        Kind::Get | Kind::Set => x <= HIGHEST_NAME && y < classes,
        Kind::Call => x <= HIGHEST_NAME && y <= MOST_ARGUMENTS,
        Kind::Block => is_local(x) && words::is_declared(y, classes),
        Kind::Throw => words::is_type(x, classes) && y == 0,
        Kind::Try => x < classes && is_local(y),
        Kind::Unknown => false,
    }
}

// How many operands a node has.
#[tactic(auto, unfolding(image::specs::Nodes::operands))]
pub fn operand_count(k: Kind, y: u32) -> usize
    ensures { result ≡ operands k y }
{
    match k {
        Kind::New | Kind::Value | Kind::Var | Kind::Unknown => 0,
        Kind::Cast | Kind::Assign | Kind::Get | Kind::Block | Kind::Throw => 1,
        Kind::Add | Kind::Eq | Kind::Set | Kind::Seq | Kind::While | Kind::Try => 2,
        Kind::If => 3,
        Kind::Call => y as usize + 1,
    }
}
