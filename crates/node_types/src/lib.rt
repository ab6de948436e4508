// What a node binds for its operands, and its type once theirs are known.
#![tactic(auto)]

ghost use Rattle.std.specs.Prelude.{◌≡◌, true, ◌+◌, ◌≤◌, ◌<◌, ok_or, ℕ};
ghost use Rattle.image.specs.Trailer.{class_count};
ghost use Rattle.image.specs.Nodes.{names_hold, operands};
ghost use Rattle.rules.specs.Program.{program};
ghost use Rattle.laws.specs.Trees.{operand_count};
ghost use Rattle.node_rules.specs.Node.{node_rule};
ghost use Rattle.node_rules.specs.Env.{env_of, types_of, EnvOk, Answers, AllHave, Listed, res_tys, operand_var, operand_type, rule_of};
ghost use Rattle.node_types.specs.Bound.{Binds};

use image::{Image, Kind};
use node_rules::{Typed, Types};
use words::Ty;

// A variable that is bound, and its type.
#[derive(Clone, Copy)]
pub struct Bound {
    pub variable: usize,
    pub ty: Ty,
}

// What node n binds for the operand that has j others behind it: only the last may have a variable of its own.
pub fn operand_bound(image: &Image, n: usize, j: usize) -> Option<Bound>
    requires { n < image.now.layout.node_count }
    ensures { Binds (operand_var image.now.words.now n j) (operand_type image.now.words.now n) result }
{
    if j != 0 {
        return None;
    }
    let x = image.node_word(n, 2);
    let y = image.node_word(n, 3);
    match Kind::from(image.node_word(n, 0)) {
        Kind::Block => Some(Bound {
            variable: x as usize,
            ty: words::type_of(y),
        }),
        Kind::Try => Some(Bound {
            variable: y as usize,
            ty: Ty::Class(x),
        }),
        _ => None,
    }
}

// How many operands node n has.
pub fn operand_total(image: &Image, n: usize) -> usize
    requires { n < image.now.layout.node_count }
    ensures { (result ≡ operand_count image.now.words.now n) × (result ≤ 9) }
{
    let k = Kind::from(image.node_word(n, 0));
    kinds::operand_count(k, image.node_word(n, 3))
}

// Node n's type, when its operands have been typed.
pub fn finish(image: &Image, env: &[Option<Ty>], n: usize, r: Types) -> Typed
    requires { EnvOk image.now.words.now env.now × (n < image.now.layout.node_count) × Listed image.now.words.now r }
    ensures { Answers image.now.words.now result (rule_of image.now.words.now n env.now (res_tys (operand_count image.now.words.now n) r)) }
{
    let types = r?;
    let k = Kind::from(image.node_word(n, 0));
    let x = image.node_word(n, 2);
    let y = image.node_word(n, 3);
    node_rule(image, env, k, x, y, types).ok_or(n)
}

// The type of a node from its operands' types: its own premises.
#[tactic(auto, using(node_rules::specs::RuleLaws::named), unfolding(node_rules::specs::Node::node_rule, image::specs::Nodes::operands, node_rules::specs::Env::types_of, rules::specs::Maps::tabulate))]
fn node_rule(
    image: &Image,
    env: &[Option<Ty>],
    k: Kind,
    x: u32,
    y: u32,
    types: [Ty; 9],
) -> Option<Ty>
    requires { EnvOk image.now.words.now env.now × (names_hold (class_count image.now.words.now) k x y ≡ true) × AllHave image.now.words.now types }
    ensures { (n : ℕ) → Answers image.now.words.now (ok_or result n) (node_rule (program image.now.words.now) (env_of env.now) k n x y (types_of (operands k y) types)) }
{
    match k {
        Kind::New => Some(Ty::Class(x)),
        Kind::Cast => node_rules::cast_rule(image, x, types[0]),
        Kind::Value => Some(node_rules::literal_rule(x)),
        Kind::Var => node_rules::var_rule(env, x),
        Kind::Add => node_rules::add_rule(types[0], types[1]),
        Kind::Eq => node_rules::eq_rule(image, types[0], types[1]),
        Kind::Assign => node_rules::assign_rule(image, env, x, types[0]),
        Kind::Get => node_rules::get_rule(image, x, y, types[0]),
        Kind::Set => node_rules::set_rule(image, x, y, types[0], types[1]),
        Kind::Call => node_rules::call_rule(image, x, y, types),
        Kind::Block => Some(types[0]),
        Kind::Seq => Some(types[1]),
        Kind::If => node_rules::if_rule(types[0], types[1], types[2]),
        Kind::While => node_rules::while_rule(types[0]),
        Kind::Throw => node_rules::throw_rule(types[0], words::type_of(x)),
        Kind::Try => node_rules::try_rule(types[0], types[1]),
        Kind::Unknown => None,
    }
}
