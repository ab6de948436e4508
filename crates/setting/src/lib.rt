// Number 13: every variable is set before it is read.
#![tactic(auto)]

ghost use Rattle.std.specs.Prelude.{◌≡◌, ◌≤◌, ◌<◌, length};
ghost use Rattle.order.specs.Rules.{first_place};
ghost use Rattle.image.specs.Numbers.{variables};
ghost use Rattle.image.specs.Trailer.{input_count};
ghost use Rattle.rules.specs.Trees.{arguments, tree};
ghost use Rattle.rules.specs.Program.{method_at, main};
ghost use Rattle.rules.specs.Setting.{setting, settings};
ghost use Rattle.rules.specs.Setting.{between as Setting·between};
ghost use Rattle.rules.specs.Numbers.{setting_rule};
ghost use Rattle.laws.specs.Trees.{operand_count};
ghost use Rattle.vars.specs.Vars.{vars_of};
ghost use Rattle.setting.specs.Settle.{res_of, below, in_block, in_if, in_while, in_try};
ghost use Rattle.setting.specs.Settle.{own as Settle·own};

use image::{Image, Kind};
use vars::Vars;

// What the check of a tree finds: the set after it, or the place of the first variable that is read unset.
pub type Settled = Result<Vars, usize>;

// What node n itself does after its operands.
#[tactic(auto, unfolding(crate::specs::Settle::own, rules::specs::Typing::need))]
fn own(k: Kind, n: usize, x: usize, vars: Vars) -> Settled
    requires { (k ≡ Kind.Var → x < variables) × (k ≡ Kind.Assign → x < variables) }
    ensures { res_of result ≡ Settle·own k n x (vars_of vars) }
{
    match k {
        Kind::Var => { if vars.has(x) { Ok(vars) } else { Err(n) } }
        Kind::Assign => Ok(vars.with(x)),
        Kind::Throw => Ok(Vars::all()),
        _ => Ok(vars),
    }
}

// The operand of node n that has j others behind it.
#[cycle(settle)]
fn settle_one(image: &Image, n: usize, j: usize, vars: Vars) -> Settled
    requires { (n < image.now.layout.node_count) × (j < operand_count image.now.words.now n) }
    ensures { res_of result ≡ setting (below image.now.words.now n j) (vars_of vars) }
{
    settle(image, operands::operand_place(image, n, j), vars)
}

// The last operands of node n, one after the other.
#[cycle(settle)]
fn settle_list(image: &Image, n: usize, count: usize, vars: Vars) -> Settled
    requires { (n < image.now.layout.node_count) × (count ≤ operand_count image.now.words.now n) }
    ensures { res_of result ≡ settings (arguments (below image.now.words.now n) count) (vars_of vars) }
{
    let mut set = vars;
    for i in (0..count).rev() {
        set = settle_one(image, n, i, set)?;
    }
    Ok(set)
}

// A block declares x: unset at its start, and as it was before at its end.
#[cycle(settle)]
fn settle_block(image: &Image, n: usize, x: usize, vars: Vars) -> Settled
    requires { (n < image.now.layout.node_count) × (0 < operand_count image.now.words.now n) × (x < variables) }
    ensures { res_of result ≡ in_block (setting (below image.now.words.now n 0)) x (vars_of vars) }
{
    let e = settle_one(image, n, 0, vars.without(x))?;
    Ok(e.put(x, vars.has(x)))
}

// Both arms start from what the condition leaves.
#[cycle(settle)]
fn settle_if(image: &Image, n: usize, vars: Vars) -> Settled
    requires { (n < image.now.layout.node_count) × (2 < operand_count image.now.words.now n) }
    ensures { res_of result ≡ in_if (setting (below image.now.words.now n 2)) (setting (below image.now.words.now n 1)) (setting (below image.now.words.now n 0)) (vars_of vars) }
{
    let c = settle_one(image, n, 2, vars)?;
    let a = settle_one(image, n, 1, c)?;
    let b = settle_one(image, n, 0, c)?;
    Ok(a.meet(b))
}

// The body may not be run, so the condition's set is what is left.
#[cycle(settle)]
fn settle_while(image: &Image, n: usize, vars: Vars) -> Settled
    requires { (n < image.now.layout.node_count) × (1 < operand_count image.now.words.now n) }
    ensures { res_of result ≡ in_while (setting (below image.now.words.now n 1)) (setting (below image.now.words.now n 0)) (vars_of vars) }
{
    let c = settle_one(image, n, 1, vars)?;
    settle_one(image, n, 0, c)?;
    Ok(c)
}

// What is caught may be thrown before anything is set, so the second part starts from the same set with x.
#[cycle(settle)]
fn settle_try(image: &Image, n: usize, x: usize, vars: Vars) -> Settled
    requires { (n < image.now.layout.node_count) × (1 < operand_count image.now.words.now n) × (x < variables) }
    ensures { res_of result ≡ in_try (setting (below image.now.words.now n 1)) (setting (below image.now.words.now n 0)) x (vars_of vars) }
{
    let a = settle_one(image, n, 1, vars)?;
    let b = settle_one(image, n, 0, vars.with(x))?;
    Ok(a.meet(b.put(x, vars.has(x))))
}

// The tree of node n.
#[cycle(settle)]
#[tactic(auto, using(crate::specs::Settle::by_kind))]
fn settle(image: &Image, n: usize, vars: Vars) -> Settled
    requires { n < image.now.layout.node_count }
    ensures { res_of result ≡ setting (tree image.now.words.now n) (vars_of vars) }
{
    let k = Kind::from(image.node_word(n, 0));
    let x = image.node_word(n, 2) as usize;
    let y = image.node_word(n, 3);
    match k {
        Kind::Block => settle_block(image, n, x, vars),
        Kind::If => settle_if(image, n, vars),
        Kind::While => settle_while(image, n, vars),
        Kind::Try => settle_try(image, n, y as usize, vars),
        _ => {
            let set = settle_list(image, n, kinds::operand_count(k, y), vars)?;
            own(k, n, x, set)
        }
    }
}

// Method i's body, from `this` and its arguments.
#[tactic(auto, using(crate::specs::Unset::body_within, crate::specs::Unset::few_arguments, crate::specs::Unset::method_body))]
fn settle_method(image: &Image, i: usize) -> Settled
    requires { i < image.now.layout.method_count }
    ensures { res_of result ≡ setting (method_at image.now.words.now i).body (Setting·between 0 (length (method_at image.now.words.now i).params)) }
{
    let count = image.method_word(i, 4) as usize;
    let body = image.method_word(i, 5) as usize;
    settle(image, body, Vars::between(0, count))
}

// Main, from its inputs.
#[tactic(auto, using(crate::specs::Unset::main_within), unfolding(rules::specs::Program::main))]
fn settle_main(image: &Image) -> Settled
    ensures { res_of result ≡ setting (main image.now.words.now) (Setting·between 1 (input_count image.now.words.now)) }
{
    settle(
        image,
        image.layout.main,
        Vars::between(1, image.layout.inputs),
    )
}

// 13: the first node that reads a variable which is not surely set. The lines are those of `typing::untyped_place` around another check.
#[tactic(auto, using(crate::specs::Unset::main_place, crate::specs::Unset::method_held, crate::specs::Unset::method_unset))]
pub fn unset_place(image: &Image) -> Option<usize>
    ensures { result ≡ first_place (setting_rule image.now.words.now) }
{
    for i in 0..image.layout.method_count {
        if let Err(p) = settle_method(image, i) {
            return Some(p);
        }
    }
    settle_main(image).err()
}
