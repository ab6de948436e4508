// Number 12: every node of every body has a type, and a body's type is below its method's result.
// An environment has the type of each of the 64 variables, or none. A map of the library's would take memory from a heap; here each
// variable has its place.
#![tactic(auto)]

ghost use Rattle.std.specs.Prelude.{◌≡◌, ℕ, ◌+◌, ◌≤◌, ◌<◌, get_or, None};
ghost use Rattle.image.specs.Numbers.{most_arguments};
ghost use Rattle.image.specs.Nodes.{operands};
ghost use Rattle.laws.specs.Trees.{operand_count};
ghost use Rattle.order.specs.Rules.{first_place};
ghost use Rattle.rules.specs.Maps.{from};
ghost use Rattle.rules.specs.Numbers.{typing_rule};
ghost use Rattle.rules.specs.Trees.{tree};
ghost use Rattle.rules.specs.Typing.{typing as Typing·typing};
ghost use Rattle.rules.specs.Program.{program, types_from};
ghost use Rattle.node_rules.specs.Env.{env_of, EnvOk, Answers, Lists, operand_typing, operands_typing, res_ty, method_typing, main_typing};

use image::Image;
use node_rules::{Typed, Types};
use std::mem;
use words::Ty;

// The type of node n. Its operands are typed first: they have lower numbers.
#[cycle(type_list_type_node_type_operand)]
fn type_node(image: &Image, env: &mut [Option<Ty>], n: usize) -> Typed
    requires { EnvOk image.now.words.now env.old × (n < image.now.layout.node_count) }
    ensures { Answers image.now.words.now result (Typing·typing (program image.now.words.now) (tree image.now.words.now n) (env_of env.old)) × (env.new ≡ env.old) }
{
    let types = type_list(image, env, n);
    node_types::finish(image, env, n, types)
}

// The types of node n's operands, first to last.
#[cycle(type_list_type_node_type_operand)]
fn type_list(image: &Image, env: &mut [Option<Ty>], n: usize) -> Types
    requires { EnvOk image.now.words.now env.old × (n < image.now.layout.node_count) }
    ensures { Lists image.now.words.now (operand_count image.now.words.now n) result (operands_typing image.now.words.now n env.old) × (env.new ≡ env.old) }
{
    let count = node_types::operand_total(image, n);
    let mut types = [Ty::Void; 9];
    for i in 0..count {
        // No `?`: the place that 12 tells has a name here, so that an edit can tell another and change nothing else.
        match type_operand(image, env, n, count - 1 - i) {
            Ok(t) => types[i] = t,
            Err(p) => return Err(p),
        }
    }
    Ok(types)
}

// The type of node n's operand that has j others behind it. What the node binds for it is given back.
#[cycle(type_list_type_node_type_operand)]
fn type_operand(image: &Image, env: &mut [Option<Ty>], n: usize, j: usize) -> Typed
    requires { EnvOk image.now.words.now env.old × (n < image.now.layout.node_count) × (j < operand_count image.now.words.now n) }
    ensures { Answers image.now.words.now result (operand_typing image.now.words.now n j env.old) × (env.new ≡ env.old) }
{
    let m = operands::operand_place(image, n, j);
    match node_types::operand_bound(image, n, j) {
        None => type_node(image, env, m),
        Some(b) => {
            let old = mem::replace(&mut env[b.variable], Some(b.ty));
            let r = type_node(image, env, m);
            env[b.variable] = old;
            r
        },
    }
}

// Gives `count` variables from 1 on the types that stand from type word `first` on.
fn declare(image: &Image, env: &mut [Option<Ty>], first: usize, count: usize)
    requires { EnvOk image.now.words.now env.old × ((x : ℕ) → get_or env.old x None ≡ None) × (first + count ≤ image.now.layout.type_count) × (count ≤ most_arguments) }
    ensures { EnvOk image.now.words.now env.new × (env_of env.new ≡ from 1 (types_from image.now.words.now first count)) }
{
    for j in (0..count).rev() {
        env[j + 1] = Some(words::type_of(image.type_word(first + j)));
    }
}

// The body of method i, whose type must be below the method's result. Its variables are `this` and the parameters.
fn type_method(image: &Image, i: usize) -> Typed
    requires { i < image.now.layout.method_count }
    ensures { res_ty result ≡ method_typing image.now.words.now i }
{
    let mut env = [None; 64];
    let first = image.method_word(i, 3) as usize;
    let count = image.method_word(i, 4) as usize;
    declare(image, &mut env, first, count);
    env[0] = Some(Ty::Class(image.method_word(i, 0)));
    let n = image.method_word(i, 5) as usize;
    let t = type_node(image, &mut env, n)?;
    let u = words::type_of(image.method_word(i, 2));
    if classes::is_subtype(image, t, u) {
        Ok(t)
    } else {
        Err(n)
    }
}

// Main. Its variables are the inputs, whose types are the last type words.
fn type_main(image: &Image) -> Typed
    ensures { res_ty result ≡ main_typing image.now.words.now }
{
    let mut env = [None; 64];
    declare(
        image,
        &mut env,
        image.layout.type_count - image.layout.inputs,
        image.layout.inputs,
    );
    type_node(image, &mut env, image.layout.main)
}

// 12: the first node without a type, or whose type is not below the result of the body that it ends. `setting::unset_place` has the same
// lines around another check; shared, they would take two closures.
pub fn untyped_place(image: &Image) -> Option<usize>
    ensures { result ≡ first_place (typing_rule image.now.words.now) }
{
    for i in 0..image.layout.method_count {
        if let Err(p) = type_method(image, i) {
            return Some(p);
        }
    }
    type_main(image).err()
}
