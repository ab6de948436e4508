// The type of one node, from the types of its operands: the rules of figure 1. Each gives the node's type, or none where the node breaks
// a premise of its own.
#![tactic(auto)]

ghost use Rattle.std.specs.Prelude.{◌≡◌, ◌&&◌, List, [], ◌∷◌, ℕ, suc, ◌+◌, ◌≤◌, ◌<◌, length, get_or, ok_or};
ghost use Rattle.words.specs.declared.Ty.TheVariants.{Void, Boolean, Integer};
ghost use Rattle.image.specs.declared.Kind.TheVariants.{Cast, Var, Eq, Assign, Get, Set, Call};
ghost use Rattle.image.specs.Numbers.{variables, most_arguments, highest_name, written_tags};
ghost use Rattle.image.specs.Trailer.{class_count};
ghost use Rattle.std.specs.Bool.{then_some};
ghost use Rattle.rules.specs.Maps.{tabulate};
ghost use Rattle.rules.specs.Program.{program, types_from};
ghost use Rattle.rules.specs.Classes.{subtypes, same_type};
ghost use Rattle.node_rules.specs.Env.{Has, AllHave, env_of, EnvOk, Answers, literal_type, is_object, nowhere, types_of};
ghost use Rattle.node_rules.specs.Node.{node_rule};

use classes::Members;
use image::Image;
use words::Ty;

// What the typing of a node finds: its type, or the place of the first node that has none.
pub type Typed = Result<Ty, usize>;

// The types of a node's operands, first to last, or the place of the first node among them that has none. A Vec would take memory from a
// heap: no node has more than nine operands, and its kind says how many.
pub type Types = Result<[Ty; 9], usize>;

// The type of a written value, by its tag.
#[tactic(auto, unfolding(crate::specs::Env::literal_type))]
pub fn literal_rule(x: u32) -> Ty
    requires { x < written_tags }
    ensures { result ≡ literal_type x }
{
    match x {
        0 => Ty::Void,
        1 => Ty::NT,
        2 => Ty::Boolean,
        _ => Ty::Integer,
    }
}

pub fn add_rule(a: Ty, b: Ty) -> Option<Ty>
    ensures { result ≡ then_some (same_type a Integer && same_type b Integer) Integer }
{
    (classes::same_type(a, Ty::Integer) && classes::same_type(b, Ty::Integer)).then_some(
        Ty::Integer,
    )
}

// Both arms have the same type.
pub fn if_rule(test: Ty, a: Ty, b: Ty) -> Option<Ty>
    ensures { result ≡ then_some (same_type test Boolean && same_type a b) a }
{
    (classes::same_type(test, Ty::Boolean) && classes::same_type(a, b)).then_some(a)
}

pub fn while_rule(test: Ty) -> Option<Ty>
    ensures { result ≡ then_some (same_type test Boolean) Void }
{
    classes::same_type(test, Ty::Boolean).then_some(Ty::Void)
}

// Any object may be thrown. A Throw says itself what type it has.
pub fn throw_rule(t: Ty, own: Ty) -> Option<Ty>
    ensures { result ≡ then_some (is_object t) own }
{
    matches!(t, Ty::Class(_)).then_some(own)
}

pub fn try_rule(a: Ty, b: Ty) -> Option<Ty>
    ensures { result ≡ then_some (same_type a b) a }
{
    classes::same_type(a, b).then_some(a)
}

// A cast goes up or down.
#[tactic(auto, using(crate::specs::RuleLaws::cast_none, crate::specs::RuleLaws::cast_class))]
pub fn cast_rule(image: &Image, x: u32, t: Ty) -> Option<Ty>
    requires { (x < class_count image.now.words.now) × Has image.now.words.now t }
    ensures { (n : ℕ) → Answers image.now.words.now (ok_or result n) (node_rule (program image.now.words.now) nowhere Cast n x 0 (t ∷ [])) }
{
    let Ty::Class(c) = t else {
        return None;
    };
    let c = c as usize;
    let d = x as usize;
    let related = classes::is_subclass(image, c, d) | classes::is_subclass(image, d, c);
    related.then_some(Ty::Class(x))
}

// One of the two types is a subtype of the other.
#[tactic(auto, using(crate::specs::RuleLaws::eq_types))]
pub fn eq_rule(image: &Image, a: Ty, b: Ty) -> Option<Ty>
    requires { Has image.now.words.now a × Has image.now.words.now b }
    ensures { (n : ℕ) → Answers image.now.words.now (ok_or result n) (node_rule (program image.now.words.now) nowhere Eq n 0 0 (a ∷ b ∷ [])) }
{
    let related = classes::is_subtype(image, a, b) | classes::is_subtype(image, b, a);
    related.then_some(Ty::Boolean)
}

// The type that the variable has, if it has one.
#[tactic(auto, using(crate::specs::RuleLaws::var_answer))]
pub fn var_rule(env: &[Option<Ty>], x: u32) -> Option<Ty>
    requires { (length env.now ≡ variables) × (x < variables) }
    ensures { (ws : List ℕ) (n : ℕ) → EnvOk ws env.now → Answers ws (ok_or result n) (node_rule (program ws) (env_of env.now) Var n x 0 []) }
{
    env[x as usize]
}

// Nothing is assigned to variable 0, which is `this`.
#[tactic(auto, using(crate::specs::RuleLaws::assign_none, crate::specs::RuleLaws::assign_type))]
pub fn assign_rule(image: &Image, env: &[Option<Ty>], x: u32, t: Ty) -> Option<Ty>
    requires { EnvOk image.now.words.now env.now × (x < variables) × Has image.now.words.now t }
    ensures { (n : ℕ) → Answers image.now.words.now (ok_or result n) (node_rule (program image.now.words.now) (env_of env.now) Assign n x 0 (t ∷ [])) }
{
    let u = env[x as usize]?;
    ((x != 0) & classes::is_subtype(image, t, u)).then_some(t)
}

// The class sees a field of the name, and the class that declares it is the one that the node says.
#[tactic(auto, using(crate::specs::RuleLaws::get_none, crate::specs::RuleLaws::get_nothing))]
pub fn get_rule(image: &Image, x: u32, y: u32, t: Ty) -> Option<Ty>
    requires { (x ≤ highest_name) × Has image.now.words.now t }
    ensures { (n : ℕ) → Answers image.now.words.now (ok_or result n) (node_rule (program image.now.words.now) nowhere Get n x y (t ∷ [])) }
{
    let Ty::Class(c) = t else {
        return None;
    };
    let field = classes::look_up(image, Members::Fields, c as usize, x as usize)?;
    (field.owner == y as usize).then_some(words::type_of(image.field_word(field.record, 2)))
}

// The same for a field that is set. The value's type is below the field's.
#[tactic(auto, using(crate::specs::RuleLaws::set_none, crate::specs::RuleLaws::set_nothing, crate::specs::RuleLaws::set_field))]
pub fn set_rule(image: &Image, x: u32, y: u32, t: Ty, u: Ty) -> Option<Ty>
    requires { (x ≤ highest_name) × Has image.now.words.now t × Has image.now.words.now u }
    ensures { (n : ℕ) → Answers image.now.words.now (ok_or result n) (node_rule (program image.now.words.now) nowhere Set n x y (t ∷ u ∷ [])) }
{
    let Ty::Class(c) = t else {
        return None;
    };
    let field = classes::look_up(image, Members::Fields, c as usize, x as usize)?;
    let below = classes::is_subtype(image, u, words::type_of(image.field_word(field.record, 2)));
    ((field.owner == y as usize) & below).then_some(u)
}

// As many arguments as parameters, each type below its parameter's. The receiver's type stands first. `class_rules::params_below` says why
// the loop is not shared.
#[tactic(auto, using(classes::specs::Subtypes::subtypes_all, classes::specs::Subtypes::subtypes_lengths), unfolding(rules::specs::Program::types_from))]
fn args_below(image: &Image, types: [Ty; 9], given: usize, first: usize, count: usize) -> bool
    requires { AllHave image.now.words.now types × (given ≤ most_arguments) × (first + count ≤ image.now.layout.type_count) }
    ensures { result ≡ subtypes (program image.now.words.now) (tabulate given (λ i. get_or types (suc i) Void)) (types_from image.now.words.now first count) }
{
    if given != count {
        return false;
    }
    for i in 0..count {
        let parameter = words::type_of(image.type_word(first + i));
        if !classes::is_subtype(image, types[i + 1], parameter) {
            return false;
        }
    }
    true
}

// The class sees a method of the name, and its parameters take the y arguments.
#[tactic(auto, using(crate::specs::RuleLaws::call_none, crate::specs::RuleLaws::call_nothing))]
pub fn call_rule(image: &Image, x: u32, y: u32, types: [Ty; 9]) -> Option<Ty>
    requires { (x ≤ highest_name) × (y ≤ most_arguments) × AllHave image.now.words.now types }
    ensures { (n : ℕ) → Answers image.now.words.now (ok_or result n) (node_rule (program image.now.words.now) nowhere Call n x y (types_of (suc y) types)) }
{
    let Ty::Class(c) = types[0] else {
        return None;
    };
    let method = classes::look_up(image, Members::Methods, c as usize, x as usize)?;
    let first = image.method_word(method.record, 3) as usize;
    let count = image.method_word(method.record, 4) as usize;
    let below = args_below(image, types, y as usize, first, count);
    below.then_some(words::type_of(image.method_word(method.record, 2)))
}
