// The rules 10 and 11, about an image: there a superclass has a lower number.
#![tactic(auto)]

ghost use Rattle.std.specs.Prelude.{◌≡◌, true, ◌+◌, ◌≤◌, ◌<◌};
ghost use Rattle.std.proofs.Math.Option.{some};
ghost use Rattle.order.specs.Rules.{first_place};
ghost use Rattle.image.specs.Trailer.{field_count};
ghost use Rattle.rules.specs.Program.{types_from, method_at, program};
ghost use Rattle.rules.specs.Classes.{subtype, subtypes, overrides, override_holds};
ghost use Rattle.rules.specs.Numbers.{fields_rule, override_rule};
ghost use Rattle.class_rules.specs.Counts.{Counted};

use classes::Members;
use image::{Image, MOST_CLASSES};

// How many fields a class may have, with those of the classes above it.
const MOST_FIELDS_ABOVE: usize = 15;

// How many fields each class declares. The memory is fixed: a count for each of the most classes that there may be.
fn own_counts(image: &Image) -> [usize; MOST_CLASSES]
    ensures { Counted image.now.words.now (field_count image.now.words.now) result }
{
    let mut counts: [usize; MOST_CLASSES] = [0; MOST_CLASSES];
    for i in 0..image.layout.field_count {
        let c = image.field_word(i, 0) as usize;
        counts[c] += 1;
    }
    counts
}

// 10: the first class that has too many fields. A class has its superclass's fields and its own, and the superclass comes
// first. Class 0 is the system's: it has none.
pub fn fields_place(image: &Image) -> Option<usize>
    ensures { result ≡ first_place (fields_rule image.now.words.now) }
{
    let mut counts = own_counts(image);
    for c in 1..image.layout.class_count {
        let s = image.class_word(c) as usize;
        let total = counts[s] + counts[c];
        if MOST_FIELDS_ABOVE < total {
            return Some(c);
        }
        counts[c] = total;
    }
    None
}

// Whether each of n types from type word a on is a subtype of the one as far from type word b. `node_rules::args_below` has the first types
// in an array: a loop of both would take a closure for them, to save three lines.
#[tactic(auto, using(classes::specs::Subtypes::subtypes_all, classes::specs::Records::type_open), unfolding(rules::specs::Program::types_from, words::specs::Types::is_type))]
fn params_below(image: &Image, a: usize, b: usize, n: usize) -> bool
    requires { (a + n ≤ image.now.layout.type_count) × (b + n ≤ image.now.layout.type_count) }
    ensures { result ≡ subtypes (program image.now.words.now) (types_from image.now.words.now a n) (types_from image.now.words.now b n) }
{
    for k in 0..n {
        let t = words::type_of(image.type_word(a + k));
        let u = words::type_of(image.type_word(b + k));
        if !classes::is_subtype(image, t, u) {
            return false;
        }
    }
    true
}

// Whether method i may override method o: it takes all that o takes, and returns no more than o returns.
#[tactic(auto, using(crate::specs::Overrides::overrides_not))]
fn overrides(image: &Image, i: usize, o: usize) -> bool
    requires { (i < image.now.layout.method_count) × (o < image.now.layout.method_count) }
    ensures { result ≡ overrides (program image.now.words.now) (method_at image.now.words.now i) (some (method_at image.now.words.now o)) }
{
    let n = image.method_word(i, 4);
    let overridden = image.method_word(o, 4);
    if overridden != n {
        return false;
    }
    let a = image.method_word(o, 3) as usize;
    let b = image.method_word(i, 3) as usize;
    let t = words::type_of(image.method_word(i, 2));
    let u = words::type_of(image.method_word(o, 2));
    params_below(image, a, b, n as usize) & classes::is_subtype(image, t, u)
}

// Whether method i overrides well what the class above its own sees of its name, if it sees anything.
fn override_holds(image: &Image, i: usize) -> bool
    requires { i < image.now.layout.method_count }
    ensures { result ≡ override_holds (program image.now.words.now) (method_at image.now.words.now i) }
{
    let owner = image.method_word(i, 0) as usize;
    let name = image.method_word(i, 1) as usize;
    let above = image.class_word(owner) as usize;
    match classes::look_up(image, Members::Methods, above, name) {
        Some(seen) => overrides(image, i, seen.record),
        None => true,
    }
}

// 11: the first method that overrides badly.
#[tactic(auto, unfolding(order::specs::Rules::first_place, rules::specs::Numbers::override_rule))]
pub fn override_place(image: &Image) -> Option<usize>
    ensures { result ≡ first_place (override_rule image.now.words.now) }
{
    order::first_broken(image.layout.method_count, |i| override_holds(image, i))
}
