// The tables of an image: class, field and method records and type words, numbers 4 to 7 of the layout.
// Each test computes the definition of image's Records that has its name.
#![tactic(auto)]

ghost use Rattle.std.specs.Prelude.{◌≡◌, ◌<◌};
ghost use Rattle.order.specs.Rules.{first_place};
ghost use Rattle.image.specs.Records.{class_holds, rises, field_rises, field_holds, method_rises, method_holds, type_holds};
ghost use Rattle.image.specs.Layout.{class_rule, field_rule, method_rule, type_rule};

use image::{FIRST_USER_CLASS, Sections};

// 4: a class record; at the class count, that there are enough classes.
#[tactic(auto, unfolding(image::specs::Records::class_holds))]
fn class_holds(sections: &Sections, c: usize) -> bool
    ensures { result ≡ class_holds sections.now.words.now c }
{
    if c < sections.layout.class_count {
        records::super_holds(c, sections.class_word(c))
    } else {
        FIRST_USER_CLASS <= sections.layout.class_count
    }
}

// Field i comes after the one before it, if there is one. `method_rises` is the same of methods, but the definitions are two: a test of
// both would take a closure that reads a record, with a contract longer than what they share.
#[tactic(auto, using(crate::specs::Laws::field_after), unfolding(image::specs::Records::field_rises))]
fn field_rises(sections: &Sections, i: usize) -> bool
    requires { i < sections.now.layout.field_count }
    ensures { result ≡ field_rises sections.now.words.now i }
{
    if i == 0 {
        return true;
    }
    let before = i - 1;
    let c = sections.field_word(before, 0);
    let n = sections.field_word(before, 1);
    let d = sections.field_word(i, 0);
    let m = sections.field_word(i, 1);
    records::rises(c, n, d, m)
}

// 5: a field record.
#[tactic(auto, unfolding(image::specs::Records::field_holds))]
fn field_holds(sections: &Sections, i: usize) -> bool
    requires { i < sections.now.layout.field_count }
    ensures { result ≡ field_holds sections.now.words.now i }
{
    let c = sections.field_word(i, 0);
    let n = sections.field_word(i, 1);
    let t = sections.field_word(i, 2);
    records::member_holds(sections.layout.class_count, c, n, t) & field_rises(sections, i)
}

// Method i comes after the one before it, if there is one.
#[tactic(auto, using(crate::specs::Laws::method_after), unfolding(image::specs::Records::method_rises))]
fn method_rises(sections: &Sections, i: usize) -> bool
    requires { i < sections.now.layout.method_count }
    ensures { result ≡ method_rises sections.now.words.now i }
{
    if i == 0 {
        return true;
    }
    let before = i - 1;
    let c = sections.method_word(before, 0);
    let n = sections.method_word(before, 1);
    let d = sections.method_word(i, 0);
    let m = sections.method_word(i, 1);
    records::rises(c, n, d, m)
}

// 6: a method record.
#[tactic(auto, unfolding(image::specs::Records::method_holds))]
fn method_holds(sections: &Sections, i: usize) -> bool
    requires { i < sections.now.layout.method_count }
    ensures { result ≡ method_holds sections.now.words.now i }
{
    let c = sections.method_word(i, 0);
    let n = sections.method_word(i, 1);
    let t = sections.method_word(i, 2);
    let first = sections.method_word(i, 3);
    let count = sections.method_word(i, 4);
    records::member_holds(sections.layout.class_count, c, n, t)
        & records::arguments_hold(sections.layout.type_count, first, count)
        & method_rises(sections, i)
}

// 7: a type word is a declared type.
#[tactic(auto, unfolding(image::specs::Records::type_holds))]
fn type_holds(sections: &Sections, i: usize) -> bool
    requires { i < sections.now.layout.type_count }
    ensures { result ≡ type_holds sections.now.words.now i }
{
    words::is_declared(sections.type_word(i), sections.layout.class_count as u32)
}

// The first broken class record, or the class count where there are too few.
#[tactic(auto, unfolding(order::specs::Rules::first_place, image::specs::Layout::class_rule))]
pub fn class_place(sections: &Sections) -> Option<usize>
    ensures { result ≡ first_place (class_rule sections.now.words.now) }
{
    order::first_broken(
        sections.layout.class_count + 1,
        |c| class_holds(sections, c),
    )
}

// The first broken field record.
#[tactic(auto, unfolding(order::specs::Rules::first_place, image::specs::Layout::field_rule))]
pub fn field_place(sections: &Sections) -> Option<usize>
    ensures { result ≡ first_place (field_rule sections.now.words.now) }
{
    order::first_broken(sections.layout.field_count, |i| field_holds(sections, i))
}

// The first broken method record.
#[tactic(auto, unfolding(order::specs::Rules::first_place, image::specs::Layout::method_rule))]
pub fn method_place(sections: &Sections) -> Option<usize>
    ensures { result ≡ first_place (method_rule sections.now.words.now) }
{
    order::first_broken(sections.layout.method_count, |i| method_holds(sections, i))
}

// The first broken type word.
#[tactic(auto, unfolding(order::specs::Rules::first_place, image::specs::Layout::type_rule))]
pub fn type_place(sections: &Sections) -> Option<usize>
    ensures { result ≡ first_place (type_rule sections.now.words.now) }
{
    order::first_broken(sections.layout.type_count, |i| type_holds(sections, i))
}
