// The first public question: may this image be let in? The first breach among the numbers 1 to 13, or none.
#![tactic(auto)]

ghost use Rattle.std.specs.Prelude.{◌≡◌};
ghost use Rattle.order.specs.Rules.{answer_of};
ghost use Rattle.rules.specs.Numbers.{check_rules};
ghost use Rattle.image_check.specs.declared.Rejected.TheVariants.{Layout};
ghost use Rattle.image_check.specs.Answers.{checked_numbers, rejected_numbers, RulesFrom10};

use image::{Breach, Image};
use order::Answer;

// Why an image is not let in: these breaches and no others, so each of the three questions has an enum of its own. A breach of the layout
// keeps its own case.
#[derive(Clone, Copy)]
pub enum Rejected {
    Layout(Breach),
    Fields(usize),
    Override(usize),
    Untyped(usize),
    Unset(usize),
}

impl From<Breach> for Rejected {
    ghost from_gives = { λ b result. result ≡ Layout b };

    fn from(b: Breach) -> Rejected {
        Rejected::Layout(b)
    }
}

// The number and place of a refusal.
impl From<Rejected> for Answer {
    ghost from_gives = { λ r result. result ≡ rejected_numbers r };

    fn from(r: Rejected) -> Answer {
        let (number, place) = match r {
            Rejected::Layout(b) => return Answer::from(b),
            Rejected::Fields(p) => (10, p),
            Rejected::Override(p) => (11, p),
            Rejected::Untyped(p) => (12, p),
            Rejected::Unset(p) => (13, p),
        };
        Answer {
            number,
            place: place as u64,
        }
    }
}

// Numbers 10 to 13, in this order, of an image whose layout holds. A place that was found is the failure, and an Option has no `?` for
// that.
#[tactic(auto, unfolding(order::specs::Rules::answer_of, image::specs::Layout::tested, rules::specs::Numbers::fields_rule, rules::specs::Numbers::override_rule, rules::specs::Numbers::typing_rule, rules::specs::Numbers::setting_rule))]
fn check_rules(image: &Image) -> Result<(), Rejected>
    ensures { checked_numbers result ≡ answer_of (RulesFrom10 image.now.words.now) }
{
    if let Some(p) = class_rules::fields_place(image) {
        return Err(Rejected::Fields(p));
    }
    if let Some(p) = class_rules::override_place(image) {
        return Err(Rejected::Override(p));
    }
    if let Some(p) = typing::untyped_place(image) {
        return Err(Rejected::Untyped(p));
    }
    if let Some(p) = setting::unset_place(image) {
        return Err(Rejected::Unset(p));
    }
    Ok(())
}

// The image check. Any slice of words may be asked.
#[tactic(auto, using(crate::specs::Laws::broken, crate::specs::Laws::passed))]
pub fn check_image(ws: &[u32]) -> Result<(), Rejected>
    ensures { checked_numbers result ≡ answer_of (check_rules ws.now) }
{
    let image = layout::layout_of_image(ws)?;
    check_rules(&image)
}

// The image check's number and place; 0 at 0 where the image is let in. As in `layout`, two arms say more than `map_or_else`.
pub fn check_answer(ws: &[u32]) -> Answer
    ensures { result ≡ answer_of (check_rules ws.now) }
{
    match check_image(ws) {
        Ok(()) => Answer::ACCEPTED,
        Err(r) => Answer::from(r),
    }
}
