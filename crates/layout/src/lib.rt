// The layout check: the first breach among the numbers 1 to 9, or an image that the layers above may trust.
#![tactic(auto)]

ghost use Rattle.std.specs.Prelude.{◌≡◌, IfOk};
ghost use Rattle.order.specs.Rules.{answer_of};
ghost use Rattle.image.specs.Layout.{record_rules, layout_rules, laid_numbers, Brings};
ghost use Rattle.image.specs.Views.{laid};

use image::{Breach, Image, Sections};
use order::Answer;

// Numbers 4 to 9, in this order. A place that was found is the failure here, and an Option has no `?` for that.
#[tactic(auto, unfolding(order::specs::Rules::answer_of, image::specs::Layout::record_rules, image::specs::Layout::class_rule, image::specs::Layout::field_rule, image::specs::Layout::method_rule, image::specs::Layout::type_rule, image::specs::Layout::node_rule, image::specs::Layout::body_rule))]
fn records<'a>(sections: &Sections<'a>) -> Result<Image<'a>, Breach>
    ensures numbers { laid_numbers (laid result) ≡ answer_of (record_rules sections.now.words.now) }
    ensures brings { Brings sections.now.words.now (laid result) }
    ensures words { IfOk result (λ image. image.words.now ≡ sections.now.words.now) }
{
    if let Some(p) = tables::class_place(sections) {
        return Err(Breach::ClassRecord(p));
    }
    if let Some(p) = tables::field_place(sections) {
        return Err(Breach::FieldRecord(p));
    }
    if let Some(p) = tables::method_place(sections) {
        return Err(Breach::MethodRecord(p));
    }
    if let Some(p) = tables::type_place(sections) {
        return Err(Breach::TypeWord(p));
    }
    if let Some(p) = nodes::node_place(sections) {
        return Err(Breach::NodeRecord(p));
    }
    if let Some(p) = nodes::body_place(sections) {
        return Err(Breach::Bodies(p));
    }
    Ok(Image {
        words: sections.words,
        layout: sections.layout,
    })
}

// The first breach of an image's layout, or the image. Any slice of words may be asked.
#[tactic(auto, using(crate::specs::Laws::ceilings, crate::specs::Laws::format_broken, crate::specs::Laws::format_passed, crate::specs::Laws::long_enough, trailer::specs::Shape::shape, trailer::specs::Shape::small), unfolding(order::specs::Rules::answer_of, image::specs::Layout::layout_rules, image::specs::Layout::format_rule, image::specs::Layout::trailer_rule, image::specs::Layout::ceiling_rule, image::specs::Layout::tested))]
pub fn layout_of_image<'a>(ws: &'a [u32]) -> Result<Image<'a>, Breach>
    ensures numbers { laid_numbers (laid result) ≡ answer_of (layout_rules ws.now) }
    ensures brings { Brings ws.now (laid result) }
    ensures words { IfOk result (λ image. image.words.now ≡ ws.now) }
{
    if !trailer::format_holds(ws) {
        return Err(Breach::Format);
    }
    if let Some(p) = trailer::trailer_place(ws) {
        return Err(Breach::Trailer(p));
    }
    let layout = trailer::layout_of(ws);
    if let Some(p) = trailer::ceiling_place(layout) {
        return Err(Breach::Ceiling(p));
    }
    records(&Sections { words: ws, layout })
}

// The number and place that a caller gets; 0 at 0 where the layout holds. Two arms that name both answers say more than `map_or_else`.
pub fn check_layout(ws: &[u32]) -> Answer
    ensures { result ≡ answer_of (layout_rules ws.now) }
{
    match layout_of_image(ws) {
        Ok(_) => Answer::ACCEPTED,
        Err(b) => Answer::from(b),
    }
}
