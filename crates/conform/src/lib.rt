// The conformity check: layout, fields, heap and inputs, numbers 0 to 10 and 14 to 18.
#![tactic(auto)]

ghost use Rattle.std.specs.Prelude.{◌≡◌};
ghost use Rattle.order.specs.Rules.{answer_of};
ghost use Rattle.rules.specs.Numbers.{conform_rules};
ghost use Rattle.conform.specs.declared.Unfit.TheVariants.{Layout};
ghost use Rattle.conform.specs.Answers.{unfit_numbers, conformed_numbers, data_rules, loaded_rules};

use fits::Heap;
use image::{Breach, Image, MOST_CLASSES};
use order::Answer;
use rows::{TABLE_WORDS, Table};

// Why a heap and inputs do not fit an image: the first breach with its place. A run has other breaches (`refusals::Refusal`), so the two
// are two enums.
#[derive(Clone, Copy)]
pub enum Unfit {
    Layout(Breach),
    Fields(usize),
    HeapLength,
    HeapWord(usize),
    Input(usize),
    HeapValue(usize),
    InputValue(usize),
}

impl From<Breach> for Unfit {
    ghost from_gives = { λ b result. result ≡ Layout b };

    fn from(b: Breach) -> Unfit {
        Unfit::Layout(b)
    }
}

// 14 to 18, in this order. `refusals::judge` tests the first three too; shared, they would take an enum of their own and a `From` for each
// of the two.
#[tactic(auto, using(crate::specs::Laws::length_broken, crate::specs::Laws::length_passed, heap::specs::WordLaws::inputs_count), unfolding(order::specs::Rules::answer_of, crate::specs::Answers::data_rules, rules::specs::Numbers::heap_length_rule, rules::specs::Numbers::heap_word_rule, rules::specs::Numbers::input_rule, rules::specs::Numbers::heap_rule, rules::specs::Numbers::input_type_rule, image::specs::Layout::tested))]
fn data_answer(table: &Table, heap: &[u64], inputs: &[u64]) -> Result<(), Unfit>
    ensures { conformed_numbers result ≡ answer_of (data_rules table.now.image.words.now heap.now inputs.now) }
{
    if !heap::heap_length_holds(heap.len()) {
        return Err(Unfit::HeapLength);
    }
    if let Some(p) = heap::heap_word_place(table, heap) {
        return Err(Unfit::HeapWord(p));
    }
    if let Some(p) = heap::input_place(&table.image, inputs) {
        return Err(Unfit::Input(p));
    }
    let heap = Heap {
        table: *table,
        words: heap,
    };
    if let Some(p) = heap.word_place() {
        return Err(Unfit::HeapValue(p));
    }
    if let Some(p) = heap.input_place(inputs) {
        return Err(Unfit::InputValue(p));
    }
    Ok(())
}

// 10 and then the rest, of an image whose layout holds.
#[tactic(auto, unfolding(order::specs::Rules::answer_of, crate::specs::Answers::loaded_rules, rules::specs::Numbers::fields_rule))]
fn loaded_answer(image: &Image, heap: &[u64], inputs: &[u64]) -> Result<(), Unfit>
    ensures { conformed_numbers result ≡ answer_of (loaded_rules image.now.words.now heap.now inputs.now) }
{
    if let Some(p) = class_rules::fields_place(image) {
        return Err(Unfit::Fields(p));
    }
    let mut counts: [usize; MOST_CLASSES] = [0; MOST_CLASSES];
    let mut types: [u32; TABLE_WORDS] = [0; TABLE_WORDS];
    rows::fill_rows(image, &mut counts, &mut types);
    let table = Table {
        image: *image,
        counts: &counts,
        types: &types,
    };
    data_answer(&table, heap, inputs)
}

// Whether a heap and main's inputs fit an image, or the first breach. Any slices may be asked.
#[tactic(auto, using(crate::specs::Laws::layout_broken, crate::specs::Laws::layout_sound))]
pub fn check_conformity(image: &[u32], heap: &[u64], inputs: &[u64]) -> Result<(), Unfit>
    ensures { conformed_numbers result ≡ answer_of (conform_rules image.now heap.now inputs.now) }
{
    let image = layout::layout_of_image(image)?;
    loaded_answer(&image, heap, inputs)
}

// The number and place of a breach.
impl From<Unfit> for Answer {
    ghost from_gives = { λ u result. result ≡ unfit_numbers u };

    fn from(u: Unfit) -> Answer {
        let (number, place) = match u {
            Unfit::Layout(b) => return Answer::from(b),
            Unfit::Fields(p) => (10, p),
            Unfit::HeapLength => (14, 0),
            Unfit::HeapWord(p) => (15, p),
            Unfit::Input(p) => (16, p),
            Unfit::HeapValue(p) => (17, p),
            Unfit::InputValue(p) => (18, p),
        };
        Answer {
            number,
            place: place as u64,
        }
    }
}

// The number and place that a caller gets; 0 at 0 where all conforms. As in `layout`, two arms say more than `map_or_else`.
pub fn conformity(image: &[u32], heap: &[u64], inputs: &[u64]) -> Answer
    ensures { result ≡ answer_of (conform_rules image.now heap.now inputs.now) }
{
    match check_conformity(image, heap, inputs) {
        Ok(()) => Answer::ACCEPTED,
        Err(u) => Answer::from(u),
    }
}
