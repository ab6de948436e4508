// What stands against a run whose image has a layout: numbers 14 to 16, 19 and 20.
#![tactic(auto)]

ghost use Rattle.std.specs.Prelude.{◌≡◌, ◌*◌, ◌<◌};
ghost use Rattle.refusals.specs.declared.Refusal.TheVariants.{Layout};
ghost use Rattle.refusals.specs.Refusals.{refusal_numbers};
ghost use Rattle.refusals.specs.Judged.{Judges};

use image::Breach;
use order::Answer;
use rows::Table;

// The bounds of a depth limit, and the room that one asks for.
const MOST_DEPTH: u64 = 1024;

const LEVEL_WORDS: usize = 16;

const MORE_WORDS: usize = 160;

// What a run is refused for, numbers 1 to 10, 14 to 16, 19 and 20.
#[derive(Clone, Copy)]
pub enum Refusal {
    Layout(Breach),
    Fields(usize),
    HeapLength,
    HeapWord(usize),
    Input(usize),
    Depth,
    Room,
}

impl From<Breach> for Refusal {
    ghost from_gives = { λ b result. result ≡ Layout b };

    fn from(b: Breach) -> Refusal {
        Refusal::Layout(b)
    }
}

// What stands against the run of an image whose layout and fields are in order: 14, 15, 16, 19 and 20, in this order. `conform` says why
// the first three are not shared.
#[tactic(auto, using(crate::specs::JudgedLaws::length_broken, crate::specs::JudgedLaws::words_broken, crate::specs::JudgedLaws::inputs_broken, crate::specs::JudgedLaws::depth_broken, crate::specs::JudgedLaws::room_broken, crate::specs::JudgedLaws::all_passed))]
pub fn judge(
    table: &Table,
    heap: &[u64],
    inputs: &[u64],
    room: usize,
    depth: u64,
) -> Result<(), Refusal>
    ensures { Judges table.now.image.words.now heap.now inputs.now room depth result }
{
    if !heap::heap_length_holds(heap.len()) {
        return Err(Refusal::HeapLength);
    }
    if let Some(p) = heap::heap_word_place(table, heap) {
        return Err(Refusal::HeapWord(p));
    }
    if let Some(p) = heap::input_place(&table.image, inputs) {
        return Err(Refusal::Input(p));
    }
    if !(1..=MOST_DEPTH).contains(&depth) {
        return Err(Refusal::Depth);
    }
    if room < LEVEL_WORDS * depth as usize + MORE_WORDS {
        return Err(Refusal::Room);
    }
    Ok(())
}

// The number and place of a refusal.
impl From<Refusal> for Answer {
    ghost from_gives = { λ f result. result ≡ refusal_numbers f };

    fn from(f: Refusal) -> Answer {
        let (number, place) = match f {
            Refusal::Layout(b) => return Answer::from(b),
            Refusal::Fields(p) => (10, p),
            Refusal::HeapLength => (14, 0),
            Refusal::HeapWord(p) => (15, p),
            Refusal::Input(p) => (16, p),
            Refusal::Depth => (19, 0),
            Refusal::Room => (20, 0),
        };
        Answer {
            number,
            place: place as u64,
        }
    }
}
