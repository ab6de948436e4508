// The three public questions: any image, heap, inputs, room and limits may be asked, and four numbers come back. The crate `muthaveri_c`
// hands them out to C.
#![tactic(auto)]

ghost use Rattle.std.specs.Prelude.{◌≡◌, length};
ghost use Rattle.muthaveri.specs.Answers.{of_answer, of_told, check_answer, conform_answer, RunAnswers};

use order::Answer;
use run::Told;

// The paper's number and place. Of a run that was not refused also the steps that it took, and the word of the value or address that its
// end carries. Where there is no such count or word, it is 0. It is `run::Told` in the form that C sees: the header names it, and `run`
// knows nothing of C.
#[repr(C)]
#[derive(Clone, Copy)]
pub struct MuthaveriAnswer {
    pub number: u64,
    pub place: u64,
    pub count: u64,
    pub value: u64,
}

// A number and a place, with no count and no word.
impl From<Answer> for MuthaveriAnswer {
    ghost from_gives = { λ a result. result ≡ of_answer a };

    fn from(a: Answer) -> MuthaveriAnswer {
        MuthaveriAnswer {
            number: a.number,
            place: a.place,
            count: 0,
            value: 0,
        }
    }
}

// The same four numbers.
impl From<Told> for MuthaveriAnswer {
    ghost from_gives = { λ t result. result ≡ of_told t };

    fn from(t: Told) -> MuthaveriAnswer {
        MuthaveriAnswer {
            number: t.number,
            place: t.place,
            count: t.count,
            value: t.value,
        }
    }
}

// May this image be let in?
pub fn muthaveri_check(image: &[u32]) -> MuthaveriAnswer
    ensures { result ≡ check_answer image.now }
{
    MuthaveriAnswer::from(image_check::check_answer(image))
}

// Do this heap and these inputs fit the image?
pub fn muthaveri_conform(image: &[u32], heap: &[u64], inputs: &[u64]) -> MuthaveriAnswer
    ensures { result ≡ conform_answer image.now heap.now inputs.now }
{
    MuthaveriAnswer::from(conform::conformity(image, heap, inputs))
}

// The run of the image on the heap, with main's inputs, in lent room: at most so many steps, and at most so deep. A refusal changes no
// word; at an end the heap is as the steps left it, and the room is all 0.
pub fn muthaveri_run(
    image: &[u32],
    heap: &mut [u64],
    inputs: &[u64],
    room: &mut [u64],
    steps: u64,
    depth: u64,
) -> MuthaveriAnswer
    ensures { RunAnswers image.now heap.old inputs.now room.old steps depth result heap.new room.new }
{
    let told = Told::from(run::run(image, heap, inputs, room, steps, depth));
    MuthaveriAnswer::from(told)
}
