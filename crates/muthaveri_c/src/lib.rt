// What C calls: the three public questions under the names of include/muthaveri.h. A slice is a pointer and a length there.
#![tactic(auto)]

ghost use Rattle.std.specs.Prelude.{◌≡◌};
ghost use Rattle.muthaveri.specs.Answers.{check_answer, conform_answer, RunAnswers};

use muthaveri::MuthaveriAnswer;

// May this image be let in?
#[unsafe(no_mangle)]
pub extern "C" fn muthaveri_check(image: &[u32]) -> MuthaveriAnswer
    ensures { result ≡ check_answer image.now }
{
    muthaveri::muthaveri_check(image)
}

// Do this heap and these inputs fit the image?
#[unsafe(no_mangle)]
pub extern "C" fn muthaveri_conform(image: &[u32], heap: &[u64], inputs: &[u64]) -> MuthaveriAnswer
    ensures { result ≡ conform_answer image.now heap.now inputs.now }
{
    muthaveri::muthaveri_conform(image, heap, inputs)
}

// The run of the image on the heap, with main's inputs, in lent room: at most so many steps, and at most so deep. A refusal changes no
// word; at an end the heap is as the steps left it, and the room is all 0.
#[unsafe(no_mangle)]
pub extern "C" fn muthaveri_run(
    image: &[u32],
    heap: &mut [u64],
    inputs: &[u64],
    room: &mut [u64],
    steps: u64,
    depth: u64,
) -> MuthaveriAnswer
    ensures { RunAnswers image.now heap.old inputs.now room.old steps depth result heap.new room.new }
{
    muthaveri::muthaveri_run(image, heap, inputs, room, steps, depth)
}
