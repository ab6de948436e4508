// The questions about one image in files, by the program's arguments.
//     check IMAGE
//     conform IMAGE HEAP INPUTS
//     run IMAGE HEAP INPUTS STEPS DEPTH [OUT]
// The answer is that of a case whose name is the question, without the heap. What is wrong with an argument is
// told as of the line with its number.
ghost use Rattle.std.specs.Prelude.{◌≡◌, ◌≤◌, IfOk};

use crate::questions;
use crate::questions::Limits;
use cases::MOST_WORDS;
use files::MOST_BYTES;
use lines::faults::Fault;
use lines::heads::Question;
use lines::print;
use run::Told;
use std::env::Env;
use std::fs::Files;
use std::io;

// The bytes of the longest image.
const IMAGE_BYTES: usize = 4 * MOST_WORDS;

// The most inputs, and their bytes.
const MOST_INPUTS: usize = 1024;

const INPUT_BYTES: usize = 8 * MOST_INPUTS;

// The deepest limit, and the room that it takes. `refusals` has these figures for itself alone: where they were others here, a room would
// be refused that is too small.
const MOST_DEPTH: u64 = 1024;

const LEVEL_WORDS: usize = 16;

const MORE_WORDS: usize = 160;

const MOST_ROOM: usize = LEVEL_WORDS * MOST_DEPTH as usize + MORE_WORDS;

// What keeps a question from being answered: an argument, by its number, or the output.
#[derive(Drop)]
enum Stop {
    Argument(u64, files::Fault),
    Output(io::Error),
}

impl From<io::Error> for Stop {
    fn from(e: io::Error) -> Stop {
        Stop::Output(e)
    }
}

// What an argument gives.
fn at<T: Drop>(argument: u64, given: Result<T, files::Fault>) -> Result<T, Stop>
    ensures { IfOk result (λ x. given ≡ Ok x) }
{
    given.map_err(|fault| Stop::Argument(argument, fault))
}

// Kept out of `main`, so that the stack has the memory of one of the two ways alone.
#[inline(never)]
pub fn answer(rt: &(impl Env + Files + Print)) -> io::Result<()> {
    match ask(rt) {
        Ok(()) => Ok(()),
        Err(Stop::Argument(argument, fault)) => print::wrong(rt, argument, Fault::at_head(fault)),
        Err(Stop::Output(e)) => Err(e),
    }
}

// Nothing is taken from a heap: each file has fixed memory, and what was read of it is cut off at once. Which question it is, is asked at
// each step, since each has large memory of its own on the stack: one match at the top would hold all of it for every question.
fn ask(rt: &(impl Env + Files + Print)) -> Result<(), Stop> {
    let mut name = [0u8; 8];
    let n = rt.arg(1, &mut name).unwrap_or(0);
    let question = Question::of(&name[..n]);
    if question == Some(Question::Run) {
        at(5, files::number(rt, 5))?;
        at(6, files::number(rt, 6))?;
    }
    let mut space = text::zeros::<u8, IMAGE_BYTES>();
    let mut words = text::zeros::<u32, MOST_WORDS>();
    let n = at(2, files::words(rt, 2, &mut space, &mut words))?;
    let image = &words[..n];
    if question == Some(Question::Check) {
        print::name(rt, b"check")?;
        print::answer(rt, questions::check(image))?;
        return Ok(());
    }
    ask_on(rt, question, image)
}

fn ask_on(
    rt: &(impl Env + Files + Print),
    question: Option<Question>,
    image: &[u32],
) -> Result<(), Stop> {
    let mut space = text::zeros::<u8, MOST_BYTES>();
    let mut words = text::zeros::<u64, MOST_WORDS>();
    let n = at(3, files::words(rt, 3, &mut space, &mut words))?;
    let heap = &mut words[..n];
    let mut space = text::zeros::<u8, INPUT_BYTES>();
    let mut words = text::zeros::<u64, MOST_INPUTS>();
    let n = at(4, files::words(rt, 4, &mut space, &mut words))?;
    let inputs = &words[..n];
    if question == Some(Question::Conform) {
        print::name(rt, b"conform")?;
        print::answer(rt, questions::conformity(image, heap, inputs))?;
        return Ok(());
    }
    run_on(rt, image, heap, inputs)
}

fn run_on(
    rt: &(impl Env + Files + Print),
    image: &[u32],
    heap: &mut [u64],
    inputs: &[u64],
) -> Result<(), Stop> {
    let l = Limits {
        steps: files::number(rt, 5).unwrap_or(0),
        depth: files::number(rt, 6).unwrap_or(0),
    };
    let mut room = text::zeros::<u64, MOST_ROOM>();
    let n = room_words(l.depth);
    let t = questions::told(image, heap, inputs, &mut room[..n], l);
    end(rt, t, heap)
}

// What cannot be kept is an error, and then no answer is written.
fn end(rt: &(impl Env + Files + Print), t: Told, heap: &[u64]) -> Result<(), Stop> {
    if print::FIRST_END <= t.number {
        at(7, files::keep(rt, 7, heap))?;
    }
    print::name(rt, b"run")?;
    questions::ran(rt, t, &[])?;
    Ok(())
}

// The room that a depth asks for. A depth over the limit is refused with any room.
fn room_words(depth: u64) -> usize
    ensures { result ≤ 16544 }
{
    if MOST_DEPTH < depth {
        return MOST_ROOM;
    }
    LEVEL_WORDS * depth as usize + MORE_WORDS
}
