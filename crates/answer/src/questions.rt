// The questions. A new one is a variant of `lines::heads::Question` with its word and its parts, an arm in `answer`, and
// its function.
use cases::LentLine;
use lines::heads::Question;
use lines::{heads, parts, print};
use order::Answer;
use run::Told;
use std::io;

// Memory for what has to lie beside the numbers of a line: the image's words, and what is lent beside the heap. Nothing is taken from a
// heap: all of it is fixed memory of `answer_input`.
#[derive(Drop)]
pub struct Memory<'a> {
    pub words: &'a mut [u32],
    pub inputs: &'a mut [u64],
    pub room: &'a mut [u64],
}

// Answers a line that is whole and not empty.
pub fn answer(rt: &impl Print, line: &mut LentLine<'_>, memory: &mut Memory<'_>) -> io::Result<()> {
    let words = &mut *memory.words;
    let inputs = &mut *memory.inputs;
    let room = &mut *memory.room;
    let counts = line.line;
    let head = &line.head[..counts.head_len];
    let Some(case) = heads::case(rt, &counts, head, line.numbers, words)? else {
        return Ok(());
    };
    let image = &words[..case.words];
    match case.question {
        Question::Check => print::answer(rt, check(image)),
        Question::Conform => print::answer(rt, conformity(image, line.part(1), line.part(2))),
        Question::Run => run_in(rt, image, line, inputs, room),
    }
}

// The public questions have long contracts. Where nothing else is called, these cost little.
pub fn check(image: &[u32]) -> Answer {
    image_check::check_answer(image)
}

pub fn conformity(image: &[u32], heap: &[u64], inputs: &[u64]) -> Answer {
    conform::conformity(image, heap, inputs)
}

pub fn told(image: &[u32], heap: &mut [u64], inputs: &[u64], room: &mut [u64], l: Limits) -> Told {
    Told::from(run::run(image, heap, inputs, room, l.steps, l.depth))
}

#[derive(Clone, Copy)]
pub struct Limits {
    pub steps: u64,
    pub depth: u64,
}

fn run_in(
    rt: &impl Print,
    image: &[u32],
    line: &mut LentLine<'_>,
    inputs: &mut [u64],
    room: &mut [u64],
) -> io::Result<()> {
    let n = parts::copy(&line.line, line.numbers, 2, inputs);
    let lent = parts::room(&line.line, line.numbers, room.len());
    let l = Limits {
        steps: parts::single(&line.line, line.numbers, 4),
        depth: parts::single(&line.line, line.numbers, 5),
    };
    let span = line.span(1);
    let heap = &mut line.numbers[span.start..span.end];
    let t = told(image, heap, &inputs[..n], &mut room[..lent], l);
    ran(rt, t, heap)
}

// Writes the answer to a run, and the heap after it.
pub fn ran(rt: &impl Print, t: Told, heap: &[u64]) -> io::Result<()> {
    let answer = Answer {
        number: t.number,
        place: t.place,
    };
    print::ran(rt, answer, t.count, t.value, heap)
}
