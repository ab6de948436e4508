#![tactic(auto)]

// Answers cases from standard input, one a line,
//     check NAME | WORD WORD ..
//     conform NAME | IMAGE WORD .. | HEAP WORD .. | INPUT ..
//     run NAME | IMAGE WORD .. | HEAP WORD .. | INPUT .. | ROOM | STEPS | DEPTH
// with one line each on standard output: the name, the number and the place. The end of a run has the
// steps taken, the value and, behind a bar, the heap's words too. A line that is no case is answered
// by `line N: fault F PART WORD`, and the next one is read as ever; the script `muthaveri` has the words
// for each fault.
// With arguments it answers one question about files instead (`arguments`).
mod arguments;
mod questions;

ghost use Rattle.std.specs.Prelude.{◌≤◌, ◌<◌, length};

use cases::{LentLine, MOST_NUMBERS, MOST_WORDS};
use lines::faults::{Fault, Kind};
use lines::print;
use questions::Memory;
use std::env::{Env, FillError};
use std::io;
use std::io::{Input, Read};

const PIECE: usize = 65536;

// Where the reading stands: the line so far, a piece of the input, how many of its bytes are read and how many
// there are, and whether the input has ended. The piece is lent memory and is read in steps, so the two counts stand beside it.
#[derive(Drop)]
struct Reader<'a> {
    line: LentLine<'a>,
    piece: &'a mut [u8],
    at: usize,
    count: usize,
    is_ended: bool,
    ghost read_fits: { at ≤ count },
    ghost count_fits: { count ≤ length piece.now },
    ghost has_place: { 0 < length piece.now },
}

impl<'a> Reader<'a> {
    // Reads a piece where there is none. The input's end counts as that of a line.
    fn fill(&mut self, rt: &impl Print, input: &mut impl Read) -> io::Result<()> {
        if self.at < self.count {
            return Ok(());
        }
        self.at = 0;
        match input.read(self.piece) {
            Ok(0) => {
                self.piece[0] = b'\n';
                self.count = 1;
                self.is_ended = true;
            }
            Ok(n) => self.count = n,
            Err(_) => {
                print::wrong(rt, self.line.line.number, Fault::at_head(Kind::NoInput))?;
                self.count = 0;
                self.is_ended = true;
            }
        }
        Ok(())
    }

    // Reads on, to the end of the line or of the piece.
    fn read(&mut self, rt: &impl Print, input: &mut impl Read) -> io::Result<()> {
        self.fill(rt, input)?;
        self.at += self.line.read(&self.piece[self.at..self.count]);
        Ok(())
    }
}

// A proved loop has to end, and nothing says that the input does: there are more turns than any run uses up.
fn read_all(
    rt: &impl Print,
    input: &mut impl Read,
    reader: &mut Reader<'_>,
    memory: &mut Memory<'_>,
) -> io::Result<()> {
    for _ in 0..u64::MAX {
        reader.read(rt, input)?;
        if reader.line.line.is_whole {
            questions::answer(rt, &mut reader.line, memory)?;
        }
        if reader.is_ended {
            break;
        }
    }
    Ok(())
}

fn main(rt: HostRuntime) -> io::Result<()> {
    if has_arguments(&rt) {
        return arguments::answer(&rt);
    }
    answer_input(&rt)
}

// Whether there are arguments beside the program's name. The first may be longer than its space.
fn has_arguments(rt: &impl Env) -> bool {
    !matches!(rt.arg(1, &mut [0u8; 1]), Err(FillError::NotPresent))
}

// Kept out of `main`, so that the stack has the memory of one of the two ways alone.
#[inline(never)]
fn answer_input(rt: &(impl Input + Print)) -> io::Result<()> {
    let mut input = rt.reader();
    let mut piece = text::zeros::<u8, PIECE>();
    let mut head = [0u8; 96];
    let mut numbers = text::zeros::<u64, MOST_NUMBERS>();
    let mut words = text::zeros::<u32, MOST_WORDS>();
    let mut inputs = text::zeros::<u64, MOST_WORDS>();
    let mut room = text::zeros::<u64, MOST_WORDS>();
    let mut reader = Reader {
        line: LentLine::new(1, &mut head, &mut numbers),
        piece: &mut piece,
        at: 0,
        count: 0,
        is_ended: false,
    };
    let mut memory = Memory {
        words: &mut words,
        inputs: &mut inputs,
        room: &mut room,
    };
    read_all(rt, &mut input, &mut reader, &mut memory)
}
