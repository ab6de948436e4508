// What makes a line no case.
ghost use Rattle.std.specs.Prelude.{◌≤◌, length, IfOk};

use crate::heads::{Head, Question};
use crate::parts;
use cases::Line;

const LONGEST_NAME: usize = 64;

const MOST_ROOM: u64 = 131072;

#[derive(Clone, Copy, PartialEq, Eq)]
pub enum Kind {
    NoQuestion,
    NoName,
    LongName,
    // found as the line was read
    Read(cases::Fault),
    // a word of the image that has more than 32 bits
    WideWord,
    // a part that is to be one number
    NotOne,
    LongRoom,
    NoInput,
}

// The number that a fault is told by.
impl From<Kind> for u64 {
    ghost from_gives = { λ _ n. n ≤ 11 };

    fn from(kind: Kind) -> u64 {
        match kind {
            Kind::NoQuestion => 1,
            Kind::NoName => 2,
            Kind::LongName => 3,
            Kind::Read(fault) => fault as u64,
            Kind::WideWord => 8,
            Kind::NotOne => 9,
            Kind::LongRoom => 10,
            Kind::NoInput => 11,
        }
    }
}

// The part counted from 1, and the word in it from 0.
#[derive(Clone, Copy)]
pub struct Fault<K> {
    pub kind: K,
    pub part: usize,
    pub word: usize,
}

impl<K> Fault<K> {
    // A fault that has no place in a line. It is written with 0 and 0, so it has them here.
    pub fn at_head(kind: K) -> Self {
        Fault {
            kind,
            part: 0,
            word: 0,
        }
    }
}

// A line that is a case: what it asks, and how many words its image has.
#[derive(Clone, Copy)]
pub struct Case {
    pub question: Question,
    pub words: usize,
}

// The case that a line is, or the first thing that is wrong with the line.
pub fn case_of(
    line: &Line,
    numbers: &[u64],
    head: Head<'_>,
    words: &mut [u32],
) -> Result<Case, Fault<Kind>>
    ensures { IfOk result (λ c. c.words ≤ length words.old) }
{
    let question = question_of(line, head).map_err(|kind| Fault {
        kind,
        part: line.bar_count,
        word: line.words,
    })?;
    let words = parts::image(line, numbers, words).map_err(|word| Fault {
        kind: Kind::WideWord,
        part: 1,
        word,
    })?;
    singles(question, line, numbers)?;
    Ok(Case { question, words })
}

// In the order in which a line is read.
fn question_of(line: &Line, head: Head<'_>) -> Result<Question, Kind> {
    let question = Question::of(head.question).ok_or(Kind::NoQuestion)?;
    if head.name.is_empty() {
        return Err(Kind::NoName);
    }
    if LONGEST_NAME < head.name.len() {
        return Err(Kind::LongName);
    }
    if !head.more.is_empty() {
        return Err(Kind::Read(cases::Fault::NoBar));
    }
    if let Some(fault) = line.fault {
        return Err(Kind::Read(fault));
    }
    if line.bar_count == question.parts() + 1 {
        return Ok(question);
    }
    Err(Kind::Read(if line.bar_count < 2 {
        cases::Fault::NoBar
    } else {
        cases::Fault::ManyParts
    }))
}

// Of the parts that are one number each, the first is a room.
fn singles(question: Question, line: &Line, numbers: &[u64]) -> Result<(), Fault<Kind>> {
    for k in question.many()..question.parts() {
        if line.part(numbers, k).len() != 1 {
            return Err(Fault {
                kind: Kind::NotOne,
                part: k + 1,
                word: 0,
            });
        }
    }
    let room = question.many();
    if room < question.parts() && MOST_ROOM < parts::single(line, numbers, room) {
        return Err(Fault::at_head(Kind::LongRoom));
    }
    Ok(())
}
