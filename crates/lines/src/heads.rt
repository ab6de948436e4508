// The head of a line: its question and its name.
ghost use Rattle.std.specs.Prelude.{◌≤◌, length, IfOk, IfSome};

use crate::faults::Case;
use crate::{faults, print};
use cases::Line;
use std::io;

// The case that a line is; none where the line is empty, or no case, which is then told. The words of its image
// go into `words`. The name of a case is written, and its answer is to follow.
pub fn case(
    rt: &impl Print,
    line: &Line,
    head: &[u8],
    numbers: &[u64],
    words: &mut [u32],
) -> io::Result<Option<Case>>
    ensures { IfOk result (λ case. IfSome case (λ c. c.words ≤ length words.old)) }
{
    if head.is_empty() && line.bar_count < 2 && line.fault.is_none() {
        return Ok(None);
    }
    let head = split(head);
    match faults::case_of(line, numbers, head, words) {
        Ok(case) => {
            print::name(rt, head.name)?;
            Ok(Some(case))
        }
        Err(fault) => {
            print::wrong(rt, line.number, fault)?;
            Ok(None)
        }
    }
}

// The word that asks, the name behind it, and what is behind both.
#[derive(Clone, Copy)]
pub struct Head<'a> {
    pub question: &'a [u8],
    pub name: &'a [u8],
    pub more: &'a [u8],
}

// A head has no two blanks side by side, and none at its start.
pub fn split(head: &[u8]) -> Head<'_>
    ensures question { length result.question.now ≤ length head.now }
    ensures name { length result.name.now ≤ length head.now }
{
    let (question, rest) = cut(head);
    let (name, more) = cut(rest);
    Head {
        question,
        name,
        more,
    }
}

// What stands before the first blank, and what behind it.
fn cut(bytes: &[u8]) -> (&[u8], &[u8])
    ensures { (length result.0.now ≤ length bytes.now) × (length result.1.now ≤ length bytes.now) }
{
    match bytes.iter().position(|b| *b == b' ') {
        Some(i) => (&bytes[..i], &bytes[i + 1..]),
        None => (bytes, &[]),
    }
}

// What is asked.
#[derive(Clone, Copy, PartialEq, Eq)]
pub enum Question {
    Check,
    Conform,
    Run,
}

impl Question {
    // `FromStr` takes text and would need an error that says no more than None.
    pub fn of(word: &[u8]) -> Option<Question> {
        match word {
            b"check" => Some(Question::Check),
            b"conform" => Some(Question::Conform),
            b"run" => Some(Question::Run),
            _ => None,
        }
    }

    // How many parts it takes, the image first.
    pub fn parts(self) -> usize
        ensures { result ≤ 15 }
    {
        match self {
            Question::Check => 1,
            Question::Conform => 3,
            Question::Run => 6,
        }
    }

    // How many of them may have many numbers. Those behind them are one number each, and the first of these is a room.
    pub fn many(self) -> usize
        ensures { result ≤ 15 }
    {
        match self {
            Question::Check => 1,
            Question::Conform | Question::Run => 3,
        }
    }
}
