// What is written for a line: an answer, or what is wrong with it. Numbers are gathered before they are
// written, since a heap has many.
ghost use Rattle.std.specs.Prelude.{◌≡◌, ◌≤◌, OnOk};

use crate::faults::Fault;
use order::Answer;
use std::io;

// The number of the first end of a run, and of the last that has a value. A lower one is a refusal. This crate knows no run: it is proved
// while the questions are, and gets the numbers that C gets.
pub const FIRST_END: u64 = 30;

const LAST_WITH_VALUE: u64 = 31;

// The bytes of a blank and the longest number.
const LONGEST: usize = 21;

// Bytes that are not written yet. Nothing is taken from a heap, so how many they are stands beside their memory.
#[derive(Drop)]
struct Gathered {
    bytes: [u8; 4096],
    len: usize,
    ghost fits: { len ≤ 4096 },
}

impl Gathered {
    fn write(&mut self, rt: &impl Print) -> io::Result<()>
        ensures { OnOk result (self.new.len ≡ 0) }
    {
        rt.write_all(&self.bytes[..self.len])?;
        self.len = 0;
        Ok(())
    }

    // Puts a blank and a number behind the others.
    fn put(&mut self, rt: &impl Print, w: u64) -> io::Result<()> {
        if self.bytes.len() - self.len < LONGEST {
            self.write(rt)?;
        }
        let mut number = itoa::Buffer::new();
        let digits = number.format(w).as_bytes();
        let from = self.len + 1;
        let end = from + digits.len();
        self.bytes[self.len] = b' ';
        self.bytes[from..end].copy_from_slice(digits);
        self.len = end;
        Ok(())
    }
}

// The numbers, with a blank before each.
fn words(rt: &impl Print, ws: &[u64]) -> io::Result<()> {
    let mut gathered = Gathered {
        bytes: [0; 4096],
        len: 0,
    };
    for w in ws {
        gathered.put(rt, *w)?;
    }
    gathered.write(rt)
}

// The name of a case, before its answer.
pub fn name(rt: &impl Print, bytes: &[u8]) -> io::Result<()> {
    rt.write_all(bytes)
}

pub fn answer(rt: &impl Print, a: Answer) -> io::Result<()> {
    words(rt, &[a.number, a.place])?;
    rt.write_all(b"\n")
}

// The answer to a run, the steps taken and the value, and the heap after it.
pub fn ran(rt: &impl Print, a: Answer, count: u64, value: u64, heap: &[u64]) -> io::Result<()> {
    words(rt, &[a.number, a.place])?;
    if FIRST_END <= a.number {
        words(rt, &[count])?;
        if LAST_WITH_VALUE < a.number {
            rt.write_all(b" -")?;
        } else {
            words(rt, &[value])?;
        }
        rt.write_all(b" |")?;
        words(rt, heap)?;
    }
    rt.write_all(b"\n")
}

// A line that is no case, and where it is wrong.
pub fn wrong<K: Copy + Into<u64>>(rt: &impl Print, line: u64, fault: Fault<K>) -> io::Result<()> {
    rt.write_all(b"line")?;
    words(rt, &[line])?;
    rt.write_all(b": fault")?;
    words(
        rt,
        &[fault.kind.into(), fault.part as u64, fault.word as u64],
    )?;
    rt.write_all(b"\n")
}
