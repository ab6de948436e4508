// A line of text that is a case: `QUESTION NAME | NUMBER .. | NUMBER ..`, read byte by byte. The head, which
// is all before the first bar, and the numbers of all parts go into memory that the caller lends. Nothing
// here knows which questions there are, or what parts each takes.
#![tactic(auto)]

ghost use Rattle.std.specs.Prelude.{◌≡◌, ◌+◌, ◌<◌, ◌≤◌, length, take};

use std::ops::Range;
use text::NotFed;

// What makes a line no case, with the number that it is told by. The place is the part that is read, and the
// number in it.
#[derive(Clone, Copy, PartialEq, Eq)]
pub enum Fault {
    NoBar = 4,
    NoNumber = 5,
    ManyNumbers = 6,
    ManyParts = 7,
}

// A part has at most so many numbers.
pub const MOST_WORDS: usize = 131072;

// The numbers of a line: a full image, as many words behind it, and a few numbers more.
pub const MOST_NUMBERS: usize = 262160;

// A line so far. The line's end counts as a bar, so that part k has the numbers from bar k to bar k + 1.
#[derive(Clone, Copy)]
pub struct Line {
    // the line's own number, from 1
    pub number: u64,
    pub fault: Option<Fault>,
    // the end was read
    pub is_whole: bool,
    // how many bytes the head has
    pub head_len: usize,
    // how many numbers there are, and how many of them are in the part that is read
    pub count: usize,
    pub words: usize,
    // how many numbers stand before each bar, and how many bars there are
    pub bars: [usize; 16],
    pub bar_count: usize,
    // in a word of a part, the number that its digits are
    pub value: Option<u64>,
}

impl Line {
    // The places of the numbers of part k, of so many. There are none where its bars are not in order.
    pub fn span(&self, k: usize, most: usize) -> Range<usize>
        ensures { (result.start ≤ result.end) × (result.end ≤ most) }
    {
        if k < 15 {
            let from = self.bars[k];
            let to = self.bars[k + 1];
            if from <= to && to <= most {
                return from..to;
            }
        }
        0..0
    }

    // The numbers of part k, among all that there are.
    pub fn part<'a>(&self, numbers: &'a [u64], k: usize) -> &'a [u64]
        ensures { length result.now ≤ length numbers.now }
    {
        let span = self.span(k, numbers.len());
        &numbers[span.start..span.end]
    }
}

// A line so far, with the memory that its head and its numbers go into. The program takes nothing from a heap, so it
// is lent, and how much of it is filled stands in the line.
#[derive(Drop)]
pub struct LentLine<'a> {
    pub line: Line,
    pub head: &'a mut [u8],
    pub numbers: &'a mut [u64],
    ghost head_fits: { line.head_len ≤ length head.now },
    ghost numbers_fit: { line.count ≤ length numbers.now },
    ghost bars_fit: { line.bar_count ≤ 16 },
}

fn is_bar(b: u8) -> bool {
    (b == b'|') | (b == b'\n')
}

impl<'a> LentLine<'a> {
    ghost use Rattle.cases.specs.Kept.{Keeps};

    // The line with a number, before its first byte.
    pub fn new(number: u64, head: &'a mut [u8], numbers: &'a mut [u64]) -> Self
        ensures { (result.line.head_len ≡ 0) × (result.line.count ≡ 0) × (result.line.bar_count ≡ 0) }
    {
        LentLine {
            line: Line {
                number,
                fault: None,
                is_whole: false,
                head_len: 0,
                count: 0,
                words: 0,
                bars: [0; 16],
                bar_count: 0,
                value: None,
            },
            head,
            numbers,
        }
    }

    // Reads on, to the line's end or the piece's: how many bytes of the piece these are. Behind a line that is
    // whole the next begins.
    pub fn read(&mut self, piece: &[u8]) -> usize
        ensures read { result ≤ length piece.now }
        ensures lent { Keeps self.old self.new }
    {
        if self.line.is_whole {
            self.next();
        }
        for (i, b) in piece.iter().enumerate() {
            self.step(*b);
            if self.line.is_whole {
                return i + 1;
            }
        }
        piece.len()
    }

    fn next(&mut self)
        ensures { Keeps self.old self.new }
    {
        self.line.number = self.line.number.wrapping_add(1);
        self.line.fault = None;
        self.line.is_whole = false;
        self.line.head_len = 0;
        self.line.count = 0;
        self.line.words = 0;
        self.line.bar_count = 0;
        self.line.value = None;
    }

    // Where the line stands is its count of bars, so the choice is a test of it and no state of its own.
    fn step(&mut self, b: u8)
        ensures { Keeps self.old self.new }
    {
        self.line.is_whole = b == b'\n';
        if self.line.fault.is_some() {
            return;
        }
        let read = if self.line.bar_count == 0 {
            self.in_head(b)
        } else {
            self.in_part(b)
        };
        self.line.fault = read.err();
    }

    // In the head, blanks count as one, and those at its start are left out.
    fn in_head(&mut self, b: u8) -> Result<(), Fault>
        ensures { Keeps self.old self.new }
    {
        if is_bar(b) {
            return self.mark();
        }
        let n = self.line.head_len;
        let is_blank = text::is_blank(b);
        if is_blank && (n == 0 || self.head[n - 1] == b' ') {
            return Ok(());
        }
        if self.head.len() <= n {
            return Err(Fault::NoBar);
        }
        self.head[n] = if is_blank { b' ' } else { b };
        self.line.head_len = n + 1;
        Ok(())
    }

    // A bar, or the line's end.
    fn mark(&mut self) -> Result<(), Fault>
        ensures { Keeps self.old self.new }
    {
        if 16 <= self.line.bar_count {
            return Err(Fault::ManyParts);
        }
        self.line.bars[self.line.bar_count] = self.line.count;
        self.line.bar_count += 1;
        self.line.words = 0;
        self.line.value = None;
        Ok(())
    }

    fn in_part(&mut self, b: u8) -> Result<(), Fault>
        ensures { Keeps self.old self.new }
    {
        match text::feed(self.line.value.unwrap_or(0), b) {
            Ok(v) => {
                self.line.value = Some(v);
                Ok(())
            }
            Err(NotFed::NoDigit) => self.behind(b),
            Err(NotFed::TooLarge) => Err(Fault::NoNumber),
        }
    }

    // The byte behind a word, or between words. A part that has too many numbers ends at its bar as well.
    fn behind(&mut self, b: u8) -> Result<(), Fault>
        ensures { Keeps self.old self.new }
    {
        if is_bar(b) {
            let put = self.put();
            self.mark()?;
            return put;
        }
        if text::is_blank(b) {
            return self.put();
        }
        Err(Fault::NoNumber)
    }

    // Keeps the number that a word is.
    fn put(&mut self) -> Result<(), Fault>
        ensures { Keeps self.old self.new }
    {
        let Some(v) = self.line.value else {
            return Ok(());
        };
        if MOST_WORDS <= self.line.words || self.numbers.len() <= self.line.count {
            return Err(Fault::ManyNumbers);
        }
        self.numbers[self.line.count] = v;
        self.line.count += 1;
        self.line.words += 1;
        self.line.value = None;
        Ok(())
    }

    pub fn head(&self) -> &[u8]
        ensures { result.now ≡ take self.now.line.head_len self.now.head.now }
    {
        &self.head[..self.line.head_len]
    }

    // The same of its own numbers.
    pub fn span(&self, k: usize) -> Range<usize>
        ensures { (result.start ≤ result.end) × (result.end ≤ length self.now.numbers.now) }
    {
        self.line.span(k, self.numbers.len())
    }

    pub fn part(&self, k: usize) -> &[u64]
        ensures { length result.now ≤ length self.now.numbers.now }
    {
        self.line.part(self.numbers, k)
    }
}
