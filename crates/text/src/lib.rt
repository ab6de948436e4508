// What the programs share: words from bytes, decimal numbers from digits, blanks, and memory.
#![tactic(auto)]

ghost use Rattle.std.specs.Prelude.{◌≡◌, ℕ, List, ◌+◌, ◌*◌, ◌/◌, ◌≤◌, ◌<◌, min, length};
ghost use Rattle.text.specs.Words.{Counts, First, word_at, wide_at};
ghost use Rattle.text.specs.Blanks.{is_blank};
ghost use Rattle.text.specs.Decimal.{fed_of};
ghost use Rattle.std.proofs.Common.{rules};

// A word of so many bytes, little end first.
pub trait Word: Copy {
    ghost BYTES: { ℕ };

    // word k of a list of bytes
    ghost word_of: { List ℕ → ℕ → Self };

    const BYTES: usize;

    fn at(bytes: &[u8], k: usize) -> Self
        requires { BYTES * k + BYTES ≤ length bytes.now }
        ensures { result ≡ word_of bytes.now k };

    ghost not_empty: { 0 < BYTES };
}

impl Word for u32 {
    ghost BYTES = { 4 };

    ghost word_of = { word_at };

    const BYTES: usize = 4;

    fn at(bytes: &[u8], k: usize) -> u32 {
        u32::from_le_bytes(bytes.as_chunks().0[k])
    }

    ghost not_empty = { Prim.search rules };
}

impl Word for u64 {
    ghost BYTES = { 8 };

    ghost word_of = { wide_at };

    const BYTES: usize = 8;

    fn at(bytes: &[u8], k: usize) -> u64 {
        u64::from_le_bytes(bytes.as_chunks().0[k])
    }

    ghost not_empty = { Prim.search rules };
}

// Puts the whole words of `bytes` at the start of `out`, as many as it has room for: how many that is. The memory is
// lent, since nothing is taken from a heap.
pub fn words<W: Word>(bytes: &[u8], out: &mut [W]) -> usize
    ensures count { Counts result out.new }
    ensures all { result ≡ min (length bytes.now / W.BYTES) (length out.old) }
    ensures words { First result (W.word_of bytes.now) out.new }
{
    let n = (bytes.len() / W::BYTES).min(out.len());
    for k in 0..n {
        out[k] = W::at(bytes, k);
    }
    n
}

// Space, tab, and the carriage return that may stand before a line's end.
pub fn is_blank(b: u8) -> bool
    ensures { result ≡ is_blank b }
{
    (b == 32) | (b == 9) | (b == 13)
}

// Why a byte adds no digit to the decimal number before it.
#[derive(Clone, Copy, PartialEq, Eq)]
pub enum NotFed {
    NoDigit,
    TooLarge,
}

// The number n with one digit more, where the byte is a digit and the number is one of 64 bits.
pub fn feed(n: u64, b: u8) -> Result<u64, NotFed>
    ensures { result ≡ fed_of n b }
{
    if !b.is_ascii_digit() {
        return Err(NotFed::NoDigit);
    }
    let tens = n.checked_mul(10).ok_or(NotFed::TooLarge)?;
    tens.checked_add((b - 48) as u64).ok_or(NotFed::TooLarge)
}

// Memory for so many elements. The contract spares the prover to count the zeros.
pub fn zeros<T: Copy + Default, const N: usize>() -> [T; N]
    ensures { N ≡ length result }
{
    [T::default(); N]
}
