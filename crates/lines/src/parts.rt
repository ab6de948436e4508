// The parts of a line, as the questions take them.
ghost use Rattle.std.specs.Prelude.{◌≤◌, ◌<◌, length, IfOk, IfErr};

use cases::Line;

// Puts the words of the image at the start of `words`: how many they are, or the place of the first one that has
// more than 32 bits or no room. The memory is lent, since nothing is taken from a heap.
pub fn image(line: &Line, numbers: &[u64], words: &mut [u32]) -> Result<usize, usize>
    ensures count { IfOk result (λ n. n ≤ length words.old) }
    ensures place { IfErr result (λ n. n ≤ length words.old) }
{
    let part = line.part(numbers, 0);
    let n = part.len().min(words.len());
    for k in 0..n {
        let Ok(w) = u32::try_from(part[k]) else {
            return Err(k);
        };
        words[k] = w;
    }
    if n < part.len() { Err(n) } else { Ok(n) }
}

// The number that a part is. `faults::singles` sees that it has one.
pub fn single(line: &Line, numbers: &[u64], k: usize) -> u64 {
    line.part(numbers, k).first().copied().unwrap_or(0)
}

// So many words of room as part 3 says, or as there are.
pub fn room(line: &Line, numbers: &[u64], most: usize) -> usize
    ensures { result ≤ most }
{
    single(line, numbers, 3).min(most as u64) as usize
}

// Puts the numbers of a part at the start of `out`: how many they are. The heap is lent to be written, and
// what stands beside it cannot be lent at the same time.
pub fn copy(line: &Line, numbers: &[u64], k: usize, out: &mut [u64]) -> usize
    ensures { result ≤ length out.old }
{
    let part = line.part(numbers, k);
    let n = part.len().min(out.len());
    out[..n].copy_from_slice(&part[..n]);
    n
}
