// Files of words, little end first, and decimal numbers, each by the argument of the program that names it. What
// goes wrong is told by number; the script `muthaveri` has the words.
#![tactic(auto)]

ghost use Rattle.std.specs.Prelude.{◌≡◌, ◌+◌, ◌*◌, ◌≤◌, ◌<◌, length, IfOk, IfErr, IfSome, ◌⊎◌};
ghost use Rattle.text.specs.Words.{Counts};
ghost use Rattle.files.specs.declared.Fault.TheVariants.{NoArgument, NotWritten, NameTaken, NoNumber};

use std::env::{Env, FillError};
use std::fs::{Files, OpenFile, OpenOptions};
use std::io::{ErrorKind, Read, Write};
use std::{fs, io, str};
use text::{NotFed, Word};

// What goes wrong, with the number that it is told by.
#[derive(Clone, Copy, PartialEq, Eq)]
pub enum Fault {
    // An argument that is missing, too long, or empty where it names OUT.
    NoArgument = 1,
    NoFile = 2,
    NotAllowed = 3,
    NotOpened = 4,
    NotRead = 5,
    TooLong = 6,
    // The length is no multiple of a word's.
    NoMultiple = 7,
    NotWritten = 8,
    // The name that the file has until it is whole belongs to another.
    NameTaken = 9,
    NoNumber = 10,
}

impl From<Fault> for u64 {
    ghost from_gives = { λ _ n. (1 ≤ n) × (n ≤ 10) };

    fn from(fault: Fault) -> u64 {
        fault as u64
    }
}

impl From<NotFed> for Fault {
    ghost from_gives = { λ _ e. e ≡ NoNumber };

    fn from(_why: NotFed) -> Fault {
        Fault::NoNumber
    }
}

// The system's number for an operation that is not permitted.
const EPERM: i32 = 1;

// The bytes of a file of most words.
pub const MOST_BYTES: usize = 1048576;

// The longest name of a file.
const LONGEST_NAME: usize = 4096;

// The words of a file: of an image, of a heap, or inputs. How many words are at the start of the memory for them
// then. A file that has more bytes than there is space for is too long. The memory is lent, since nothing is taken from a heap.
pub fn words<W: Word>(
    rt: &(impl Env + Files),
    argument: usize,
    space: &mut [u8],
    words: &mut [W],
) -> Result<usize, Fault>
    ensures { IfOk result (λ n. Counts n words.new) }
{
    let n = take(rt, argument, space, W::BYTES)?;
    Ok(text::words(&space[..n], words))
}

// The bytes of a file of words of so many bytes.
fn take(
    rt: &(impl Env + Files),
    argument: usize,
    space: &mut [u8],
    width: usize,
) -> Result<usize, Fault>
    requires { 0 < width }
    ensures { IfOk result (λ n. Counts n space.new) }
{
    let mut path = text::zeros::<u8, LONGEST_NAME>();
    let Ok(n) = rt.arg(argument, &mut path) else {
        return Err(Fault::NoArgument);
    };
    // a path of std is text
    let Ok(path) = str::from_utf8(&path[..n]) else {
        return Err(Fault::NotOpened);
    };
    match fs::open(rt, path) {
        Ok(file) => read(file, space, width),
        Err(e) => Err(not_opened(&e)),
    }
}

// std has one kind for EACCES and EPERM, and only the first says that the file may not be read. A kind alone does not say what was done, so
// neither this function nor `not_made` is a `From`.
fn not_opened(e: &io::Error) -> Fault {
    match e.kind() {
        ErrorKind::NotFound => Fault::NoFile,
        ErrorKind::PermissionDenied if e.raw_os_error() != Some(EPERM) => Fault::NotAllowed,
        _ => Fault::NotOpened,
    }
}

// One more read shows whether the file ends where the reading did, goes on, or cannot be read.
fn read<F: Read + Drop>(mut file: F, space: &mut [u8], width: usize) -> Result<usize, Fault>
    requires { 0 < width }
    ensures { IfOk result (λ n. Counts n space.new) }
{
    let count = fill(&mut file, space);
    match file.read(&mut [0u8; 1]) {
        Err(_) => Err(Fault::NotRead),
        Ok(0) if count % width == 0 => Ok(count),
        Ok(0) => Err(Fault::NoMultiple),
        Ok(_) => Err(Fault::TooLong),
    }
}

// Reads until the space is full, the file ends, or a read fails: how many bytes are at its start then.
fn fill(file: &mut impl Read, space: &mut [u8]) -> usize
    ensures { Counts result space.new }
{
    let mut done = 0;
    while done < space.len() {
        let n = file.read(&mut space[done..]).unwrap_or(0);
        if n == 0 {
            break;
        }
        done += n;
    }
    done
}

pub fn number(rt: &impl Env, argument: usize) -> Result<u64, Fault>
    ensures { IfErr result (λ e. e ≡ Fault.NoNumber) }
{
    let mut digits = text::zeros::<u8, LONGEST_NAME>();
    match rt.arg(argument, &mut digits) {
        Ok(n) => number_of(&digits[..n]),
        Err(_) => Err(Fault::NoNumber),
    }
}

// `parse` would take a sign, too.
fn number_of(digits: &[u8]) -> Result<u64, Fault>
    ensures { IfErr result (λ e. e ≡ Fault.NoNumber) }
{
    if digits.is_empty() {
        return Err(Fault::NoNumber);
    }
    let mut number = 0;
    for b in digits {
        number = text::feed(number, *b)?;
    }
    Ok(number)
}

// Writes the words to a new file beside the one that an argument names, and gives that its name once it is whole.
// Where there is no such argument, nothing is to be kept.
pub fn keep(rt: &(impl Env + Files), argument: usize, words: &[u64]) -> Result<(), Fault>
    ensures { IfErr result (λ e. (e ≡ Fault.NoArgument) ⊎ (e ≡ Fault.NameTaken) ⊎ (e ≡ Fault.NotWritten)) }
{
    let mut path = text::zeros::<u8, LONGEST_NAME>();
    match rt.arg(argument, &mut path) {
        Ok(n) => keep_at(rt, &path[..n], words),
        Err(FillError::NotPresent) => Ok(()),
        Err(FillError::TooLong) => Err(Fault::NoArgument),
    }
}

fn keep_at(rt: &impl Files, path: &[u8], words: &[u64]) -> Result<(), Fault>
    ensures { IfErr result (λ e. (e ≡ Fault.NoArgument) ⊎ (e ≡ Fault.NameTaken) ⊎ (e ≡ Fault.NotWritten)) }
{
    if path.is_empty() {
        return Err(Fault::NoArgument);
    }
    let mut beside = text::zeros::<u8, LONGEST_NAME>();
    let Some(b) = name_beside(path, &mut beside) else {
        return Err(Fault::NotWritten);
    };
    // a path of std is text
    let Ok(path) = str::from_utf8(path) else {
        return Err(Fault::NotWritten);
    };
    let Ok(beside) = str::from_utf8(&beside[..b]) else {
        return Err(Fault::NotWritten);
    };
    replace(rt, path, beside, words)
}

// Puts the name and `.new` into `name`: how many bytes that is, where they fit.
fn name_beside(path: &[u8], name: &mut [u8]) -> Option<usize>
    ensures { IfSome result (λ n. n ≤ length name.old) }
{
    let n = path.len();
    if name.len() < 4 || name.len() - 4 < n {
        return None;
    }
    name[..n].copy_from_slice(path);
    name[n..n + 4].copy_from_slice(b".new");
    Some(n + 4)
}

fn replace(rt: &impl Files, path: &str, beside: &str, words: &[u64]) -> Result<(), Fault>
    ensures { IfErr result (λ e. (e ≡ Fault.NameTaken) ⊎ (e ≡ Fault.NotWritten)) }
{
    let made = OpenOptions::new()
        .write(true)
        .create_new(true)
        .open(rt, beside);
    let file = match made {
        Ok(file) => file,
        Err(e) => return Err(not_made(e.kind())),
    };
    if write(file, words).is_ok() && fs::rename(rt, beside, path).is_ok() {
        return Ok(());
    }
    let _ = fs::remove_file(rt, beside);
    Err(Fault::NotWritten)
}

fn not_made(kind: ErrorKind) -> Fault
    ensures { (result ≡ Fault.NameTaken) ⊎ (result ≡ Fault.NotWritten) }
{
    match kind {
        ErrorKind::AlreadyExists => Fault::NameTaken,
        _ => Fault::NotWritten,
    }
}

// Writes the words, waits until they are on the disk, and closes the file.
fn write<F: Write + OpenFile + Drop>(mut file: F, words: &[u64]) -> io::Result<()> {
    let mut space = text::zeros::<u8, MOST_BYTES>();
    let n = bytes_of(words, &mut space);
    file.write_all(&space[..n])?;
    file.sync_all()
}

// Puts the bytes of the words at the start of `out`, of as many as it has room for: how many bytes they are.
fn bytes_of(words: &[u64], out: &mut [u8]) -> usize
    ensures { result ≤ length out.old }
{
    let n = words.len().min(out.len() / 8);
    for k in 0..n {
        out[8 * k..8 * k + 8].copy_from_slice(&words[k].to_le_bytes());
    }
    8 * n
}
