// Files: reading one whole, and writing a result.
ghost use Rattle.std.specs.Prelude.{◌≡◌, ◌<◌, length};

use crate::errors::Errors;
use crate::{argv, beside, errors, page, status};
use std::env::FillError;
use std::io::{Error, Read};
use std::rt::{Env, Files};
use std::{fs, str};
use text::octets;

// What no bit is: a character other than 0 and 1 stands as this, so that it is refused with its number.
const NO_BIT: u8 = 255;

// Room for one octet more than the longest block: input that is too long is refused, not cut.
pub fn block_room() -> [u8; 2049]
    ensures { 2049 ≡ length result }
{
    [0; 2049]
}

// The same for the most bits.
pub fn bits_room() -> [u8; 65537]
    ensures { 65537 ≡ length result }
{
    [0; 65537]
}

// No offset and length reach further together: of a shelf that is too long the rule is found that it breaks.
pub fn shelf_room() -> [u8; 131072]
    ensures { 131072 ≡ length result }
{
    [0; 131072]
}

// Reads the file that the word with this name names, until it ends or the store is full, and answers how many octets came. Where it cannot be read, the
// reason is on standard error.
pub fn named(
    rt: &(impl Env + Files + Errors),
    names: &[u8],
    name: &[u8],
    store: &mut [u8],
) -> Option<usize> {
    let mut path = io::buffer();
    match rt.arg(argv::place(rt, names, name), &mut path) {
        Ok(n) => of_path(rt, &path[..n], store),
        Err(why) => {
            nameless(rt, why);
            None
        }
    }
}

// Says that a word which names a file is missing, or longer than any name.
fn nameless(rt: &impl Errors, why: FillError) {
    let number = match why {
        FillError::NotPresent => errors::INVALID,
        FillError::TooLong => errors::TOO_LONG,
    };
    errors::fail(
        rt,
        b"kuambyte: the name of a file",
        &Error::from_raw_os_error(number),
    );
}

pub fn of_path(rt: &(impl Files + Errors), path: &[u8], store: &mut [u8]) -> Option<usize> {
    let read = match str::from_utf8(path) {
        Ok(name) => of_name(rt, name, store),
        Err(_) => Err(Error::from_raw_os_error(errors::NO_TEXT)),
    };
    said(rt, path, read)
}

fn of_name(rt: &impl Files, name: &str, store: &mut [u8]) -> Result<usize, Error> {
    let mut file = fs::open(rt, name)?;
    fill(&mut file, false, store)
}

// Reads standard input; as text, it has the characters 0 and 1 for bits.
pub fn input(rt: &(impl Input + Errors), text: bool, store: &mut [u8]) -> Option<usize> {
    let read = fill(&mut rt.reader(), text, store);
    said(rt, b"standard input", read)
}

// What was read. Where that failed, the reason is said.
fn said(rt: &impl Errors, name: &[u8], read: Result<usize, Error>) -> Option<usize> {
    match read {
        Ok(count) => Some(count),
        Err(why) => {
            fail(rt, name, &why);
            None
        }
    }
}

fn fail(rt: &impl Errors, name: &[u8], why: &Error) {
    let mut line = io::buffer();
    let at = page::put(b"kuambyte: ", &mut line, 0);
    let end = page::put(name, &mut line, at);
    errors::fail(rt, octets::first(&line, end), why);
}

// A proved loop has to end, and nothing says that the input does. So there are as many turns as no run
// uses up.
fn fill(from: &mut impl Read, text: bool, store: &mut [u8]) -> Result<usize, Error> {
    let mut chunk = io::buffer();
    let mut count = 0;
    for _ in 0..u64::MAX {
        let n = from.read(&mut chunk)?;
        count = keep(text, &chunk[..n], store, count);
        if n == 0 || count == store.len() {
            break;
        }
    }
    Ok(count)
}

fn keep(text: bool, chunk: &[u8], store: &mut [u8], at: usize) -> usize {
    if text {
        return keep_bits(chunk, store, at);
    }
    page::put(chunk, store, at)
}

fn keep_bits(chunk: &[u8], store: &mut [u8], at: usize) -> usize {
    let mut held = at;
    for character in chunk {
        held = keep_bit(*character, store, held);
    }
    held
}

// Line ends are no bits, so that a text may be broken into lines.
fn keep_bit(character: u8, store: &mut [u8], at: usize) -> usize {
    if character == b'\n' {
        return at;
    }
    if character == b'\r' {
        return at;
    }
    page::put(&[bit(character)], store, at)
}

fn bit(character: u8) -> u8 {
    match character {
        b'0' => 0,
        b'1' => 1,
        _ => NO_BIT,
    }
}

// Makes a text of the first n octets, which are bits, with a line end behind it, and answers its length.
pub fn as_text(store: &mut [u8], n: usize) -> usize {
    let k = n.min(store.len());
    spell(&mut store[..k]);
    page::put(b"\n", store, k)
}

// The character 0 is even, so with the bit set it is the character 1.
fn spell(bits: &mut [u8]) {
    for bit in bits {
        *bit |= b'0';
    }
}

// Writes a result, all of it at once, to standard output or to the file that stands behind -o, and answers the exit status.
pub fn write(rt: &(impl Env + Files + Print + Errors), res: &[u8]) -> i32 {
    let Some(at) = argv::value_of(rt, b"-o") else {
        return ended(rt, rt.write_all(res));
    };
    let mut path = io::buffer();
    match rt.arg(at, &mut path) {
        Ok(n) => beside::write(rt, &path[..n], res),
        Err(why) => {
            nameless(rt, why);
            status::FAILED
        }
    }
}

// The exit status where a result was written to standard output, or was not.
pub fn ended(rt: &impl Errors, written: Result<(), Error>) -> i32 {
    match written {
        Ok(()) => status::DONE,
        Err(why) => {
            errors::fail(rt, b"kuambyte: standard output", &why);
            status::FAILED
        }
    }
}
