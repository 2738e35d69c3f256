// The command `control send`: the bits that a control word is sent as.
use crate::refusal;
use bits::count::CodedBits;
use console::argv::Words;
use console::host::Host;
use console::{argv, files, help, status};
use text::octets;

// The names of the words, in their order.
const NAMES: &[u8] = b"--kind\n--bits\n";

const HELP: &[u8] = b"usage: kuambyte control send BITS [--text] [-o FILE] < word > bits\n";

pub fn run(rt: &impl Host, words: Words) -> i32 {
    match asked(rt) {
        Some(e) => read(rt, words.text, e),
        None => help::say(rt, false, HELP),
    }
}

// What the words ask for, unless they do not fit.
fn asked(rt: &impl Host) -> Option<CodedBits> {
    if !argv::fits(rt, NAMES, 2, b"--text\n-o\n") {
        return None;
    }
    let bits = argv::read_number(rt, NAMES, b"--bits", usize::MAX)?;
    Some(CodedBits(bits))
}

// One bit more than the longest word: input that is too long is refused, not cut.
const WORD: usize = 129;

fn read(rt: &impl Host, text: bool, e: CodedBits) -> i32 {
    let mut word = [0u8; WORD];
    match files::input(rt, text, &mut word) {
        Some(count) => answer(rt, text, e, octets::first(&word, count)),
        None => status::FAILED,
    }
}

fn answer(rt: &impl Host, text: bool, e: CodedBits, word: &[u8]) -> i32 {
    let mut bits = files::bits_room();
    match control::send_word(word, e, &mut bits) {
        Ok(count) => write(rt, text, count, &mut bits),
        Err(refusal) => refusal::of_word(rt, refusal, word.len()),
    }
}

// Writes the first so many bits, as octets or as a text.
pub fn write(rt: &impl Host, text: bool, count: usize, bits: &mut [u8]) -> i32 {
    let n = if text {
        files::as_text(bits, count)
    } else {
        count
    };
    files::write(rt, octets::first(bits, n))
}
