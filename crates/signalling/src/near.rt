// The command `nearest`: the control word whose code is nearest to three received streams.
use crate::{refusal, send};
use console::argv::Words;
use console::errors::Errors;
use console::host::Host;
use console::{argv, files, help, page, parts, status};
use nearest::Closest;
use text::octets;

// The name of the one word.
const NAMES: &[u8] = b"--length\n";

const HELP: &[u8] = b"usage: kuambyte nearest LENGTH [--text] [-o FILE] < streams > word

Reads three streams of LENGTH bits each, as kuambyte control receive writes them, and writes the control word of LENGTH bits whose own
streams differ from them in the fewest places. Among words that are as near it is the smallest, read as binary with the first bit highest.
In how many places they differ is said on standard error.

  LENGTH    D, the bits of the word: 6 to 128
  --text    read and write bits as characters 0 and 1, line ends skipped, not as octets 0 and 1
  -o FILE   write to this file, and not to standard output; it is never half written

LENGTH may also be given by name: --length LENGTH. From the bits that a word of 22 bits was sent as to the word:

  kuambyte control receive 22 < bits | kuambyte nearest 22 > word
";

pub fn run(rt: &impl Host, words: Words) -> i32 {
    match asked(rt, words) {
        Some(d) => read(rt, words.text, d),
        None => help::say(rt, words.help, HELP),
    }
}

// What the words ask for, unless they ask for help or do not fit.
fn asked(rt: &impl Host, words: Words) -> Option<usize> {
    if words.help || !argv::fits(rt, NAMES, 1, b"--text\n-o\n") {
        return None;
    }
    argv::read_number(rt, NAMES, b"--length", usize::MAX)
}

// One bit more than the streams of the longest word: input that is too long is refused, not cut.
const HEARD: usize = 385;

// The longest word, and the line end of its text.
const WORD: usize = 129;

fn read(rt: &impl Host, text: bool, d: usize) -> i32 {
    let mut heard = [0u8; HEARD];
    match files::input(rt, text, &mut heard) {
        Some(count) => answer(rt, text, d, octets::first(&heard, count)),
        None => status::FAILED,
    }
}

fn answer(rt: &impl Host, text: bool, d: usize, heard: &[u8]) -> i32 {
    let mut word = [0u8; WORD];
    match nearest::nearest_word(d, heard, &mut word) {
        Ok(closest) => write(rt, text, d, closest, &mut word),
        Err(refusal) => refusal::of_streams(rt, refusal, d, heard.len()),
    }
}

fn write(rt: &impl Host, text: bool, d: usize, closest: Closest, word: &mut [u8]) -> i32 {
    let ended = send::write(rt, text, closest.count, word);
    if ended == status::DONE {
        note(rt, closest.differences, parts::times(3, d));
    }
    ended
}

// There is a nearest word to any streams; how far it is tells how much to trust it.
fn note(rt: &impl Errors, differences: usize, places: usize) {
    let mut line = io::buffer();
    let n = put_note(differences, places, &mut line);
    rt.say(octets::first(&line, n));
}

fn put_note(differences: usize, places: usize, line: &mut [u8]) -> usize {
    if differences == 0 {
        return page::form(
            b"kuambyte: the code of this word is what was received, in all # places\n",
            &[places],
            line,
            0,
        );
    }
    page::form(
        b"kuambyte: the code of this word differs from what was received in # of # places\n",
        &[differences, places],
        line,
        0,
    )
}
