// The command `control receive`: the three streams of a control word that were sent as bits.
use crate::refusal;
use console::argv::Words;
use console::host::Host;
use console::{argv, files, help, page, parts, status};
use text::octets;

// The names of the words, in their order.
const NAMES: &[u8] = b"--kind\n--length\n";

const HELP: &[u8] = b"usage: kuambyte control receive LENGTH [--text] [-o FILE] < bits > streams\n";

pub fn run(rt: &impl Host, words: Words) -> i32 {
    match asked(rt) {
        Some(d) => read(rt, words.text, d),
        None => help::say(rt, false, HELP),
    }
}

// What the words ask for, unless they do not fit.
fn asked(rt: &impl Host) -> Option<usize> {
    if !argv::fits(rt, NAMES, 2, b"--text\n-o\n") {
        return None;
    }
    argv::read_number(rt, NAMES, b"--length", usize::MAX)
}

// The streams of the longest word.
const STREAMS: usize = 384;

fn read(rt: &impl Host, text: bool, d: usize) -> i32 {
    let mut bits = files::bits_room();
    match files::input(rt, text, &mut bits) {
        Some(count) => answer(rt, text, d, octets::first(&bits, count)),
        None => status::FAILED,
    }
}

fn answer(rt: &impl Host, text: bool, d: usize, bits: &[u8]) -> i32 {
    let mut streams = [0u8; STREAMS];
    match control::streams_of(d, bits, &mut streams) {
        Ok(_) if text => write_lines(rt, d, &streams),
        Ok(count) => files::write(rt, octets::first(&streams, count)),
        Err(refusal) => refusal::of_bits(rt, refusal, d, bits.len()),
    }
}

fn write_lines(rt: &impl Host, d: usize, streams: &[u8]) -> i32 {
    let mut page = io::buffer();
    let mut end = 0;
    for i in 0..3 {
        end = put_line(d, streams, i, &mut page, end);
    }
    files::write(rt, octets::first(&page, end))
}

// Puts stream i as a text, with its line end.
fn put_line(d: usize, streams: &[u8], i: usize, page: &mut [u8], at: usize) -> usize {
    let mut line = io::buffer();
    page::put(parts::stretch(streams, parts::times(i, d), d), &mut line, 0);
    let n = files::as_text(&mut line, d);
    page::put(octets::first(&line, n), page, at)
}
