// A refusal of a control word: its one line on standard error, and the exit status.
use bits::number::Refusal;
use console::errors::Errors;
use console::{meanings, page, parts};
use text::octets;

// Of a word of so many bits that is to be sent.
pub fn of_word(rt: &impl Errors, refusal: Refusal, length: usize) -> i32 {
    let mut line = io::buffer();
    let a = begin(refusal, &mut line);
    let b = word_hint(refusal, length, &mut line, a);
    end(rt, refusal, &mut line, b)
}

// Of so many bits that a word of d bits is said to be sent as.
pub fn of_bits(rt: &impl Errors, refusal: Refusal, d: usize, received: usize) -> i32 {
    let mut line = io::buffer();
    let a = begin(refusal, &mut line);
    let b = bits_hint(refusal, d, received, &mut line, a);
    end(rt, refusal, &mut line, b)
}

// Of so many bits that are said to be the three streams of a word of d bits.
pub fn of_streams(rt: &impl Errors, refusal: Refusal, d: usize, received: usize) -> i32 {
    let mut line = io::buffer();
    let n = put_streams(refusal, d, received, &mut line);
    end(rt, refusal, &mut line, n)
}

// Of streams, 8 is for how long they are, and not for what a word is sent with.
fn put_streams(refusal: Refusal, d: usize, received: usize, line: &mut [u8]) -> usize {
    if refusal == Refusal::Parameter {
        return put_count(d, received, line);
    }
    let n = begin(refusal, line);
    bits_hint(refusal, d, received, line, n)
}

// Puts the number and what it means.
fn begin(refusal: Refusal, line: &mut [u8]) -> usize {
    let n = page::form(b"refused #: ", &[refusal as usize], line, 0);
    meanings::put(refusal, line, n)
}

// Says the line. The exit status is the number.
fn end(rt: &impl Errors, refusal: Refusal, line: &mut [u8], at: usize) -> i32 {
    let n = page::put(b"\n", line, at);
    rt.say(octets::first(line, n));
    meanings::exit_status(refusal)
}

// What would be accepted.
fn word_hint(refusal: Refusal, length: usize, line: &mut [u8], at: usize) -> usize {
    match refusal {
        Refusal::Parameter => page::put(b"; BITS is 1 to 65536", line, at),
        Refusal::NoBit => no_bit(line, at),
        Refusal::ControlLength => put_length(length, line, at),
        _ => at,
    }
}

fn bits_hint(refusal: Refusal, d: usize, received: usize, line: &mut [u8], at: usize) -> usize {
    match refusal {
        Refusal::Parameter => put_received(received, line, at),
        Refusal::NoBit => no_bit(line, at),
        Refusal::NoRoom => page::form(
            b"; a word of # bits takes 3 times #: #",
            &[d, d, parts::times(3, d)],
            line,
            at,
        ),
        Refusal::Unsent => page::form(
            b"; a bit and its copy # places on differ",
            &[parts::times(3, d)],
            line,
            at,
        ),
        Refusal::ControlLength => page::form(b"; LENGTH is #", &[d], line, at),
        _ => at,
    }
}

fn no_bit(line: &mut [u8], at: usize) -> usize {
    page::put(
        b"; bits are octets 0 and 1, or with --text characters",
        line,
        at,
    )
}

// Of a word that is too long no more is read than tells that it is.
fn put_length(length: usize, line: &mut [u8], at: usize) -> usize {
    if length == 1 {
        return page::put(b"; this one has 1 bit", line, at);
    }
    if length > 128 {
        return page::put(b"; this one has more than 128 bits", line, at);
    }
    page::form(b"; this one has # bits", &[length], line, at)
}

// No other count of bits is refused with 8.
fn put_received(received: usize, line: &mut [u8], at: usize) -> usize {
    if received == 0 {
        return page::put(b"; no bits came in, and E is 1 to 65536", line, at);
    }
    page::put(
        b"; more than 65536 bits came in, and E is 1 to 65536",
        line,
        at,
    )
}

// What three streams of d bits have, and what came in.
fn put_count(d: usize, received: usize, line: &mut [u8]) -> usize {
    let n = page::form(
        b"refused 8: these are not three streams of # bits; they take # octets, or with --text characters",
        &[d, parts::times(3, d)],
        line,
        0,
    );
    put_came(received, line, n)
}

// Of streams that are too long no more is read than tells that they are.
fn put_came(received: usize, line: &mut [u8], at: usize) -> usize {
    if received == 0 {
        return page::put(b", and none came in", line, at);
    }
    if received > 384 {
        return page::put(b", and more than 384 came in", line, at);
    }
    page::form(b", and # came in", &[received], line, at)
}
