// Standard error, which takes octets as they are, since a word that is complained of need be no text, and what is said there of a call that failed.
use std::io::{Cursor, Error, Write};
use std::rt::HostRuntime;
use std::str;
use text::octets;

// The system's numbers for a word that is no name of a file: there is none, it is longer than any, or it is no text, and std names files by texts.
pub const INVALID: i32 = 22;

pub const TOO_LONG: i32 = 36;

pub const NO_TEXT: i32 = 84;

// For a name that is taken.
pub const EXISTS: i32 = 17;

pub trait Errors {
    // Writes a line, or a part of one. There is nothing left to do where that fails.
    fn say(&self, line: &[u8]);
}

impl Errors for HostRuntime {
    fn say(&self, line: &[u8]) {
        let _ = self.stderr().write_all(line);
    }
}

// Says what failed, as the caller names it, a colon and the reason, as the system words it.
pub fn fail(rt: &impl Errors, what: &[u8], why: &Error) {
    let mut reason = Cursor::new([0u8; 256]);
    let _ = write!(reason, "{why}");
    let n = octets::find(reason.get_ref(), 0, 0);
    rt.say(what);
    rt.say(b": ");
    rt.say(without_number(octets::first(reason.get_ref(), n)));
    rt.say(b"\n");
}

// std puts the number of the error behind the system's words.
fn without_number(reason: &[u8]) -> &[u8] {
    match str::from_utf8(reason) {
        Ok(text) => words_of(text).as_bytes(),
        Err(_) => reason,
    }
}

fn words_of(text: &str) -> &str {
    match text.split_once(" (os error ") {
        Some((words, _)) => words,
        None => text,
    }
}
