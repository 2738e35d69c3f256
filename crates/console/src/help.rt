// Help: what a command says of itself, and of words that do not fit it.
use crate::errors::Errors;
use crate::{files, status};
use std::rt::{Env, Files};
use text::words;

// Writes a command's help, where that is asked for. Else says the usage, which is the first line of the help, behind what was said of the words.
pub fn say(rt: &(impl Env + Files + Print + Errors), asked: bool, help: &[u8]) -> i32 {
    if asked {
        return files::write(rt, help);
    }
    rt.say(words::before(help, b'\n'));
    rt.say(b"\n");
    status::WRONG_WORDS
}
