// Which shelf a command is about, the private one or the public one.
use bits::number::Refusal;
use console::errors::Errors;
use console::{argv, page};
use std::rt::Env;
use text::octets;

#[derive(Clone, Copy)]
pub enum Side {
    Private,
    Public,
}

impl Side {
    pub fn is_private(self) -> bool {
        match self {
            Side::Private => true,
            Side::Public => false,
        }
    }

    // The refusal of a shelf of this side that is not well formed.
    pub fn refusal(self) -> Refusal {
        match self {
            Side::Private => Refusal::PrivateShelf,
            Side::Public => Refusal::PublicShelf,
        }
    }
}

// Reads the word KIND; none where it is neither `private` nor `public`. `names` has the names of all words of the command.
pub fn read(rt: &(impl Env + Errors), names: &[u8]) -> Option<Side> {
    let mut word = io::buffer();
    let n = argv::read(rt, argv::place(rt, names, b"--kind"), &mut word);
    of_word(rt, &word[..n])
}

fn of_word(rt: &impl Errors, word: &[u8]) -> Option<Side> {
    match word {
        b"private" => Some(Side::Private),
        b"public" => Some(Side::Public),
        _ => {
            complain(rt, word);
            None
        }
    }
}

fn complain(rt: &impl Errors, word: &[u8]) {
    let mut line = io::buffer();
    let a = page::put(b"kuambyte: KIND is private or public, and '", &mut line, 0);
    let b = page::put(octets::first(word, 100), &mut line, a);
    let c = page::put(b"' is neither\n", &mut line, b);
    rt.say(octets::first(&line, c));
}
