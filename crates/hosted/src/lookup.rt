// The command `lookup`: the record that a tenant is given.
use crate::asked::Parameters;
use crate::shelves::Shelves;
use crate::{asked, shelves};
use console::argv::Words;
use console::host::Host;
use console::{argv, files, help, status};

// The names of the words, in their order.
const NAMES: &[u8] = b"--private\n--public\n--tenant\n--profile\n";

const HELP: &[u8] = b"usage: kuambyte lookup PRIVATE PUBLIC TENANT PROFILE [-o FILE] > record

Writes the profile record that the tenant is given: its own from the private shelf, else the public one of that number.

  PRIVATE, PUBLIC   the shelf files
  TENANT, PROFILE   who asks, from 1, and for which profile number
  -o FILE           write to this file, and not to standard output; it is never half written

Words may also be given by name, in any order: --private PRIVATE --public PUBLIC --tenant TENANT --profile PROFILE.
";

pub fn run(rt: &impl Host, words: Words) -> i32 {
    match asked(rt, words) {
        Some(asked) => read(rt, asked),
        None => help::say(rt, words.help, HELP),
    }
}

// What the words ask for, unless they ask for help or do not fit.
fn asked(rt: &impl Host, words: Words) -> Option<Parameters> {
    if words.help || !argv::fits(rt, NAMES, 4, b"-o\n") {
        return None;
    }
    asked::for_lookup(rt, NAMES)
}

fn read(rt: &impl Host, asked: Parameters) -> i32 {
    let mut store = [0u8; shelves::STORE];
    match shelves::named(rt, NAMES, &mut store) {
        Some(shelves) => answer(rt, asked, shelves),
        None => status::FAILED,
    }
}

fn answer(rt: &impl Host, asked: Parameters, shelves: Shelves) -> i32 {
    match shelf::lookup(shelves.private, shelves.public, asked.tenant, asked.profile) {
        Ok(record) => files::write(rt, record),
        Err(refusal) => shelves::refuse(rt, refusal, asked, shelves),
    }
}
