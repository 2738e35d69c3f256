// The desk: the engineer's commands, from the words of the command line to the exit status.
#![tactic(auto)]

mod help;
mod numbers;
mod plan;
mod replay;

use console::argv;
use console::argv::Words;
use console::host::Host;
use drawing::show;
use hosted::{check, lookup, receive, send};
use packing::{pack, unpack};
use shelving::{listing, put, remove};
use signalling::near;

// Runs the command that the words ask for, and answers the exit status. `help` and the name of a command is the command with --help. `shelves` is the folder
// of the shelves on which the day is run.
pub fn run(rt: &impl Host, shelves: &[u8]) -> i32 {
    let words = argv::count(rt);
    if words < 2 {
        return help::missing(rt);
    }
    let mut word = io::buffer();
    let n = argv::read(rt, 1, &mut word);
    if !is_help(&word[..n]) {
        return command(rt, &word[..n], 1, argv::all_words(rt), shelves);
    }
    if words == 2 {
        return help::run(rt);
    }
    if words > 3 {
        return help::too_many(rt);
    }
    let m = argv::read(rt, 2, &mut word);
    command(rt, &word[..m], 2, argv::for_help(), shelves)
}

fn is_help(word: &[u8]) -> bool {
    matches!(word, b"help" | b"--help")
}

// `place` is where the word stands on the command line.
fn command(rt: &impl Host, word: &[u8], place: usize, words: Words, shelves: &[u8]) -> i32 {
    match word {
        b"help" | b"--help" => help::run(rt),
        b"send" => send::run(rt, words),
        b"receive" => receive::run(rt, words),
        b"check" => check::run(rt, words),
        b"lookup" => lookup::run(rt, words),
        b"plan" => plan::run(rt, words),
        b"day" => day::run(rt, words, shelves),
        b"numbers" => numbers::run(rt, words),
        b"replay" => replay::run(rt, words),
        b"shelf" => listing::run(rt, words),
        b"show" => show::run(rt, words),
        b"pack" => pack::run(rt, words),
        b"unpack" => unpack::run(rt, words),
        b"put" => put::run(rt, words),
        b"remove" => remove::run(rt, words),
        b"control" => signalling::run(rt, words),
        b"nearest" => near::run(rt, words),
        b"--version" => help::version(rt, words),
        _ => help::unknown(rt, place),
    }
}
