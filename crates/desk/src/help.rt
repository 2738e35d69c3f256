// The command `help`, and what is said where a word names no command.
use console::argv::Words;
use console::errors::Errors;
use console::host::Host;
use console::{argv, files, help, page, status};
use std::rt::Env;
use text::octets;

const OVERVIEW: &[u8] = b"kuambyte asks the proved coding library and writes what it answers.

Coding, for a tenant and a profile number:
  kuambyte lookup PRIVATE PUBLIC TENANT PROFILE > record
  kuambyte send PRIVATE PUBLIC TENANT PROFILE LAYERS ORDER BITS [--rv N] [--edition N] [--text] < block > bits
  kuambyte receive PRIVATE PUBLIC TENANT PROFILE OCTETS LAYERS ORDER [--rv N] [--edition N] [--plain] [--text] < bits > block
  kuambyte check PRIVATE PUBLIC TENANT PROFILE Z [--plain] [--text] < word   write whether a word checks, or the odd rows

Control words:
  kuambyte control send BITS [--text] < word > bits           write the bits that a control word is sent as
  kuambyte control receive LENGTH [--text] < bits > streams   write the three streams that were sent as bits
  kuambyte nearest LENGTH [--text] < streams > word           write the control word whose streams are nearest to these

Shelves and records:
  kuambyte shelf private|public FILE              write a table of what is on a shelf, or the first rule that it breaks
  kuambyte show RECORD [Z] [--svg]                write the tables of a record as grids, or one as a picture
  kuambyte plan RECORD OCTETS [LAYERS [ORDER]] [--edition N]   write how a block of so many octets is cut
  kuambyte pack private|public < text > shelf     make a shelf of its text
  kuambyte unpack private|public < shelf > text   write the text of a shelf
  kuambyte put PRIVATE TENANT PROFILE < record > shelf         put a record on a private shelf
  kuambyte remove PRIVATE TENANT PROFILE > shelf               remove one

Besides:
  kuambyte day                run the whole day on the sample shelves
  kuambyte numbers            write what each answered number means
  kuambyte replay             read requests, one to a line, and write an answer to each
  kuambyte help [COMMAND]     write this help, or that of a command
  kuambyte --version          write which version this is

PRIVATE and PUBLIC are shelf files. Words in capitals may also be given by name and in any order, as --tenant 7. Where a result is written,
-o FILE writes it to a file, which is never half written.
A refusal is one line on standard error, and its number is the exit status; 64 is for wrong words, 65 for a text that is no shelf, and 74 for
a file that cannot be read or a write that failed.
";

pub fn run(rt: &(impl Print + Errors)) -> i32 {
    files::ended(rt, rt.write_all(OVERVIEW))
}

const VERSION_HELP: &[u8] = b"usage: kuambyte --version

Writes the name of the program and its version.
";

// Which version this is; include/kuambyte.h has the same.
pub fn version(rt: &impl Host, words: Words) -> i32 {
    if words.help || !argv::fits(rt, b"", 0, b"") {
        return help::say(rt, words.help, VERSION_HELP);
    }
    files::ended(rt, rt.write_all(b"kuambyte 0.1.0\n"))
}

pub fn too_many(rt: &impl Host) -> i32 {
    rt.say(b"kuambyte: help takes the name of one command\n");
    help::say(rt, false, b"usage: kuambyte help [COMMAND]\n")
}

// No word was given. Nothing goes to standard output, so that what reads a result meets no other text.
pub fn missing(rt: &impl Errors) -> i32 {
    rt.say(OVERVIEW);
    status::WRONG_WORDS
}

pub fn unknown(rt: &(impl Env + Errors), place: usize) -> i32 {
    let mut word = io::buffer();
    let n = argv::read(rt, place, &mut word);
    let mut line = io::buffer();
    let a = page::put(b"kuambyte: unknown word '", &mut line, 0);
    let b = page::put(octets::first(&word[..n], 100), &mut line, a);
    let c = page::put(b"'; kuambyte help lists the commands\n", &mut line, b);
    rt.say(octets::first(&line, c));
    status::WRONG_WORDS
}
