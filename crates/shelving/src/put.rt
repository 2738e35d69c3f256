// The command `put`: a private shelf with a record of a tenant on it.
use bits::number::Refusal;
use console::argv::Words;
use console::errors::Errors;
use console::host::Host;
use console::{argv, counted, files, help, meanings, page, parts, status};
use hosted::asked::Parameters;
use hosted::{asked, refusal};
use reasons::side::Side;
use reasons::{records, shelves};
use text::octets;

// The names of the words, in their order.
const NAMES: &[u8] = b"--private\n--tenant\n--profile\n";

const HELP: &[u8] = b"usage: kuambyte put PRIVATE TENANT PROFILE [-o FILE] < record > shelf

Reads a profile record and writes the private shelf with it as the tenant's record of that profile number, in the place of the one that is
there, if there is one. Every other record stays as it is. A record that sending would refuse is refused.

  PRIVATE           the shelf file; it is not changed, unless -o names it
  TENANT, PROFILE   whose record it is, from 1, and under which profile number
  -o FILE           write to this file, and not to standard output; it is never half written

Words may also be given by name, in any order: --private PRIVATE --tenant TENANT --profile PROFILE.
";

pub fn run(rt: &impl Host, words: Words) -> i32 {
    match asked(rt, words) {
        Some(asked) => read(rt, asked),
        None => help::say(rt, words.help, HELP),
    }
}

// What the words ask for, unless they ask for help or do not fit.
fn asked(rt: &impl Host, words: Words) -> Option<Parameters> {
    if words.help || !argv::fits(rt, NAMES, 3, b"-o\n") {
        return None;
    }
    asked::for_lookup(rt, NAMES)
}

fn read(rt: &impl Host, asked: Parameters) -> i32 {
    let mut store = files::shelf_room();
    match files::named(rt, NAMES, b"--private", &mut store) {
        Some(count) => read_record(rt, asked, octets::first(&store, count)),
        None => status::FAILED,
    }
}

fn read_record(rt: &impl Host, asked: Parameters, private: &[u8]) -> i32 {
    let mut store = files::shelf_room();
    match files::input(rt, false, &mut store) {
        Some(count) => answer(rt, asked, private, octets::first(&store, count)),
        None => status::FAILED,
    }
}

fn answer(rt: &impl Host, asked: Parameters, private: &[u8], record: &[u8]) -> i32 {
    let mut shelf = files::shelf_room();
    match keeping::put_record(private, asked.tenant, asked.profile, record, &mut shelf) {
        Ok(count) => files::write(rt, octets::first(&shelf, count)),
        Err(refusal) => refuse(rt, refusal, asked, private, record),
    }
}

// Each refusal says what to mend.
fn refuse(
    rt: &impl Errors,
    refusal: Refusal,
    asked: Parameters,
    private: &[u8],
    record: &[u8],
) -> i32 {
    match refusal {
        Refusal::PrivateShelf => shelves::refuse(rt, Side::Private, private),
        Refusal::Profile | Refusal::NoStaircase => records::refuse(rt, refusal, record),
        Refusal::FullShelf => full(rt, private, record),
        _ => refusal::write(rt, refusal, record, asked),
    }
}

// How much is free, and how much the record takes.
fn full(rt: &impl Errors, private: &[u8], record: &[u8]) -> i32 {
    let count = parts::two_octets(private, 0);
    let mut line = io::buffer();
    let a = page::put(b"refused 26: ", &mut line, 0);
    let b = meanings::put(Refusal::FullShelf, &mut line, a);
    let c = page::form(
        b"; # entries and # octets are free, and a record takes 8 octets and its own #\n",
        &[
            counted::left(64, count),
            counted::left(65535, private.len()),
            record.len(),
        ],
        &mut line,
        b,
    );
    refusal::say(rt, Refusal::FullShelf, octets::first(&line, c))
}
