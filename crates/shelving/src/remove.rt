// The command `remove`: a private shelf without a record of a tenant.
use bits::number::Refusal;
use console::argv::Words;
use console::errors::Errors;
use console::host::Host;
use console::{argv, files, help, page, status};
use hosted::asked::Parameters;
use hosted::{asked, refusal};
use reasons::shelves;
use reasons::side::Side;
use text::octets;

// The names of the words, in their order.
const NAMES: &[u8] = b"--private\n--tenant\n--profile\n";

const HELP: &[u8] = b"usage: kuambyte remove PRIVATE TENANT PROFILE [-o FILE] > shelf

Writes the private shelf without the tenant's record of that profile number. Every other record stays as it is; the tenant is then given the
public record of that number, if there is one.

  PRIVATE           the shelf file; it is not changed, unless -o names it
  TENANT, PROFILE   whose record it is, from 1, and under which profile number
  -o FILE           write to this file, and not to standard output; it is never half written

Words may also be given by name, in any order: --private PRIVATE --tenant TENANT --profile PROFILE.
";

pub fn run(rt: &impl Host, words: Words) -> i32 {
    match asked(rt, words) {
        Some(asked) => read(rt, asked),
        None => help::say(rt, words.help, HELP),
    }
}

// What the words ask for, unless they ask for help or do not fit.
fn asked(rt: &impl Host, words: Words) -> Option<Parameters> {
    if words.help || !argv::fits(rt, NAMES, 3, b"-o\n") {
        return None;
    }
    asked::for_lookup(rt, NAMES)
}

fn read(rt: &impl Host, asked: Parameters) -> i32 {
    let mut store = files::shelf_room();
    match files::named(rt, NAMES, b"--private", &mut store) {
        Some(count) => answer(rt, asked, octets::first(&store, count)),
        None => status::FAILED,
    }
}

fn answer(rt: &impl Host, asked: Parameters, private: &[u8]) -> i32 {
    let mut shelf = files::shelf_room();
    match keeping::remove_record(private, asked.tenant, asked.profile, &mut shelf) {
        Ok(count) => files::write(rt, octets::first(&shelf, count)),
        Err(refusal) => refuse(rt, refusal, asked, private),
    }
}

fn refuse(rt: &impl Errors, refusal: Refusal, asked: Parameters, private: &[u8]) -> i32 {
    match refusal {
        Refusal::PrivateShelf => shelves::refuse(rt, Side::Private, private),
        Refusal::NoRecord => absent(rt, asked),
        _ => refusal::write(rt, refusal, b"", asked),
    }
}

// Of a shelf alone, 4 is for the tenant's own record.
fn absent(rt: &impl Errors, asked: Parameters) -> i32 {
    let mut line = io::buffer();
    let n = page::form(
        b"refused 4: the private shelf has no record of tenant # and profile #; kuambyte shelf private FILE lists what it has\n",
        &[asked.tenant as usize, asked.profile as usize],
        &mut line,
        0,
    );
    refusal::say(rt, Refusal::NoRecord, octets::first(&line, n))
}
