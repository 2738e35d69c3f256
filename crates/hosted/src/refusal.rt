// A refusal: its one line on standard error, and the exit status.
use crate::asked::Parameters;
use crate::least;
use bits::count::Terms;
use bits::count::inner::{is_usable, place_bits};
use bits::number::Refusal;
use console::errors::Errors;
use console::{meanings, page};
use text::octets;

// Says the number, what it means and what would be accepted. The exit status is the number.
pub fn write(rt: &impl Errors, refusal: Refusal, record: &[u8], asked: Parameters) -> i32 {
    let mut line = io::buffer();
    let n = put(refusal, record, asked, &mut line);
    say(rt, refusal, octets::first(&line, n))
}

pub fn say(rt: &impl Errors, refusal: Refusal, line: &[u8]) -> i32 {
    rt.say(line);
    meanings::exit_status(refusal)
}

// Puts the line, which ends with a line end.
fn put(refusal: Refusal, record: &[u8], asked: Parameters, line: &mut [u8]) -> usize {
    let a = page::form(b"refused #: ", &[refusal as usize], line, 0);
    let b = meanings::put(refusal, line, a);
    let c = hint(refusal, record, asked, line, b);
    page::put(b"\n", line, c)
}

// What would be accepted, where that can be said.
fn hint(refusal: Refusal, record: &[u8], asked: Parameters, line: &mut [u8], at: usize) -> usize {
    match refusal {
        Refusal::TenantZero => page::put(b"; tenants are 1 to 65535", line, at),
        Refusal::PrivateShelf => page::put(
            b"; kuambyte shelf private FILE says which rule it breaks",
            line,
            at,
        ),
        Refusal::PublicShelf => page::put(
            b"; kuambyte shelf public FILE says which rule it breaks",
            line,
            at,
        ),
        Refusal::NoRecord => page::put(b"; kuambyte shelf lists what is on one", line, at),
        Refusal::Profile | Refusal::NoStaircase => page::put(
            b"; kuambyte show RECORD says where",
            line,
            at,
        ),
        Refusal::Parameter => parameters(asked, line, at),
        Refusal::TooFewPlaces | Refusal::NoRoom => least_bits(record, asked, line, at),
        Refusal::NoBit => page::put(
            b"; bits are octets 0 and 1, or with --text characters",
            line,
            at,
        ),
        Refusal::Version => version(record, line, at),
        _ => at,
    }
}

fn parameters(asked: Parameters, line: &mut [u8], at: usize) -> usize {
    let n = page::put(
        b"; N_L is 1 to 4, Q_m is 2, 4 or 6, and G a multiple of N_L times Q_m",
        line,
        at,
    );
    let m = product(asked.terms, line, n);
    page::put(b" up to 65536", line, m)
}

// N_L times Q_m, where both are ones of step 5: the bits of one symbol place on every layer.
fn product(terms: Terms, line: &mut [u8], at: usize) -> usize {
    if !is_usable(terms) {
        return at;
    }
    page::form(b" (here #)", &[place_bits(terms)], line, at)
}

// The redundancy versions that go with the profile's type.
fn version(record: &[u8], line: &mut [u8], at: usize) -> usize {
    if profile::judge(record).is_err() {
        return at;
    }
    if profile::inner::kind(record) == 1 {
        return page::put(b"; this profile is of Type 1, so it is 0", line, at);
    }
    page::put(b"; this profile is of Type 2, so it is 0 to 3", line, at)
}

// The least G with which every code block has room.
fn least_bits(record: &[u8], asked: Parameters, line: &mut [u8], at: usize) -> usize {
    let n = page::put(b"; ", line, at);
    least::put(record, asked, b"", line, n)
}
