// The command `day`: the engineer's whole day on the sample shelves, with a line for each step.
#![tactic(auto)]

ghost use Rattle.std.specs.Prelude.{◌≤◌, IfSome};

use advice::Least;
use bits::count::{CodedBits, Terms};
use bits::number::Refusal;
use checking::Checker;
use console::argv::Words;
use console::host::Host;
use console::{argv, files, help, meanings, page, status};
use hosted::asked::Parameters;
use hosted::shelves::Shelves;
use hosted::{calls, least, shelves};
use shelf::inner::Found;
use text::octets;

// Tenant 7 has profiles 34 and 70 of its own on the private shelf; 34 is on the public shelf too.
const TENANT: u16 = 7;

const SHARED: u16 = 34;

const OWN: u16 = 70;
// Tenant 11 has no 34 of its own, and tenant 3 no 70.
const OTHER: u16 = 11;

const THIRD: u16 = 3;

const HELP: &[u8] = b"usage: kuambyte day [-o FILE]

Runs the whole day on the sample shelves, private.shelf and public.shelf, and writes a line for each step: looks a profile up, sends
a block, receives it, flips one bit and receives again, and asks as other tenants for private profiles.
";

// `folder` is that of the two shelves.
pub fn run(rt: &impl Host, words: Words, folder: &[u8]) -> i32 {
    if words.help || !argv::fits(rt, b"", 0, b"-o\n") {
        return help::say(rt, words.help, HELP);
    }
    let mut store = [0u8; shelves::STORE];
    match shelves::in_folder(rt, folder, &mut store) {
        Some(shelves) => day(rt, shelves),
        None => status::FAILED,
    }
}

fn day(rt: &impl Host, shelves: Shelves) -> i32 {
    let mut page = io::buffer();
    let end = steps(shelves, &mut page);
    files::write(rt, octets::first(&page, end))
}

fn steps(shelves: Shelves, page: &mut [u8]) -> usize {
    let message = b"One block of the engineer's day goes out and comes back.";
    let a = look(b"lookup   ", shelves, TENANT, SHARED, page, 0);
    let b = exchange(message, shelves, page, a);
    let c = look(b"others   ", shelves, OTHER, SHARED, page, b);
    look(b"private  ", shelves, THIRD, OWN, page, c)
}

// Who asks, and which record is given.
fn look(
    step: &[u8],
    shelves: Shelves,
    tenant: u16,
    profile: u16,
    page: &mut [u8],
    at: usize,
) -> usize {
    let found = shelf::inner::look(shelves.private, shelves.public, tenant, profile);
    let a = page::put(step, page, at);
    let b = page::form(
        b"tenant # asks for profile #",
        &[tenant as usize, profile as usize],
        page,
        a,
    );
    given(found, page, b)
}

fn given(found: Result<Found, Refusal>, page: &mut [u8], at: usize) -> usize {
    match found {
        Ok(found) if found.own => page::form(
            b" and is given its own record of # octets\n",
            &[found.size],
            page,
            at,
        ),
        Ok(found) => page::form(
            b" and is given the public record of # octets\n",
            &[found.size],
            page,
            at,
        ),
        Err(refusal) => refused(refusal, page, at),
    }
}

fn refused(refusal: Refusal, page: &mut [u8], at: usize) -> usize {
    let a = page::form(b": refused #: ", &[refusal as usize], page, at);
    let b = meanings::put(refusal, page, a);
    page::put(b"\n", page, b)
}

// Tenant 7 sends on one layer, two bits to a symbol.
fn asked_for(octets: usize, g: CodedBits) -> Parameters {
    Parameters {
        octets,
        terms: Terms {
            nl: 1,
            qm: 2,
            rv: 0,
            edition: 1,
        },
        g,
        ..Parameters::of(TENANT, SHARED)
    }
}

// Sends the message with the least G that has room, receives it, flips the first bit and receives again. Where no G has room, sending says why.
fn exchange(message: &[u8], shelves: Shelves, page: &mut [u8], at: usize) -> usize {
    let asked = asked_for(message.len(), CodedBits(0));
    let least = calls::least(shelves.record(asked), asked).ok();
    let g = match least {
        Some(least) => least.bits,
        None => CodedBits(0),
    };
    let asked = Parameters { g, ..asked };
    let mut bits = files::bits_room();
    let sent = calls::send(shelves, asked, message, &mut bits);
    let a = tell_sent(message.len(), least, sent, page, at);
    let n = sent.unwrap_or(0).min(bits.len());
    there_and_back(asked, message, shelves, &mut bits[..n], page, a)
}

fn tell_sent(
    octets: usize,
    least: Option<Least>,
    sent: Result<usize, Refusal>,
    page: &mut [u8],
    at: usize,
) -> usize
    requires { IfSome least (λ l. l.larger ≤ l.blocks) }
{
    let a = page::form(b"send     a block of # octets", &[octets], page, at);
    let b = match sent {
        Ok(count) => page::form(b" goes out as # bits, ", &[count], page, a),
        Err(refusal) => return refused(refusal, page, a),
    };
    let c = match least {
        Some(least) => least::put_shares(least, page, b),
        None => b,
    };
    page::put(b"\n", page, c)
}

fn there_and_back(
    asked: Parameters,
    message: &[u8],
    shelves: Shelves,
    bits: &mut [u8],
    page: &mut [u8],
    at: usize,
) -> usize {
    let a = page::put(b"receive  these bits", page, at);
    let b = receive(asked, message, shelves, bits, page, a);
    flip(bits);
    let c = page::put(b"flip     with the first bit flipped", page, b);
    receive(asked, message, shelves, bits, page, c)
}

fn flip(bits: &mut [u8]) {
    if let Some(bit) = bits.first_mut() {
        *bit ^= 1;
    }
}

fn receive(
    asked: Parameters,
    message: &[u8],
    shelves: Shelves,
    bits: &[u8],
    page: &mut [u8],
    at: usize,
) -> usize {
    let mut block = files::block_room();
    match calls::receive(shelves, asked, bits, Checker::Quick, &mut block) {
        Ok(count) if octets::first(&block, count) == message => {
            page::put(b" come back as the same block\n", page, at)
        }
        Ok(_) => page::put(b" come back as ANOTHER BLOCK\n", page, at),
        Err(refusal) => refused(refusal, page, at),
    }
}
