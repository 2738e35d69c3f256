// Answers, and how they are put into the output.
ghost use Rattle.std.specs.Prelude.{◌+◌, ◌*◌, ◌^◌, ◌≤◌, ◌<◌, ◌≡◌, length};
ghost use Rattle.requests.specs.Room.{Roomy};

use bits::number::Refusal;
use cutting::{Plan, Planned};
use nearest::Closest;
use text::faults::Fault;
use text::shown::Shown;
use text::{numbers, octets, shown};

// The octets of an answer's numbers and words; a plan has the most. specs/Room.antt has the same
// number.
const NUMBERS_ROOM: usize = 128;

// What a line is answered. A refusal has its number in front and zeros behind it.
#[derive(Clone, Copy)]
pub enum Answer {
    // A comment or a blank line has no answer.
    Nothing,
    Error(Fault),
    Judged(Result<(), Refusal>),
    Sum(Result<u32, Refusal>),
    Plan(Result<Plan, Refusal>),
    Verdict(Result<bool, Refusal>),
    Record(Result<Place, Refusal>),
    // So many octets of what was lent.
    Written(Shown, Result<usize, Refusal>),
    // So many bits of what was lent, and in how many places their code differs from the streams that were heard.
    Near(Result<Closest, Refusal>),
}

// The stretch of the private shelf where `own`, else of the public one.
#[derive(Clone, Copy)]
pub struct Place {
    pub own: bool,
    pub start: usize,
    pub count: usize,
}

// The octets that an answer may have, with the digits of all that was lent.
pub fn room(lent: &[u8]) -> usize
    requires { 2 * length lent.now + 128 < 2 ^ 64 }
    ensures { result ≡ 2 * length lent.now + 128 }
{
    lent.len() * 2 + NUMBERS_ROOM
}

// Puts an answer's line into the output, and answers the place behind it. What was lent to a call
// has the octets that the call wrote.
pub fn put(answer: Answer, lent: &[u8], out: &mut [u8], at: usize) -> usize
    requires { Roomy at lent.now out.old }
    ensures { result ≤ length out.old }
{
    match answer {
        Answer::Nothing => at,
        Answer::Error(why) => error(why, out, at),
        Answer::Judged(judged) => alone(judged, out, at),
        Answer::Sum(summed) => sum(summed, out, at),
        Answer::Plan(cut) => plan(cut, out, at),
        Answer::Verdict(tested) => verdict(tested, out, at),
        Answer::Record(found) => stretch(found, out, at),
        Answer::Written(shown, count) => written(shown, count, lent, out, at),
        Answer::Near(found) => near(found, lent, out, at),
    }
}

fn error(why: Fault, out: &mut [u8], at: usize) -> usize
    requires { at + 128 ≤ length out.old }
    ensures { result ≤ length out.old }
{
    let word = word_of(why);
    let next = octets::put(b"error ", out, at);
    let end = octets::put(word, out, next);
    octets::put_one(b'\n', out, end)
}

fn word_of(why: Fault) -> &'static [u8]
    ensures { length result.now ≤ 7 }
{
    match why {
        Fault::Request => b"request",
        Fault::Words => b"words",
        Fault::Number => b"number",
        Fault::Long => b"long",
        Fault::Bits => b"bits",
        Fault::Hex => b"hex",
        Fault::Output => b"output",
    }
}

// The number in front: 0 when a call is done.
fn number<T>(answer: &Result<T, Refusal>, out: &mut [u8], at: usize) -> usize
    requires { at + 20 ≤ length out.old }
    ensures { result ≤ at + 20 }
{
    match answer {
        Ok(_) => numbers::decimal(0, out, at),
        Err(refusal) => numbers::decimal(u64::from(refusal.number()), out, at),
    }
}

fn alone(judged: Result<(), Refusal>, out: &mut [u8], at: usize) -> usize
    requires { at + 128 ≤ length out.old }
    ensures { result ≤ length out.old }
{
    let end = number(&judged, out, at);
    octets::put_one(b'\n', out, end)
}

fn sum(summed: Result<u32, Refusal>, out: &mut [u8], at: usize) -> usize
    requires { at + 128 ≤ length out.old }
    ensures { result ≤ length out.old }
{
    let space = number(&summed, out, at);
    let next = octets::put_one(b' ', out, space);
    let end = numbers::hexadecimal(u64::from(summed.unwrap_or(0)), out, next);
    octets::put_one(b'\n', out, end)
}

fn plan(cut: Result<Plan, Refusal>, out: &mut [u8], at: usize) -> usize
    requires { at + 128 ≤ length out.old }
    ensures { result ≤ length out.old }
{
    let cut = Planned::from(cut);
    let bits = numbers::decimal(u64::from(cut.number), out, at);
    let blocks = numbers::next_decimal(cut.bits as u64, out, bits);
    let places = numbers::next_decimal(cut.blocks as u64, out, blocks);
    let z = numbers::next_decimal(cut.places as u64, out, places);
    let sums = numbers::next_decimal(cut.z as u64, out, z);
    let end = numbers::next_decimal(cut.sums as u64, out, sums);
    octets::put_one(b'\n', out, end)
}

fn verdict(tested: Result<bool, Refusal>, out: &mut [u8], at: usize) -> usize
    requires { at + 128 ≤ length out.old }
    ensures { result ≤ length out.old }
{
    let space = number(&tested, out, at);
    let end = numbers::next_decimal(u64::from(tested.unwrap_or(false)), out, space);
    octets::put_one(b'\n', out, end)
}

fn stretch(found: Result<Place, Refusal>, out: &mut [u8], at: usize) -> usize
    requires { at + 128 ≤ length out.old }
    ensures { result ≤ length out.old }
{
    let space = number(&found, out, at);
    let found = found.unwrap_or(Place {
        own: false,
        start: 0,
        count: 0,
    });
    let name = shelf(found.own, out, space);
    let from = numbers::next_decimal(found.start as u64, out, name);
    let end = numbers::next_decimal(found.count as u64, out, from);
    octets::put_one(b'\n', out, end)
}

fn shelf(own: bool, out: &mut [u8], at: usize) -> usize
    requires { at + 16 ≤ length out.old }
    ensures { result ≤ at + 8 }
{
    if own {
        return octets::put(b" private", out, at);
    }
    octets::put(b" public", out, at)
}

fn written(
    shown: Shown,
    count: Result<usize, Refusal>,
    lent: &[u8],
    out: &mut [u8],
    at: usize,
) -> usize
    requires { Roomy at lent.now out.old }
    ensures { result ≤ length out.old }
{
    let next = number(&count, out, at);
    let end = counted(shown, octets::first(lent, count.unwrap_or(0)), out, next);
    octets::put_one(b'\n', out, end)
}

fn near(found: Result<Closest, Refusal>, lent: &[u8], out: &mut [u8], at: usize) -> usize
    requires { Roomy at lent.now out.old }
    ensures { result ≤ length out.old }
{
    let next = number(&found, out, at);
    let found = found.unwrap_or(Closest {
        count: 0,
        differences: 0,
    });
    let space = counted(Shown::Bits, octets::first(lent, found.count), out, next);
    let end = numbers::next_decimal(found.differences as u64, out, space);
    octets::put_one(b'\n', out, end)
}

// The count and what was written.
fn counted(shown: Shown, part: &[u8], out: &mut [u8], at: usize) -> usize
    requires { at + 2 * length part.now + 23 ≤ length out.old }
    ensures { result ≤ at + 2 * length part.now + 23 }
{
    let space = numbers::next_decimal(part.len() as u64, out, at);
    let next = octets::put_one(b' ', out, space);
    shown::put(shown, part, out, next)
}
