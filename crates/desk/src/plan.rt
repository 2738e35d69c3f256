// The command `plan`: how a block is cut, as a table.
ghost use Rattle.std.specs.Prelude.{◌≡◌};
ghost use Rattle.cutting.specs.Promises.{done_plan, planned};
ghost use Rattle.desk.specs.Parts.{PartOf};

use bits::number::Refusal;
use console::argv::Words;
use console::host::Host;
use console::{argv, files, help, page, status};
use cutting::Plan;
use hosted::asked::Parameters;
use hosted::{asked, calls, least, refusal};
use text::octets;

// The names of the words, in their order.
const NAMES: &[u8] = b"--record\n--octets\n--layers\n--order\n";

const HELP: &[u8] = b"usage: kuambyte plan RECORD OCTETS [LAYERS [ORDER]] [--edition N] [-o FILE]

Writes how a transport block of OCTETS octets is cut: B, C, z and K, each code block's own bits, filler and N, the least G with
which every code block has room for all its coded bits, and the blocks' shares of that G; where code blocks carry a checksum
each, also its bits, and with a profile of Type 2 the places of a code block from which its redundancy versions are sent.

  RECORD        a file with a profile record, as kuambyte lookup writes it
  OCTETS        A/8, the octets of the block: 1 to 2048
  LAYERS        N_L, 1 to 4; 1 where it is not given
  ORDER         Q_m, the bits of a symbol: 2, 4 or 6; 2 where it is not given
  --edition N   the edition, 1 or 2: in 2 each of several code blocks carries a checksum; 1 where it is not given
  -o FILE       write to this file, and not to standard output; it is never half written

Words may also be given by name, in any order: --record RECORD --octets OCTETS --layers LAYERS --order ORDER.
";

pub fn run(rt: &impl Host, words: Words) -> i32 {
    match asked(rt, words) {
        Some(asked) => read(rt, asked),
        None => help::say(rt, words.help, HELP),
    }
}

// What the words ask for, unless they ask for help or do not fit.
fn asked(rt: &impl Host, words: Words) -> Option<Parameters> {
    if words.help || !argv::fits(rt, NAMES, 2, b"--edition\n-o\n") {
        return None;
    }
    asked::for_plan(rt, NAMES)
}

fn read(rt: &impl Host, asked: Parameters) -> i32 {
    let mut record = io::large_buffer();
    match files::named(rt, NAMES, b"--record", &mut record) {
        Some(count) => answer(rt, octets::first(&record, count), asked),
        None => status::FAILED,
    }
}

// The refusals of the least G go first: 8 stands before 9. Where no G has room, the cutting is shown all the same.
fn answer(rt: &impl Host, record: &[u8], asked: Parameters) -> i32 {
    match calls::least(record, asked) {
        Ok(_) | Err(Refusal::NoRoom) => answer_plan(rt, record, asked),
        Err(refusal) => refusal::write(rt, refusal, record, asked),
    }
}

fn answer_plan(rt: &impl Host, record: &[u8], asked: Parameters) -> i32 {
    match cutting::plan_block(record, asked.terms.edition, asked.octets) {
        Ok(plan) => write(rt, record, plan, asked),
        Err(refusal) => refusal::write(rt, refusal, record, asked),
    }
}

fn write(rt: &impl Host, record: &[u8], plan: Plan, asked: Parameters) -> i32
    requires { done_plan plan ≡ planned record.now asked.terms.edition asked.octets }
{
    let mut page = io::large_buffer();
    let n = put(record, plan, asked, &mut page);
    files::write(rt, octets::first(&page, n))
}

fn put(profile: &[u8], plan: Plan, asked: Parameters, page: &mut [u8]) -> usize
    requires { done_plan plan ≡ planned profile.now asked.terms.edition asked.octets }
{
    let a = head(plan, page);
    let b = rows(profile, plan, asked, page, a);
    let c = starts(profile, plan, asked, page, b);
    foot(profile, asked, page, c)
}

// Where code blocks carry no checksum, there is no column for it.
fn head(plan: Plan, page: &mut [u8]) -> usize {
    let numbers = [plan.bits, plan.blocks, plan.z, plan.places];
    if plan.sums == 0 {
        return page::form(
            b"B #  C #  z #  K #\n\nblock  own bits  filler     N\n",
            &numbers,
            page,
            0,
        );
    }
    page::form(
        b"B #  C #  z #  K #\n\nblock  own bits  checksum  filler     N\n",
        &numbers,
        page,
        0,
    )
}

fn rows(profile: &[u8], plan: Plan, asked: Parameters, page: &mut [u8], from: usize) -> usize
    requires { done_plan plan ≡ planned profile.now asked.terms.edition asked.octets }
{
    let mut at = from;
    for r in 0..plan.blocks {
        let part = part_of(profile, plan, asked, r);
        at = row(r + 1, part, page, at);
    }
    at
}

// What one code block has of a transport block.
#[derive(Clone, Copy)]
pub struct Part {
    pub own: usize,
    // L, the bits of its checksum, 0 where it carries none.
    pub sums: usize,
    pub filler: usize,
    // N, the coded places less the filler.
    pub sendable: usize,
}

// Block r's part, counted from 0.
fn part_of(profile: &[u8], plan: Plan, asked: Parameters, r: usize) -> Part
    requires { done_plan plan ≡ planned profile.now asked.terms.edition asked.octets }
    ensures { PartOf profile.now asked.terms.edition asked.octets r result }
{
    let own = cutting::inner::own_bits(plan.bits, plan.blocks, r);
    let carried = own + plan.sums;
    let filler = plan.places - carried;
    let sendable = coding::inner::sendable(profile, plan, r);
    Part {
        own,
        sums: plan.sums,
        filler,
        sendable: sendable.0,
    }
}

fn row(number: usize, part: Part, page: &mut [u8], at: usize) -> usize {
    let a = page::right(number, 5, page, at);
    let b = page::right(part.own, 10, page, a);
    let c = put_sum(part.sums, page, b);
    let d = page::right(part.filler, 8, page, c);
    let e = page::right(part.sendable, 6, page, d);
    page::put(b"\n", page, e)
}

// Puts the bits of a checksum in its column, where there is one.
fn put_sum(sums: usize, page: &mut [u8], at: usize) -> usize {
    if sums == 0 {
        return at;
    }
    page::right(sums, 10, page, at)
}

// From where each redundancy version is sent. Type 1 has only the first.
fn starts(profile: &[u8], plan: Plan, asked: Parameters, page: &mut [u8], at: usize) -> usize
    requires { done_plan plan ≡ planned profile.now asked.terms.edition asked.octets }
{
    if profile::inner::kind(profile) == 1 {
        return at;
    }
    let places = block::inner::size(profile, plan);
    let one = block::inner::start(profile, plan, 1);
    let two = block::inner::start(profile, plan, 2);
    let three = block::inner::start(profile, plan, 3);
    page::form(
        b"\nrv 0 to 3 start at the places 0, #, # and # of #\n",
        &[one, two, three, places],
        page,
        at,
    )
}

fn foot(profile: &[u8], asked: Parameters, page: &mut [u8], at: usize) -> usize {
    let a = page::form(
        b"\nwith N_L # and Q_m #, ",
        &[asked.terms.nl, asked.terms.qm],
        page,
        at,
    );
    let b = least::put(profile, asked, b" room", page, a);
    page::put(b"\n", page, b)
}
