// The requests there are: the form of each, and the module that answers it.
ghost use Rattle.std.specs.Prelude.{◌≤◌, ◌≡◌, length};
ghost use Rattle.text.specs.Words.{Held};

use crate::answers::Answer;
use crate::{
    check, crc, crc24b, crcappend, crcm, crcoct, crctest, encode, hcheck, hrecv, hsend, judge,
    lookup, near, plan, put, rate, recv, remove, send, sums, tbback, tbenc, tbrm, tbsend,
};
use text::faults::Fault;
use text::forms;
use text::forms::{Given, WORDS};
use text::octets::find_near;

// A request's name gives its kind, which has its form, and `of_kind` its module. `records` and `bits` take the octets that the words of a request
// hold, a record, packed octets or a private shelf in the first half of `records` and a public shelf, or
// the record that is put on the private one, in the second; `lent` is the output of the call that it
// asks for.
pub fn answer(request: &[u8], records: &mut [u8], bits: &mut [u8], lent: &mut [u8]) -> Answer {
    let end = find_near(request, 0, b' ');
    match Kind::of_name(&request[..end]) {
        Some(kind) => of_form(kind, request, records, bits, lent),
        None => Answer::Error(Fault::Request),
    }
}

#[derive(Clone, Copy)]
enum Kind {
    Crc,
    Crc24b,
    Crcoct,
    Crcm,
    Crcappend,
    Crctest,
    Profile,
    Plan,
    Encode,
    Check,
    Sums,
    Rate,
    Send,
    Recv,
    Lookup,
    Hsend,
    Hrecv,
    Hcheck,
    Put,
    Remove,
    Tbenc,
    Tbrm,
    Tbsend,
    Tbback,
    Near,
}

impl Kind {
    fn of_name(name: &[u8]) -> Option<Self> {
        match name {
            b"crc" => Some(Kind::Crc),
            b"crc24b" => Some(Kind::Crc24b),
            b"crcoct" => Some(Kind::Crcoct),
            b"crcm" => Some(Kind::Crcm),
            b"crcappend" => Some(Kind::Crcappend),
            b"crctest" => Some(Kind::Crctest),
            b"profile" => Some(Kind::Profile),
            b"plan" => Some(Kind::Plan),
            b"encode" => Some(Kind::Encode),
            b"check" => Some(Kind::Check),
            b"sums" => Some(Kind::Sums),
            b"rate" => Some(Kind::Rate),
            b"send" => Some(Kind::Send),
            b"recv" => Some(Kind::Recv),
            b"lookup" => Some(Kind::Lookup),
            b"hsend" => Some(Kind::Hsend),
            b"hrecv" => Some(Kind::Hrecv),
            b"hcheck" => Some(Kind::Hcheck),
            b"put" => Some(Kind::Put),
            b"remove" => Some(Kind::Remove),
            b"tbenc" => Some(Kind::Tbenc),
            b"tbrm" => Some(Kind::Tbrm),
            b"tbsend" => Some(Kind::Tbsend),
            b"tbback" => Some(Kind::Tbback),
            b"near" => Some(Kind::Near),
            _ => None,
        }
    }

    fn form(self) -> &'static [u8] {
        match self {
            Kind::Crc => b"crc WIDTH BITS",
            Kind::Crc24b => b"crc24b BITS",
            Kind::Crcoct => b"crcoct WIDTH PACKED",
            Kind::Crcm => b"crcm WIDTH MASK BITS",
            Kind::Crcappend => b"crcappend WIDTH MASK BITS OUTLEN",
            Kind::Crctest => b"crctest WIDTH MASK BITS",
            Kind::Profile => b"profile RECORD",
            Kind::Plan => b"plan RECORD OCTETS",
            Kind::Encode => b"encode RECORD Z PLACES OUTLEN",
            Kind::Check => b"check RECORD Z BITS",
            Kind::Sums => b"sums RECORD Z BITS OUTLEN",
            Kind::Rate => b"rate E PLACES OUTLEN",
            Kind::Send => b"send RECORD BLOCK NL QM G OUTLEN",
            Kind::Recv => b"recv RECORD A NL QM BITS OUTLEN",
            Kind::Lookup => b"lookup PRIVATE PUBLIC TENANT PROFILE",
            Kind::Hsend => b"hsend PRIVATE PUBLIC TENANT PROFILE BLOCK NL QM G OUTLEN",
            Kind::Hrecv => b"hrecv PRIVATE PUBLIC TENANT PROFILE A NL QM BITS OUTLEN",
            Kind::Hcheck => b"hcheck PRIVATE PUBLIC TENANT PROFILE Z BITS",
            Kind::Put => b"put PRIVATE TENANT PROFILE ADDED OUTLEN",
            Kind::Remove => b"remove PRIVATE TENANT PROFILE OUTLEN",
            Kind::Tbenc => b"tbenc BITS OUTLEN",
            Kind::Tbrm => b"tbrm D STREAMS E OUTLEN",
            Kind::Tbsend => b"tbsend BITS E OUTLEN",
            Kind::Tbback => b"tbback D BITS OUTLEN",
            Kind::Near => b"near D STREAMS OUTLEN",
        }
    }

    // The optional words and their defaults, which stand behind the others.
    fn optional(self) -> &'static [u8] {
        match self {
            Kind::Plan => b" ed=1",
            Kind::Check | Kind::Hcheck => b" by=quick|plain",
            Kind::Rate => b" type=1 rv=0",
            Kind::Send | Kind::Hsend => b" rv=0 ed=1",
            Kind::Recv | Kind::Hrecv => b" rv=0 ed=1 by=quick|plain",
            _ => b"",
        }
    }
}

fn of_form(
    kind: Kind,
    request: &[u8],
    records: &mut [u8],
    bits: &mut [u8],
    lent: &mut [u8],
) -> Answer {
    let mut numbers = [0usize; WORDS];
    match forms::read(
        kind.form(),
        kind.optional(),
        request,
        &mut numbers,
        records,
        bits,
        lent.len(),
    ) {
        Ok(given) => of_given(kind, &numbers, given, records, bits, lent),
        Err(why) => Answer::Error(why),
    }
}

// Lends each call what the words filled and no more.
fn of_given(
    kind: Kind,
    numbers: &[usize; WORDS],
    given: Given,
    records: &[u8],
    bits: &[u8],
    lent: &mut [u8],
) -> Answer
    requires { Held given records.now bits.now (length lent.old) }
{
    let half = records.len() / 2;
    let r = given.record;
    let p = given.public;
    let b = given.bits;
    let n = given.lent;
    of_kind(
        kind,
        numbers,
        &records[0..r],
        &records[half..half + p],
        &bits[0..b],
        &mut lent[0..n],
    )
}

// `first` is RECORD, PACKED or PRIVATE, and `second` PUBLIC or ADDED; each is empty where the form has none of them.
fn of_kind<'a>(
    kind: Kind,
    numbers: &[usize; WORDS],
    first: &'a [u8],
    second: &'a [u8],
    bits: &[u8],
    lent: &mut [u8],
) -> Answer {
    match kind {
        Kind::Crc => crc::answer(numbers, bits),
        Kind::Crc24b => crc24b::answer(bits),
        Kind::Crcoct => crcoct::answer(numbers, first),
        Kind::Crcm => crcm::answer(numbers, bits),
        Kind::Crcappend => crcappend::answer(numbers, bits, lent),
        Kind::Crctest => crctest::answer(numbers, bits),
        Kind::Profile => judge::answer(first),
        Kind::Plan => plan::answer(numbers, first),
        Kind::Encode => encode::answer(numbers, first, bits, lent),
        Kind::Check => check::answer(numbers, first, bits),
        Kind::Sums => sums::answer(numbers, first, bits, lent),
        Kind::Rate => rate::answer(numbers, bits, lent),
        Kind::Send => send::answer(numbers, first, bits, lent),
        Kind::Recv => recv::answer(numbers, first, bits, lent),
        Kind::Lookup => lookup::answer(numbers, first, second),
        Kind::Hsend => hsend::answer(numbers, first, second, bits, lent),
        Kind::Hrecv => hrecv::answer(numbers, first, second, bits, lent),
        Kind::Hcheck => hcheck::answer(numbers, first, second, bits),
        Kind::Put => put::answer(numbers, first, second, lent),
        Kind::Remove => remove::answer(numbers, first, lent),
        Kind::Tbenc => tbenc::answer(bits, lent),
        Kind::Tbrm => tbrm::answer(numbers, bits, lent),
        Kind::Tbsend => tbsend::answer(numbers, bits, lent),
        Kind::Tbback => tbback::answer(numbers, bits, lent),
        Kind::Near => near::answer(numbers, bits, lent),
    }
}
