// Sends octet 01 by the toy profile of document 02, CR 3, and prints the 128 radio bits as packed octets in one line.
#![tactic(auto)]

ghost use Rattle.std.specs.Prelude.{◌≡◌, ◌<◌, length};
ghost use Rattle.bits.specs.Bits.{AreBits};

use bits::count::{CodedBits, Terms};
use bits::number::Refusal;
use std::io::Error;

fn digit(x: u8) -> u8
    requires { x < 16 }
{
    if x < 10 {
        return b'0' + x;
    }
    b'A' + (x - 10)
}

// The high half of an octet, and the low one.
fn print_octet(rt: &impl Print, x: u8) -> Result<(), Error> {
    let text = [digit(x >> 4), digit(x & 15)];
    rt.write_all(&text)
}

fn print_octets(rt: &impl Print, octets: &[u8]) -> Result<(), Error> {
    for (i, octet) in octets.iter().enumerate() {
        if i > 0 {
            rt.write_all(b" ")?;
        }
        print_octet(rt, *octet)?;
    }
    rt.write_all(b"\n")
}

fn print_packed(rt: &impl Print, bits: &[u8]) -> Result<(), Error>
    requires { (128 ≡ length bits.now) × AreBits bits.now }
{
    let mut octets = [0u8; 16];
    bits::inner::pack(bits, &mut octets, 16);
    print_octets(rt, &octets)
}

fn print_refused(rt: &impl Print, refusal: Refusal) -> Result<(), Error> {
    let number = refusal.number();
    println!(rt; "refused {number}")
}

fn main(rt: HostRuntime) -> Result<(), Error> {
    let profile =
        b"\x00\x01\x00\x03\x00\x00\x00\x01\x00\x01\x00\x02\x00\x0e\x00\x01\x00\xff\x01\x00\x00\x00\xff\x01\xff\x00";
    let block = b"\x01";
    let mut out = [0u8; 128];
    let terms = Terms {
        nl: 1,
        qm: 2,
        rv: 0,
        edition: 1,
    };
    match coding::send(profile, block, terms, CodedBits(128), &mut out) {
        Ok(_) => print_packed(&rt, &out),
        Err(refusal) => print_refused(&rt, refusal),
    }
}
