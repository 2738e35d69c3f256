// The command `receive`: the block that was sent as a tenant's bits.
use crate::asked::Parameters;
use crate::shelves::Shelves;
use crate::{asked, calls, shelves};
use bits::count::CodedBits;
use checking::Checker;
use console::argv::Words;
use console::host::Host;
use console::{argv, files, help, status};
use text::octets;

// The names of the words, in their order.
const NAMES: &[u8] = b"--private\n--public\n--tenant\n--profile\n--octets\n--layers\n--order\n";

const HELP: &[u8] =
    b"usage: kuambyte receive PRIVATE PUBLIC TENANT PROFILE OCTETS LAYERS ORDER [--rv N] [--edition N] [--plain] [--text] [-o FILE] < bits > block

Reads the bits that were sent of a transport block of OCTETS octets and writes the block. How many bits there are is G.

  PRIVATE, PUBLIC   the shelf files; the tenant's own record goes before the public one
  TENANT, PROFILE   who asks, from 1, and for which profile number
  OCTETS            A/8, the octets of the block: 1 to 2048
  LAYERS            N_L, 1 to 4
  ORDER             Q_m, the bits of a symbol: 2, 4 or 6
  --rv N            the redundancy version that the bits were sent with, 0 to 3; 0 where it is not given
  --edition N       the edition that the bits were sent in, 1 or 2; 1 where it is not given
  --plain           ask the plain parity checker, which goes through the matrix element by element; it says the same
  --text            read bits as characters 0 and 1, line ends skipped, not as octets 0 and 1
  -o FILE           write to this file, and not to standard output; it is never half written

Words may also be given by name, in any order: --private PRIVATE --public PUBLIC --tenant TENANT --profile PROFILE
--octets OCTETS --layers LAYERS --order ORDER.
";

pub fn run(rt: &impl Host, words: Words) -> i32 {
    match asked(rt, words) {
        Some(asked) => read(rt, words, asked),
        None => help::say(rt, words.help, HELP),
    }
}

// What the words ask for, unless they ask for help or do not fit.
fn asked(rt: &impl Host, words: Words) -> Option<Parameters> {
    if words.help || !argv::fits(rt, NAMES, 7, b"--rv\n--edition\n--plain\n--text\n-o\n") {
        return None;
    }
    asked::for_receive(rt, NAMES)
}

fn read(rt: &impl Host, words: Words, asked: Parameters) -> i32 {
    let mut store = [0u8; shelves::STORE];
    match shelves::named(rt, NAMES, &mut store) {
        Some(shelves) => read_bits(rt, words, asked, shelves),
        None => status::FAILED,
    }
}

fn read_bits(rt: &impl Host, words: Words, asked: Parameters, shelves: Shelves) -> i32 {
    let mut bits = files::bits_room();
    let Some(count) = files::input(rt, words.text, &mut bits) else {
        return status::FAILED;
    };
    let checker = calls::checker(words.plain);
    answer(rt, asked, checker, shelves, octets::first(&bits, count))
}

fn answer(
    rt: &impl Host,
    asked: Parameters,
    checker: Checker,
    shelves: Shelves,
    bits: &[u8],
) -> i32 {
    let mut block = files::block_room();
    let given = Parameters {
        g: CodedBits(bits.len()),
        ..asked
    };
    match calls::receive(shelves, asked, bits, checker, &mut block) {
        Ok(count) => files::write(rt, octets::first(&block, count)),
        Err(refusal) => shelves::refuse(rt, refusal, given, shelves),
    }
}
