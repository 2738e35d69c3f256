// The command `send`: the bits that are sent of a tenant's block.
use crate::asked::Parameters;
use crate::shelves::Shelves;
use crate::{asked, calls, shelves};
use console::argv::Words;
use console::host::Host;
use console::{argv, files, help, status};
use text::octets;

// The names of the words, in their order.
const NAMES: &[u8] = b"--private\n--public\n--tenant\n--profile\n--layers\n--order\n--bits\n";

const HELP: &[u8] =
    b"usage: kuambyte send PRIVATE PUBLIC TENANT PROFILE LAYERS ORDER BITS [--rv N] [--edition N] [--text] [-o FILE] < block > bits

Reads a transport block of 1 to 2048 packed octets and writes the BITS bits that are sent of it.

  PRIVATE, PUBLIC   the shelf files; the tenant's own record goes before the public one
  TENANT, PROFILE   who asks, from 1, and for which profile number
  LAYERS            N_L, 1 to 4
  ORDER             Q_m, the bits of a symbol: 2, 4 or 6
  BITS              G, a multiple of N_L times Q_m up to 65536
  --rv N            the redundancy version, 0 to 3, which says from where each code block is sent; 0 where it is not given.
                    A profile of Type 1 takes 0 only
  --edition N       the edition, 1 or 2: in 2 each of several code blocks carries a checksum; 1 where it is not given
  --text            write bits as characters 0 and 1 with a line end behind, not as octets 0 and 1
  -o FILE           write to this file, and not to standard output; it is never half written

Words may also be given by name, in any order: --private PRIVATE --public PUBLIC --tenant TENANT --profile PROFILE
--layers LAYERS --order ORDER --bits BITS.
";

pub fn run(rt: &impl Host, words: Words) -> i32 {
    match asked(rt, words) {
        Some(asked) => read(rt, words.text, asked),
        None => help::say(rt, words.help, HELP),
    }
}

// What the words ask for, unless they ask for help or do not fit.
fn asked(rt: &impl Host, words: Words) -> Option<Parameters> {
    if words.help || !argv::fits(rt, NAMES, 7, b"--rv\n--edition\n--text\n-o\n") {
        return None;
    }
    asked::for_send(rt, NAMES)
}

fn read(rt: &impl Host, text: bool, asked: Parameters) -> i32 {
    let mut store = [0u8; shelves::STORE];
    match shelves::named(rt, NAMES, &mut store) {
        Some(shelves) => read_block(rt, text, asked, shelves),
        None => status::FAILED,
    }
}

fn read_block(rt: &impl Host, text: bool, asked: Parameters, shelves: Shelves) -> i32 {
    let mut block = files::block_room();
    match files::input(rt, false, &mut block) {
        Some(count) => answer(rt, text, asked, shelves, octets::first(&block, count)),
        None => status::FAILED,
    }
}

fn answer(rt: &impl Host, text: bool, asked: Parameters, shelves: Shelves, block: &[u8]) -> i32 {
    let mut bits = files::bits_room();
    let given = Parameters {
        octets: block.len(),
        ..asked
    };
    match calls::send(shelves, asked, block, &mut bits) {
        Ok(count) => write(rt, text, count, &mut bits),
        Err(refusal) => shelves::refuse(rt, refusal, given, shelves),
    }
}

fn write(rt: &impl Host, text: bool, count: usize, bits: &mut [u8]) -> i32 {
    let n = if text {
        files::as_text(bits, count)
    } else {
        count
    };
    files::write(rt, octets::first(bits, n))
}
