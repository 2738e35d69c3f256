// The commands of control words. Here is `control`: a control word is sent, or what was sent of one is received.
#![tactic(auto)]

pub mod near;
mod receive;
mod refusal;
mod send;

use console::argv::Words;
use console::host::Host;
use console::{argv, help, page};
use text::octets;

// The names of the words. The second or the third stands behind KIND, by what that is.
const NAMES: &[u8] = b"--kind\n--bits\n--length\n";

const HELP: &[u8] = b"usage: kuambyte control send BITS | receive LENGTH [--text] [-o FILE]

kuambyte control send BITS < word > bits reads a control word of 6 to 128 bits and writes the BITS bits that it is sent as: its three
streams, one behind the other, each in the order of 32 columns, and again from the first bit on where BITS is more than they have.

kuambyte control receive LENGTH < bits > streams reads the bits that a word of LENGTH bits was sent as, three times LENGTH or more, and
writes its three streams whole, one after the other, in the order of their generators 133, 171 and 165.

  KIND      send or receive
  BITS      E, the bits that are sent: 1 to 65536
  LENGTH    D, the bits of the word: 6 to 128
  --text    read and write bits as characters 0 and 1, line ends skipped and each stream on a line of its own, not as octets 0 and 1
  -o FILE   write to this file, and not to standard output; it is never half written

Words may also be given by name, in any order: --kind send --bits BITS, or --kind receive --length LENGTH.
";

pub fn run(rt: &impl Host, words: Words) -> i32 {
    if words.help {
        return help::say(rt, true, HELP);
    }
    let mut word = io::buffer();
    let n = argv::read(rt, argv::place(rt, NAMES, b"--kind"), &mut word);
    of_kind(rt, words, &word[..n])
}

fn of_kind(rt: &impl Host, words: Words, kind: &[u8]) -> i32 {
    match kind {
        b"send" => send::run(rt, words),
        b"receive" => receive::run(rt, words),
        _ => other(rt, kind),
    }
}

// A word that is neither, or is missing.
fn other(rt: &impl Host, kind: &[u8]) -> i32 {
    if argv::fits(rt, NAMES, 1, b"--text\n-o\n") {
        let mut line = io::buffer();
        let a = page::put(b"kuambyte: KIND is send or receive, and '", &mut line, 0);
        let b = page::put(octets::first(kind, 100), &mut line, a);
        let c = page::put(b"' is neither\n", &mut line, b);
        rt.say(octets::first(&line, c));
    }
    help::say(rt, false, HELP)
}
