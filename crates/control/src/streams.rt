// Three streams and the bits that they are sent as, both ways.
ghost use Rattle.std.specs.Prelude.{◌≡◌, true, ◌++◌, ◌+◌, ◌*◌, ◌≤◌, ◌<◌, length, take, drop};
ghost use Rattle.bits.specs.Bits.{AreBits};
ghost use Rattle.control.specs.Register.{streams};
ghost use Rattle.control.specs.Interleaver.{sent};
ghost use Rattle.control.specs.Back.{some_streams, streams_as};
ghost use Rattle.control.specs.Steps.Order.{collected};

use crate::order::{COLUMNS, first_place};
use crate::register;
use crate::three::put_three;
use bits::count::CodedBits;

// Writes the bits of three streams in the order in which they are sent, each once.
fn collect(d: usize, streams: &[u8], out: &mut [u8])
    requires { (0 < d) × (d ≤ 128) × (d + d + d ≤ length streams.now) × (d + d + d ≤ length out.old) }
    ensures { take (3 * d) out.new ≡ collected d streams.now }
{
    let mut n = 0;
    for c in &COLUMNS {
        for p in (first_place(d, *c)..d).step_by(32) {
            put_three(out, d, n, streams[p], streams[d + p], streams[d + d + p]);
            n += 1;
        }
    }
}

// Writes the e bits that three streams are sent as: the dummies are left out by the order, so no place is tested for a mark.
pub fn send(d: usize, streams: &[u8], e: CodedBits, out: &mut [u8])
    requires { (6 ≤ d) × (d ≤ 128) × (length streams.now ≡ d + d + d) × AreBits streams.now × (e.0 ≤ length out.old) }
    ensures { out.new ≡ sent d streams.now e.0 ++ drop e.0 out.old }
{
    let mut room = [0u8; 384];
    collect(d, streams, &mut room);
    matching::inner::match_filled(&room[..3 * d], 0, 0, 0, e, out);
}

// Writes the e bits that a word is sent as.
pub fn send_coded(word: &[u8], e: CodedBits, out: &mut [u8])
    requires { (6 ≤ length word.now) × (length word.now ≤ 128) × AreBits word.now × (e.0 ≤ length out.old) }
    ensures { out.new ≡ sent (length word.now) (streams word.now) e.0 ++ drop e.0 out.old }
{
    let mut room = [0u8; 384];
    register::put_streams(word, &mut room);
    let d = word.len();
    send(d, &room[..3 * d], e, out);
}

// Writes the three streams that are sent as the bits: each of the first 3d bits at its place.
// It walks as `collect` does: a table of the order for both makes the way back take 1.6 times as long, and what a closure writes to out a proof does not know.
pub fn put_back(d: usize, bits: &[u8], out: &mut [u8])
    requires { (6 ≤ d) × (d ≤ 128) × AreBits bits.now × (d + d + d ≤ length bits.now) × (d + d + d ≤ length out.old) × (some_streams d bits.now ≡ true) }
    ensures { out.new ≡ streams_as d bits.now ++ drop (d + d + d) out.old }
{
    let mut n = 0;
    for c in &COLUMNS {
        for p in (first_place(d, *c)..d).step_by(32) {
            put_three(out, d, p, bits[n], bits[d + n], bits[d + d + n]);
            n += 1;
        }
    }
}
