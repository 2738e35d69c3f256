// The register of six bits, the newest highest, preset to the last six input bits, and its three outputs (004, section 5.1.3.1).
ghost use Rattle.std.specs.Prelude.{◌≡◌, ◌++◌, ◌+◌, ◌*◌, ◌<◌, ◌≤◌, length, drop};
ghost use Rattle.bits.specs.Bits.{AreBits};
ghost use Rattle.control.specs.Register.{preset, streams};

use crate::inner::output;
use crate::three::put_three;

// A bit above the six of a state.
fn above(x: u8, s: u32) -> u32
    requires { (x < 2) × (s < 64) }
    ensures { (result ≡ x * 64 + s) × (result < 128) }
{
    u32::from(x) * 64 + s
}

// The state after the last six bits.
fn preset(word: &[u8]) -> u32
    requires { (6 ≤ length word.now) × AreBits word.now }
    ensures { (result ≡ preset word.now) × (result < 64) }
{
    let mut s = 0;
    for x in &word[word.len() - 6..] {
        s = above(*x, s) / 2;
    }
    s
}

// Writes the three streams, one behind the other, of the generators 133, 171 and 165 octal.
pub fn put_streams(word: &[u8], out: &mut [u8])
    requires { (6 ≤ length word.now) × AreBits word.now × (length word.now + length word.now + length word.now ≤ length out.old) }
    ensures { out.new ≡ streams word.now ++ drop (length word.now + length word.now + length word.now) out.old }
{
    let d = word.len();
    let mut s = preset(word);
    for (k, bit) in word.iter().enumerate() {
        let r = above(*bit, s);
        let x = output(0o133, r);
        let y = output(0o171, r);
        let z = output(0o165, r);
        put_three(out, d, k, x, y, z);
        s = r / 2;
    }
}
