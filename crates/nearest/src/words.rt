// Words of bits, one to an octet, the first one highest.
ghost use Rattle.std.specs.Prelude.{◌≡◌, ◌≤◌, length, take};
ghost use Rattle.bits.specs.Bits.{AreBits};
ghost use Rattle.nearest.specs.Steps.Trellis.{beats};
ghost use Rattle.nearest.specs.Steps.Rows.{Kept};

// Whether the cost v and the word of d bits come before the best so far, whose word stands in out: words of as many bits are in the order of their numbers.
#[tactic(auto, unfolding(crate::specs::Steps::Trellis::beats))]
fn is_better(d: usize, best: u16, out: &[u8], v: u16, word: &[u8]) -> bool
    requires { (d ≤ length out.now) × (d ≤ length word.now) × AreBits (take d out.now) × AreBits (take d word.now) }
    ensures { result ≡ beats best (take d out.now) v (take d word.now) }
{
    v < best || (v == best && word[..d] < out[..d])
}

// Keeps the better of the best so far, whose word stands in out, and the cost v with its word.
pub fn keep(d: usize, best: u16, out: &mut [u8], v: u16, word: &[u8]) -> u16
    requires { (d ≤ length out.old) × (d ≤ length word.now) × AreBits (take d out.old) × AreBits (take d word.now) }
    ensures { Kept d best out.old v word.now result out.new }
{
    if is_better(d, best, out, v, word) {
        out[..d].copy_from_slice(&word[..d]);
        return v;
    }
    best
}
