// Sending transport bits: each block's bits straight into its own stretch of the output.
ghost use Rattle.std.specs.Prelude.{◌≡◌, ◌++◌, ◌≤◌, drop};
ghost use Rattle.block.specs.Steps.Blocks.{word_size, Fits};
ghost use Rattle.coding.specs.Joining.{radio_bits};
ghost use Rattle.coding.specs.Steps.Sending.{version_start, Sendable};

use crate::inner;
use bits::count::{CodedBits, Terms};
use cutting::Plan;

// So many places are a short coded block: 24 columns of the largest z. It is given less room, so that no more is cleared than it takes.
pub const FEW: usize = 1944;

// Writes the blocks one behind the other, each from the place `from` of its coded word on; `word` is room for one.
fn send_blocks(
    profile: &[u8],
    plan: Plan,
    bits: &[u8],
    terms: Terms,
    g: CodedBits,
    from: usize,
    word: &mut [u8],
    out: &mut [u8],
)
    requires { Sendable profile.now plan bits.now terms g.0 out.old × (from ≡ version_start profile.now plan.bits terms) × Fits profile.now plan word.old }
    ensures { out.new ≡ radio_bits profile.now plan.bits bits.now terms g.0 ++ drop g.0 out.old }
{
    let b = plan.bits;
    let c = plan.blocks;
    let mut start = 0;
    let mut at = 0;
    for r in 0..c {
        let own = cutting::inner::own_bits(b, c, r);
        let e = inner::share_of(terms, g, c, r);
        block::inner::send_block(
            profile,
            plan,
            bits,
            start,
            own,
            from,
            e,
            word,
            &mut out[at..],
        );
        start += own;
        at += e.0;
    }
}

// Sends transport bits, with room for one coded block of its own, of N places at most.
fn send_in<const N: usize>(
    profile: &[u8],
    plan: Plan,
    bits: &[u8],
    terms: Terms,
    g: CodedBits,
    out: &mut [u8],
)
    requires { Sendable profile.now plan bits.now terms g.0 out.old × (word_size profile.now plan ≤ N) × (N ≤ 4860) }
    ensures { out.new ≡ radio_bits profile.now plan.bits bits.now terms g.0 ++ drop g.0 out.old }
{
    let n = block::inner::size(profile, plan);
    let from = block::inner::start(profile, plan, terms.rv);
    let mut word = [0u8; N];
    send_blocks(profile, plan, bits, terms, g, from, &mut word[..n], out)
}

// The longest coded block has 4860 places.
pub fn send_bits(
    profile: &[u8],
    plan: Plan,
    bits: &[u8],
    terms: Terms,
    g: CodedBits,
    out: &mut [u8],
)
    requires { Sendable profile.now plan bits.now terms g.0 out.old }
    ensures { out.new ≡ radio_bits profile.now plan.bits bits.now terms g.0 ++ drop g.0 out.old }
{
    if block::inner::size(profile, plan) <= FEW {
        return send_in::<FEW>(profile, plan, bits, terms, g, out);
    }
    send_in::<4860>(profile, plan, bits, terms, g, out)
}
