// Receiving: every block's stretch is gathered into a word and tested in turn, its own checksum with it, and the word's own bits are kept.
ghost use Rattle.std.specs.Prelude.{◌≡◌, ◌≤◌, length};
ghost use Rattle.block.specs.Steps.Blocks.{word_size, Fits};
ghost use Rattle.coding.specs.Steps.Sending.{version_start};
ghost use Rattle.coding.specs.Steps.Receiving.{ReceivablePlan, Rebuilt};

use crate::inner;
use crate::sending::FEW;
use bits::count::{CodedBits, Terms};
use checking::Checker;
use cutting::Plan;

// Whether transport bits are sent as these bits, each block from the place `from` of its coded word on.
// The transport bits are laid in front of `room` on the way; `word` is room for one coded block.
fn rebuild(
    profile: &[u8],
    plan: Plan,
    bits: &[u8],
    terms: Terms,
    from: usize,
    checker: Checker,
    word: &mut [u8],
    room: &mut [u8],
) -> bool
    requires { ReceivablePlan profile.now terms bits.now plan × (from ≡ version_start profile.now plan.bits terms) × Fits profile.now plan word.old × (plan.bits ≤ length room.old) }
    ensures { Rebuilt profile.now terms bits.now plan.bits result room.new }
{
    let g = CodedBits(bits.len());
    let b = plan.bits;
    let c = plan.blocks;
    let mut start = 0;
    let mut at = 0;
    for r in 0..c {
        let own = cutting::inner::own_bits(b, c, r);
        let e = inner::share_of(terms, g, c, r);
        if !block::inner::is_received(
            profile,
            plan,
            &bits[at..at + e.0],
            own,
            from,
            checker,
            word,
        ) {
            return false;
        }
        bits::inner::lay(word, 0, room, start, own);
        start += own;
        at += e.0;
    }
    true
}

// The same with room for one coded block of its own, of N places at most.
fn rebuild_in<const N: usize>(
    profile: &[u8],
    plan: Plan,
    bits: &[u8],
    terms: Terms,
    checker: Checker,
    room: &mut [u8],
) -> bool
    requires { ReceivablePlan profile.now terms bits.now plan × (plan.bits ≤ length room.old) × (word_size profile.now plan ≤ N) × (N ≤ 4860) }
    ensures { Rebuilt profile.now terms bits.now plan.bits result room.new }
{
    let n = block::inner::size(profile, plan);
    let from = block::inner::start(profile, plan, terms.rv);
    let mut word = [0u8; N];
    rebuild(
        profile,
        plan,
        bits,
        terms,
        from,
        checker,
        &mut word[..n],
        room,
    )
}

// The longest coded block has 4860 places.
pub fn rebuild_bits(
    profile: &[u8],
    plan: Plan,
    bits: &[u8],
    terms: Terms,
    checker: Checker,
    room: &mut [u8],
) -> bool
    requires { ReceivablePlan profile.now terms bits.now plan × (plan.bits ≤ length room.old) }
    ensures { Rebuilt profile.now terms bits.now plan.bits result room.new }
{
    if block::inner::size(profile, plan) <= FEW {
        return rebuild_in::<FEW>(profile, plan, bits, terms, checker, room);
    }
    rebuild_in::<4860>(profile, plan, bits, terms, checker, room)
}
