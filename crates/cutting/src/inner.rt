// For the layers above, which have judged the profile once: the plan of a block, its transport bits, and a block's own bits and places.
ghost use Rattle.std.specs.Prelude.{◌≡◌, ◌+◌, ◌*◌, ◌≤◌, ◌<◌, length, take, drop};
ghost use Rattle.std.proofs.lemmas.List.Edits.{sets};
ghost use Rattle.bits.specs.Bits.{AreBits, packed};
ghost use Rattle.profile.specs.Promises.{judged};
ghost use Rattle.cutting.specs.Plan.{block_bits, own_bits};
ghost use Rattle.cutting.specs.Transport.{transport};
ghost use Rattle.cutting.specs.Cutting.{with_sum};
ghost use Rattle.cutting.specs.Promises.{planned, answer_planned};
ghost use Rattle.cutting.specs.Steps.Plans.{checked, IsSum, sum_holds, Placed};

use crate::{Plan, cut};
use bits::number::Refusal;

// A block's own bits.
pub fn own_bits(bits: usize, blocks: usize, r: usize) -> usize
    requires { (bits ≤ 16408) × (0 < blocks) × (blocks ≤ 64) }
    ensures { result ≡ own_bits bits blocks r }
{
    let more = cut::ceil(bits, blocks);
    let less = bits / blocks;
    if r < bits % blocks {
        return more;
    }
    less
}

// How a block of so many octets is cut by a profile that was judged already. Where a checksum would fill a block, Kmax less L is no divisor, so that is tested
// first.
pub fn plan_accepted(profile: &[u8], edition: usize, octets: usize) -> Result<Plan, Refusal>
    requires { judged profile.now ≡ 0 }
    ensures { answer_planned result ≡ planned profile.now edition octets }
{
    if cut::is_other_edition(edition) {
        return Err(Refusal::Edition);
    }
    if !bits::inner::is_within(1, 2048, octets) {
        return Err(Refusal::BlockLength);
    }
    let bits = 8 * octets + 24;
    let kmax = cut::kmax(profile);
    let sums = cut::sums(edition, bits, kmax);
    if kmax <= sums {
        return Err(Refusal::TooManyBlocks);
    }
    let blocks = cut::count(bits, kmax, sums);
    if 64 < blocks {
        return Err(Refusal::TooManyBlocks);
    }
    Ok(cut::cutting(profile, bits, kmax, sums, blocks))
}

// Lays the transport bits of a block, its bits and their checksum, in front of `bits`. "The data path passes zero" for the mask.
pub fn attach(block: &[u8], bits: &mut [u8])
    requires { (length block.now ≤ 2048) × (block_bits (length block.now) ≤ length bits.old) }
    ensures { bits.new ≡ sets bits.old 0 (transport block.now) }
{
    checksum::inner::attach(block, 24, 0, bits);
}

// Packs the octets of transport bits in front of `block`, and says whether the bits behind theirs are their checksum. Packed first, they are summed
// an octet at a time.
pub fn detach(bits: &[u8], octets: usize, block: &mut [u8]) -> bool
    requires { AreBits bits.now × (length bits.now ≡ block_bits octets) × (octets ≤ length block.old) }
    ensures { (result ≡ checked bits.now) × (block.new ≡ sets block.old 0 (packed octets bits.now)) }
{
    bits::inner::pack(bits, block, octets);
    checksum::inner::is_attached(bits, &block[..octets], 24, 0)
}

// Writes the checksum of a block's own bits behind them, where it has one.
fn lay_sum(word: &mut [u8], own: usize, sums: usize)
    requires { (own + sums ≤ length word.old) × IsSum sums × AreBits (take own word.old) }
    ensures { take (own + sums) word.new ≡ with_sum sums (take own word.old) }
{
    if sums != 0 {
        blocksum::inner::append(word, own);
    }
}

// Lays what a block carries in front of the word, its own bits and their checksum, and filler behind it.
pub fn lay_block(bits: &[u8], start: usize, own: usize, sums: usize, places: usize, word: &mut [u8])
    requires { (start + own ≤ length bits.now) × (own + sums ≤ places) × (places ≤ length word.old) × IsSum sums × AreBits bits.now }
    ensures { Placed places (with_sum sums (take own (drop start bits.now))) word.old word.new }
{
    let carried = own + sums;
    bits::inner::lay(bits, start, word, 0, own);
    lay_sum(word, own, sums);
    bits::inner::mark(word, carried, places);
}

// Whether what a block carries ends with the checksum of its own bits, where it has one.
#[tactic(auto, unfolding(crate::specs::Steps::Plans::sum_holds))]
pub fn sum_holds(carried: &[u8], sums: usize) -> bool
    requires { (sums ≤ length carried.now) × IsSum sums × AreBits carried.now }
    ensures { result ≡ sum_holds sums carried.now }
{
    sums == 0 || blocksum::inner::is_appended(carried)
}
