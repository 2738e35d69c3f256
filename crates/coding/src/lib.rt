// From a transport block to radio bits and back: sending and receiving.
#![tactic(auto)]

pub mod inner;
mod receiving;
mod sending;

ghost use Rattle.std.specs.Prelude.{◌≡◌, ◌≤◌, ◌++◌, ◌/◌, length, drop};
ghost use Rattle.bits.specs.Refusals.{written};
ghost use Rattle.cutting.specs.Plan.{block_bits};
ghost use Rattle.cutting.specs.Transport.{transport};
ghost use Rattle.coding.specs.Joining.{radio_bits};
ghost use Rattle.coding.specs.Promises.{Sent, Received};
ghost use Rattle.coding.specs.Steps.Numbers.{PlanFor, request_number};
ghost use Rattle.coding.specs.Steps.Receiving.{Receivable, Decided};

use bits::count::{CodedBits, Terms};
use bits::number::Refusal;
use checking::Checker;
use cutting::Plan;

// So many octets are a short block.
const FEW: usize = 256;

// Sends a block that nothing refuses, with room for N transport bits.
fn send_in<const N: usize>(
    profile: &[u8],
    plan: Plan,
    block: &[u8],
    terms: Terms,
    g: CodedBits,
    out: &mut [u8],
)
    requires { (request_number profile.now (length block.now) terms g.0 g.0 (length out.old) ≡ 0)
        × PlanFor profile.now terms.edition (length block.now) plan
        × (plan.bits ≤ N) × (N ≤ 16408) }
    ensures { out.new ≡ radio_bits profile.now (block_bits (length block.now)) (transport block.now) terms g.0 ++ drop g.0 out.old }
{
    let mut bits = [0u8; N];
    cutting::inner::attach(block, &mut bits);
    sending::send_bits(profile, plan, &bits[..plan.bits], terms, g, out);
}

// The longest block has 16,408 transport bits. Most are shorter: these are given less room, so that no more is cleared for them than they take.
fn send_accepted(
    profile: &[u8],
    plan: Plan,
    block: &[u8],
    terms: Terms,
    g: CodedBits,
    out: &mut [u8],
)
    requires { (request_number profile.now (length block.now) terms g.0 g.0 (length out.old) ≡ 0)
        × PlanFor profile.now terms.edition (length block.now) plan }
    ensures { out.new ≡ radio_bits profile.now (block_bits (length block.now)) (transport block.now) terms g.0 ++ drop g.0 out.old }
{
    if block.len() <= FEW {
        return send_in::<2072>(profile, plan, block, terms, g, out);
    }
    send_in::<16408>(profile, plan, block, terms, g, out)
}

// Sends a transport block of packed octets as g bits, and answers how many were written.
pub fn send(
    profile: &[u8],
    block: &[u8],
    terms: Terms,
    g: CodedBits,
    out: &mut [u8],
) -> Result<usize, Refusal>
    ensures { Sent profile.now block.now terms g.0 out.old (written result) out.new }
{
    let plan = inner::admit_request(profile, block.len(), terms, g, g.0, out.len())?;
    send_accepted(profile, plan, block, terms, g, out);
    Ok(g.0)
}

// Decides on bits that nothing before 14 refuses, with room for N transport bits and M octets. Nothing goes into the output before everything is tested.
fn receive_in<const N: usize, const M: usize>(
    profile: &[u8],
    plan: Plan,
    octets: usize,
    terms: Terms,
    bits: &[u8],
    checker: Checker,
    out: &mut [u8],
) -> Result<usize, Refusal>
    requires { Receivable profile.now octets terms bits.now × PlanFor profile.now terms.edition octets plan × (octets ≤ length out.old)
        × (plan.bits ≤ N) × (N ≤ 16408) × (octets ≤ M) × (M ≤ 2048) }
    ensures { Decided profile.now octets terms bits.now out.old (written result) out.new }
{
    let mut room = [0u8; N];
    let mut block = [0u8; M];
    if !receiving::rebuild_bits(profile, plan, bits, terms, checker, &mut room) {
        return Err(Refusal::Unsent);
    }
    if !cutting::inner::detach(&room[..plan.bits], octets, &mut block) {
        return Err(Refusal::Unsent);
    }
    out[..octets].copy_from_slice(&block[..octets]);
    Ok(octets)
}

// The longest block has 2,048 octets and 16,408 transport bits; a short one is given less room here too.
fn receive_accepted(
    profile: &[u8],
    plan: Plan,
    octets: usize,
    terms: Terms,
    bits: &[u8],
    checker: Checker,
    out: &mut [u8],
) -> Result<usize, Refusal>
    requires { Receivable profile.now octets terms bits.now × PlanFor profile.now terms.edition octets plan × (octets ≤ length out.old) }
    ensures { Decided profile.now octets terms bits.now out.old (written result) out.new }
{
    if octets <= FEW {
        return receive_in::<2072, 256>(profile, plan, octets, terms, bits, checker, out);
    }
    receive_in::<16408, 2048>(profile, plan, octets, terms, bits, checker, out)
}

// Receives bits as a transport block of a bits, by either checker, and answers how many octets were written.
pub fn receive(
    profile: &[u8],
    a: usize,
    terms: Terms,
    bits: &[u8],
    checker: Checker,
    out: &mut [u8],
) -> Result<usize, Refusal>
    ensures { Received profile.now a terms bits.now out.old (written result) out.new }
{
    let plan = inner::admit_reception(profile, a, terms, bits, out.len())?;
    receive_accepted(profile, plan, a / 8, terms, bits, checker, out)
}
