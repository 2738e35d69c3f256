// How a transport block is cut by an accepted profile (document 01, "From block to radio bits", steps 1 to 3; document 02, CR 8).
ghost use Rattle.std.specs.Prelude.{◌≡◌, cond, ◌&&◌, ◌-◌, ◌*◌, ◌≤◌, ◌<◌, eqb, leb, ltb};
ghost use Rattle.bits.specs.Counts.{ceil};
ghost use Rattle.profile.specs.Record.{kb, t, z};
ghost use Rattle.profile.specs.Promises.{judged};
ghost use Rattle.cutting.specs.Plan.{kmax, other_edition, size_index_for};
ghost use Rattle.cutting.specs.Promises.{done_plan};
ghost use Rattle.cutting.specs.Steps.Plans.{Counted, plan_for};

use crate::Plan;

// a / b, rounded up.
pub fn ceil(a: usize, b: usize) -> usize
    requires { (a ≤ 16408) × (0 < b) × (b ≤ 1620) }
    ensures { result ≡ ceil a b }
{
    (a + (b - 1)) / b
}

// The most places that a block can have: the sizes rise, so the last is the largest.
pub fn kmax(profile: &[u8]) -> usize
    requires { judged profile.now ≡ 0 }
    ensures { (result ≡ kmax profile.now) × (0 < result) × (result ≤ 1620) }
{
    let last = profile::inner::t(profile) - 1;
    profile::inner::kb(profile) * profile::inner::z(profile, last)
}

// 19: whether there is no such edition.
#[tactic(auto, unfolding(crate::specs::Plan::other_edition))]
pub fn is_other_edition(edition: usize) -> bool
    ensures { result ≡ other_edition edition }
{
    edition != 1 && edition != 2
}

// L, the bits of a block's checksum, where `most` is Kmax: edition 2 has them where one block is not enough.
pub fn sums(edition: usize, bits: usize, most: usize) -> usize
    ensures { result ≡ cond (eqb edition 2 && ltb most bits) 24 0 }
{
    if edition == 2 && most < bits { 24 } else { 0 }
}

// C, where `most` is Kmax and `sums` is L: so many blocks have room for B bits.
pub fn count(bits: usize, most: usize, sums: usize) -> usize
    requires { (bits ≤ 16408) × (sums < most) × (most ≤ 1620) }
    ensures { result ≡ ceil bits (most - sums) }
{
    ceil(bits, most - sums)
}

// Whether a size gives a block this many places.
fn is_enough(profile: &[u8], i: usize, need: usize) -> bool
    requires { (judged profile.now ≡ 0) × (i < t profile.now) }
    ensures { result ≡ leb need (kb profile.now * z profile.now i) }
{
    need <= profile::inner::kb(profile) * profile::inner::z(profile, i)
}

// The first of the sizes, and so the smallest, that gives a block this many places. The last gives Kmax.
fn index_for(profile: &[u8], need: usize) -> usize
    requires { (judged profile.now ≡ 0) × (need ≤ kmax profile.now) }
    ensures { (result ≡ size_index_for profile.now need) × (result < t profile.now) }
{
    let last = profile::inner::t(profile) - 1;
    (0..last)
        .find(|i| is_enough(profile, *i, need))
        .unwrap_or(last)
}

// The plan of B bits in C blocks, which are `count`; `most` is Kmax and `sums` is L.
pub fn cutting(profile: &[u8], bits: usize, most: usize, sums: usize, count: usize) -> Plan
    requires { Counted profile.now bits most sums count }
    ensures { done_plan result ≡ plan_for profile.now bits most sums count }
{
    let need = ceil(bits, count) + sums;
    let index = index_for(profile, need);
    let z = profile::inner::z(profile, index);
    let places = profile::inner::kb(profile) * z;
    Plan {
        bits,
        kmax: most,
        blocks: count,
        places,
        z,
        index,
        sums,
    }
}
