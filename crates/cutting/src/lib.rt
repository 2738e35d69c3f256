// Steps 1 to 3 of document 01: how a transport block is cut into code blocks, its transport bits, and each block's places.
#![tactic(auto)]

mod cut;
pub mod inner;

ghost use Rattle.std.specs.Prelude.{◌≡◌};
ghost use Rattle.cutting.specs.Promises.{planned, answer_planned};

use bits::number::Refusal;

// How a transport block is cut.
#[derive(Clone, Copy)]
pub struct Plan {
    // B, the bits of the block and its checksum.
    pub bits: usize,
    pub kmax: usize,
    // C, the count of code blocks.
    pub blocks: usize,
    // K, the systematic places of each block.
    pub places: usize,
    pub z: usize,
    // Which of the record's sizes and tables this z is.
    pub index: usize,
    // L, how many bits of each block are its checksum: 24, or 0 where it has none.
    pub sums: usize,
}

// What C is answered: a number and, where it is 0, a plan. All else is 0 with a refusal.
#[repr(C)]
#[derive(Clone, Copy)]
pub struct Planned {
    pub number: u32,
    pub bits: usize,
    pub kmax: usize,
    pub blocks: usize,
    pub places: usize,
    pub z: usize,
    pub index: usize,
    pub sums: usize,
}

impl From<Result<Plan, Refusal>> for Planned {
    ghost from_gives = { λ answer r. r ≡ answer_planned answer };

    #[tactic(auto, unfolding(crate::specs::Promises::refusal))]
    fn from(answer: Result<Plan, Refusal>) -> Planned {
        match answer {
            Ok(plan) => Planned {
                number: 0,
                bits: plan.bits,
                kmax: plan.kmax,
                blocks: plan.blocks,
                places: plan.places,
                z: plan.z,
                index: plan.index,
                sums: plan.sums,
            },
            Err(refusal) => Planned {
                number: refusal.number(),
                bits: 0,
                kmax: 0,
                blocks: 0,
                places: 0,
                z: 0,
                index: 0,
                sums: 0,
            },
        }
    }
}

// How a transport block of so many octets is cut, in either edition.
pub fn plan_block(profile: &[u8], edition: usize, octets: usize) -> Result<Plan, Refusal>
    ensures { answer_planned result ≡ planned profile.now edition octets }
{
    profile::judge(profile)?;
    inner::plan_accepted(profile, edition, octets)
}
