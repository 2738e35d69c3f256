// What to ask for where bits were refused with 10 or 13: the least G with which every block has room.
#![tactic(auto)]

ghost use Rattle.std.specs.Prelude.{◌≡◌};
ghost use Rattle.bits.specs.Steps.Counting.{Usable};
ghost use Rattle.cutting.specs.Steps.Plans.{PlanOf};
ghost use Rattle.advice.specs.Promises.{advised, LeastRoom};
ghost use Rattle.advice.specs.Steps.Counting.{places_for_all};

use bits::count::inner::{coded_bits, symbol_places, symbol_places_for};
use bits::count::{CodedBits, SymbolPlaces, Terms};
use bits::number::Refusal;
use cutting::Plan;

// The least allocation with which every block has room.
#[derive(Clone, Copy)]
pub struct Least {
    // G.
    pub bits: CodedBits,
    // C, the count of code blocks.
    pub blocks: usize,
    // How many of them, the first ones, have one symbol place more than the others.
    pub larger: usize,
    // The share of the first block, and that of the last; no block has another.
    pub first: CodedBits,
    pub last: CodedBits,
}

// What C is answered: a number and, where it is 0, the least allocation. All else is 0 with a refusal.
#[repr(C)]
#[derive(Clone, Copy)]
pub struct Advised {
    pub number: u32,
    pub bits: CodedBits,
    pub blocks: usize,
    pub larger: usize,
    pub first: CodedBits,
    pub last: CodedBits,
}

impl From<Result<Least, Refusal>> for Advised {
    ghost from_gives = { λ answer r. r ≡ advised answer };

    #[tactic(auto, unfolding(crate::specs::Promises::refusal))]
    fn from(answer: Result<Least, Refusal>) -> Advised {
        match answer {
            Ok(least) => Advised {
                number: 0,
                bits: least.bits,
                blocks: least.blocks,
                larger: least.larger,
                first: least.first,
                last: least.last,
            },
            Err(refusal) => Advised {
                number: refusal.number(),
                bits: CodedBits(0),
                blocks: 0,
                larger: 0,
                first: CodedBits(0),
                last: CodedBits(0),
            },
        }
    }
}

// The symbol places that all blocks take together: each as many as its own N.
fn places_for_all(profile: &[u8], plan: Plan, terms: Terms) -> SymbolPlaces
    requires { PlanOf profile.now terms.edition plan × Usable terms }
    ensures { result.0 ≡ places_for_all profile.now plan.bits terms }
{
    let mut all = 0;
    for r in 0..plan.blocks {
        let n = coding::inner::sendable(profile, plan, r);
        let mine = symbol_places_for(n, terms);
        all += mine.0;
    }
    SymbolPlaces(all)
}

// The least G with which every block of a transport block of so many octets has room: what to ask for where bits were refused with 10 or 13. It has as many
// symbol places as all blocks take: the first blocks may take one more than the others, and are those that have it.
pub fn least_bits(profile: &[u8], octets: usize, terms: Terms) -> Result<Least, Refusal>
    ensures { LeastRoom profile.now octets terms (advised result) }
{
    let plan = coding::inner::admit_cut(profile, octets, terms, CodedBits(0))?;
    let all = places_for_all(profile, plan, terms);
    let most = symbol_places(CodedBits(65536), terms);
    if most.0 < all.0 {
        return Err(Refusal::NoRoom);
    }
    let c = plan.blocks;
    let bits = coded_bits(all, terms);
    let first = coding::inner::share_of(terms, bits, c, 0);
    let last = coding::inner::share_of(terms, bits, c, c - 1);
    Ok(Least {
        bits,
        blocks: c,
        larger: all.0 % c,
        first,
        last,
    })
}
