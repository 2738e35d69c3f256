// For the layers above: what is refused before any block is coded or looked at, the plan that is found on the way, and each block's share and room.
ghost use Rattle.std.specs.Prelude.{◌≡◌, ◌||◌, ℕ, ◌/◌, ◌≤◌, eqb, IfOk};
ghost use Rattle.bits.specs.Refusals.{number_of};
ghost use Rattle.cutting.specs.Steps.Plans.{PlanOf, SomePlan};
ghost use Rattle.coding.specs.Allocation.{misallocated, share};
ghost use Rattle.coding.specs.Blocks.{sendable};
ghost use Rattle.coding.specs.Steps.Numbers.{PlanFor, cut_number, request_number, octets_of, reception_number};
ghost use Rattle.coding.specs.Steps.Shares.{Allocated, short, lacking_room};

use bits::count::inner::{coded_bits, is_usable, place_bits, symbol_places};
use bits::count::{CodedBits, SymbolPlaces, Terms};
use bits::number::Refusal;
use cutting::Plan;

// Whether N_L, Q_m or G is against step 5. G is divided only once N_L and Q_m are known to be no 0.
#[tactic(auto, unfolding(crate::specs::Allocation::misallocated))]
fn is_misallocated(terms: Terms, g: CodedBits) -> bool
    ensures { result ≡ misallocated terms g.0 }
{
    !is_usable(terms) || 65536 < g.0 || g.0 % place_bits(terms) != 0
}

// Block r's share of g bits, where there are c blocks: the symbol places that are left where all have as many go to the first blocks, one to each.
pub fn share_of(terms: Terms, g: CodedBits, c: usize, r: usize) -> CodedBits
    requires { Allocated terms g.0 c }
    ensures { result ≡ share terms g.0 c r }
{
    let all = symbol_places(g, terms);
    let each = all.0 / c;
    if r < all.0 % c {
        return coded_bits(SymbolPlaces(each + 1), terms);
    }
    coded_bits(SymbolPlaces(each), terms)
}

// N of block r: its coded places less its filler, which is its places less what it carries. The plan has L, whichever edition it is of.
pub fn sendable(profile: &[u8], plan: Plan, r: usize) -> CodedBits
    requires { SomePlan profile.now plan }
    ensures { ((ed : ℕ) → PlanOf profile.now ed plan → result.0 ≡ sendable profile.now ed plan.bits r) × (result.0 ≤ 4860) }
{
    let own = cutting::inner::own_bits(plan.bits, plan.blocks, r);
    let all = block::inner::size(profile, plan);
    let carried = own + plan.sums;
    let n = all - (plan.places - carried);
    CodedBits(n)
}

// Whether block r's share is below its N.
fn is_short(profile: &[u8], plan: Plan, terms: Terms, g: CodedBits, r: usize) -> bool
    requires { PlanOf profile.now terms.edition plan × Allocated terms g.0 plan.blocks }
    ensures { result ≡ short profile.now plan.bits terms g.0 r }
{
    let e = share_of(terms, g, plan.blocks, r);
    let n = sendable(profile, plan, r);
    e.0 < n.0
}

// 13: whether some block's share is below N.
pub fn lacks_room(profile: &[u8], plan: Plan, terms: Terms, g: CodedBits) -> bool
    requires { PlanOf profile.now terms.edition plan × Allocated terms g.0 plan.blocks }
    ensures { result ≡ lacking_room profile.now plan.bits terms g.0 }
{
    (0..plan.blocks).any(|r| is_short(profile, plan, terms, g, r))
}

// Whether 19 or 7 refuses a plan: these go before 16 and 8, and 9 behind them.
fn is_refused_first(plan: Result<Plan, Refusal>) -> bool
    ensures { result ≡ (eqb (number_of plan) 19 || eqb (number_of plan) 7) }
{
    matches!(plan, Err(Refusal::Edition | Refusal::BlockLength))
}

// 5 to 9, 16 and 19, tested in their order: 19 before 7, 16 between 7 and 8. The profile is judged once.
pub fn admit_cut(profile: &[u8], octets: usize, terms: Terms, g: CodedBits) -> Result<Plan, Refusal>
    ensures number { number_of result ≡ cut_number profile.now octets terms g.0 }
    ensures plan { IfOk result (λ p. PlanFor profile.now terms.edition octets p) }
{
    profile::judge(profile)?;
    let cut = cutting::inner::plan_accepted(profile, terms.edition, octets);
    if is_refused_first(cut) {
        return cut;
    }
    let kind = profile::inner::kind(profile);
    let misversioned = matching::inner::is_misversioned(kind, terms.rv);
    let misallocated = is_misallocated(terms, g);
    if misversioned {
        return Err(Refusal::Version);
    }
    if misallocated {
        return Err(Refusal::Parameter);
    }
    cut
}

// 5 to 11, 16 and 19, where `need` octets are to be written into `room`. Nothing is divided before 8 is decided.
pub fn admit_request(
    profile: &[u8],
    octets: usize,
    terms: Terms,
    g: CodedBits,
    need: usize,
    room: usize,
) -> Result<Plan, Refusal>
    ensures number { number_of result ≡ request_number profile.now octets terms g.0 need room }
    ensures plan { IfOk result (λ p. PlanFor profile.now terms.edition octets p) }
{
    let plan = admit_cut(profile, octets, terms, g)?;
    let places = symbol_places(g, terms);
    if places.0 < plan.blocks {
        return Err(Refusal::TooFewPlaces);
    }
    if room < need {
        return Err(Refusal::ShortOutput);
    }
    Ok(plan)
}

// The octets of a bits; 0 where they are no whole number, which is refused with 7 in its turn, behind 5, 6 and 19.
fn octets_of(a: usize) -> usize
    ensures { result ≡ octets_of a }
{
    if a % 8 != 0 {
        return 0;
    }
    a / 8
}

// 5 to 13, 16 and 19, tested in their order.
pub fn admit_reception(
    profile: &[u8],
    a: usize,
    terms: Terms,
    bits: &[u8],
    room: usize,
) -> Result<Plan, Refusal>
    ensures number { number_of result ≡ reception_number profile.now a terms bits.now room }
    ensures plan { IfOk result (λ p. PlanFor profile.now terms.edition (a / 8) p) }
{
    let octets = octets_of(a);
    let g = CodedBits(bits.len());
    let plan = admit_request(profile, octets, terms, g, octets, room)?;
    if bits::inner::some_over(1, bits) {
        return Err(Refusal::NoBit);
    }
    if lacks_room(profile, plan, terms, g) {
        return Err(Refusal::NoRoom);
    }
    Ok(plan)
}
