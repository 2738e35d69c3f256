// Steps 3 to 6 of document 01 for one code block, for the crate above, which has cut the transport block: its places, its parity bits, and its share of
// the radio bits from the place that its version starts at. Parity and rate matching know what a block carries, and not that a checksum is in it.
ghost use Rattle.std.specs.Prelude.{◌≡◌, ◌++◌, ◌+◌, ◌≤◌, length, drop};
ghost use Rattle.profile.specs.Record.{kind};
ghost use Rattle.cutting.specs.Steps.Plans.{SomePlan};
ghost use Rattle.matching.specs.Matching.{matched, turned, start_of};
ghost use Rattle.block.specs.Steps.Blocks.{word_size, Fits, checks_by, SolvedBy, cut_places, cut_coded, Codable, Stretch, Tested, Received};

use bits::count::CodedBits;
use checking::Checker;
use cutting::Plan;

// How many places a coded word has.
pub fn size(profile: &[u8], plan: Plan) -> usize
    requires { SomePlan profile.now plan }
    ensures { (result ≡ word_size profile.now plan) × (result ≤ 4860) }
{
    profile::inner::columns(profile) * plan.z
}

// The place from which every block of a plan is sent, by the profile's type and the redundancy version.
pub fn start(profile: &[u8], plan: Plan, rv: usize) -> usize
    requires { SomePlan profile.now plan × (rv ≤ 3) }
    ensures { (result ≡ start_of (kind profile.now) rv (word_size profile.now plan)) × (result ≤ word_size profile.now plan) }
{
    let kind = profile::inner::kind(profile);
    let places = size(profile, plan);
    matching::inner::start_of(kind, rv, places)
}

// Writes the parity bits of the word that has a block's places in front.
fn solve(profile: &[u8], plan: Plan, word: &mut [u8])
    requires { SomePlan profile.now plan × Fits profile.now plan word.old }
    ensures { SolvedBy profile.now plan word.old word.new }
{
    let kb = profile::inner::kb(profile);
    let m = profile::inner::m(profile);
    let rows = profile::inner::rows(profile);
    let columns = profile::inner::columns(profile);
    let table = profile::inner::table(profile, plan.index);
    parity::inner::code(table, kb, m, rows, columns, plan.z, word);
}

// Whether the word checks.
fn is_even(profile: &[u8], plan: Plan, word: &[u8], checker: Checker) -> bool
    requires { SomePlan profile.now plan × Fits profile.now plan word.now }
    ensures { result ≡ checks_by profile.now plan word.now }
{
    let rows = profile::inner::rows(profile);
    let columns = profile::inner::columns(profile);
    let table = profile::inner::table(profile, plan.index);
    checking::inner::checks_by(checker, table, rows, columns, plan.z, word)
}

// Lays what a block carries and its filler into the word, and its parity bits behind them.
fn code(profile: &[u8], plan: Plan, bits: &[u8], start: usize, own: usize, word: &mut [u8])
    requires { Codable profile.now plan bits.now start own word.old }
    ensures { SolvedBy profile.now plan (cut_places plan bits.now start own) word.new }
{
    let places = plan.places;
    cutting::inner::lay_block(bits, start, own, plan.sums, places, word);
    solve(profile, plan, word);
}

// Writes the e bits of a block, from the place `from` of its coded word on.
pub fn send_block(
    profile: &[u8],
    plan: Plan,
    bits: &[u8],
    start: usize,
    own: usize,
    from: usize,
    e: CodedBits,
    word: &mut [u8],
    out: &mut [u8],
)
    requires { Codable profile.now plan bits.now start own word.old × (from ≤ length word.old) × (e.0 ≤ length out.old) }
    ensures { out.new ≡ matched (turned from (cut_coded profile.now plan bits.now start own)) e.0 ++ drop e.0 out.old }
{
    code(profile, plan, bits, start, own, word);
    let carried = own + plan.sums;
    let places = plan.places;
    matching::inner::match_filled(word, carried, places, from, e, out);
}

// Whether a stretch is what the block that carries the bits it has in line is sent as from the place `from`: equal copies, and all parity rows. Where it is,
// the word holds the coded block, the carried bits first.
fn is_sent_as(
    profile: &[u8],
    plan: Plan,
    s: &[u8],
    carried: usize,
    from: usize,
    checker: Checker,
    word: &mut [u8],
) -> bool
    requires { Stretch profile.now plan s.now carried from word.old }
    ensures { Tested profile.now plan s.now carried from result word.new }
{
    let places = plan.places;
    let rest = word.len() - places;
    let n = carried + rest;
    if !matching::inner::copies_agree(s, CodedBits(n)) {
        return false;
    }
    matching::inner::gather(s, carried, places, from, word);
    is_even(profile, plan, word, checker)
}

// Whether a stretch is what some block with so many own bits is sent as: its carried bits have their checksum too, where they carry one. Where it is, the word
// holds the coded block, own bits first.
pub fn is_received(
    profile: &[u8],
    plan: Plan,
    s: &[u8],
    own: usize,
    from: usize,
    checker: Checker,
    word: &mut [u8],
) -> bool
    requires { Stretch profile.now plan s.now (own + plan.sums) from word.old }
    ensures { Received profile.now plan s.now own from result word.new }
{
    let carried = own + plan.sums;
    if !is_sent_as(profile, plan, s, carried, from, checker, word) {
        return false;
    }
    cutting::inner::sum_holds(&word[..carried], plan.sums)
}
