// For the layers above, which know where a block's filler lies: its start, its bits, its copies, and the word gathered from a stretch.
ghost use Rattle.std.specs.Prelude.{◌≡◌, ◌++◌, ◌+◌, ◌-◌, ◌≤◌, ◌<◌, length, take, drop};
ghost use Rattle.bits.specs.Bits.{with_filler};
ghost use Rattle.matching.specs.Matching.{matched, turned, start_of, misversioned};
ghost use Rattle.matching.specs.Steps.Places.{Filled};
ghost use Rattle.matching.specs.Steps.Copies.{copies_agree};
ghost use Rattle.matching.specs.Steps.Line.{heard};

use crate::line::line_up;
use crate::marks::repeat;
use bits::count::CodedBits;
use bits::inner::{lay, mark};

// Whether the redundancy version is over 3, or is not 0 with Type 1. A type is a number here: C lends any, and those that there are not have a refusal.
#[tactic(auto, unfolding(crate::specs::Matching::misversioned))]
pub fn is_misversioned(kind: usize, rv: usize) -> bool
    ensures { result ≡ misversioned kind rv }
{
    rv > 3 || (kind == 1 && rv > 0)
}

// The place from which a coded block of d places is sent. It is a place of the block or its end.
#[tactic(auto, unfolding(crate::specs::Matching::start_of))]
pub fn start_of(kind: usize, rv: usize, d: usize) -> usize
    requires { rv ≤ 3 }
    ensures { (result ≡ start_of kind rv d) × (result ≤ d) }
{
    if kind == 2 { d / 4 * rv } else { 0 }
}

// The e bits of a coded block whose filler lies from `own` to `places`, from the place `start` on: its runs, and then their repetition.
pub fn match_filled(
    coded: &[u8],
    own: usize,
    places: usize,
    start: usize,
    e: CodedBits,
    out: &mut [u8],
)
    requires { Filled coded.now own places × (places < length coded.now) × (start ≤ length coded.now) × (e.0 ≤ length out.old) }
    ensures { out.new ≡ matched (turned start coded.now) e.0 ++ drop e.0 out.old }
{
    let n = line_up(coded, own, places, start, e, out);
    if n.0 < e.0 {
        repeat(out, n, e);
    }
}

// Whether every place past the first n holds what stands n places before it. It looks at every place, with no early way out, so that the loop is straight.
pub fn copies_agree(s: &[u8], n: CodedBits) -> bool
    requires { n.0 ≤ length s.now }
    ensures { result ≡ copies_agree n.0 s.now }
{
    let first = n.0;
    let mut agree = true;
    for k in first..s.len() {
        agree &= s[k] == s[k - first];
    }
    agree
}

// Lays the first bits of a stretch into the word, each in its place: own bits, filler, and the parity bits behind them. Of both kinds, what stands
// before the start was sent last, from `turn` on.
pub fn gather(s: &[u8], own: usize, places: usize, start: usize, word: &mut [u8])
    requires { (own ≤ places) × (places ≤ length word.old) × (start ≤ length word.old) × (own + (length word.old - places) ≤ length s.now) }
    ensures { word.new ≡ with_filler places (take own (heard own places start (length word.old) s.now)) ++ take (length word.old - places) (drop own (heard own places start (length word.old) s.now)) }
{
    let low = own.min(start);
    let high = start.saturating_sub(places);
    let rest = word.len() - places;
    let before = low + high;
    let turn = own + rest - before;
    let later = turn + low;
    let first = own - low;
    let last = rest - high;
    let at = places + high;
    lay(s, turn, word, 0, low);
    lay(s, 0, word, low, first);
    mark(word, own, places);
    lay(s, later, word, places, high);
    lay(s, first, word, at, last);
}
