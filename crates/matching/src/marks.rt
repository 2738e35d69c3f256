// Rate matching of a coded block with marks anywhere: its kept places once, and then their repetition.
ghost use Rattle.std.specs.Prelude.{◌≡◌, false, [], ◌∷◌, ◌++◌, ◌+◌, ◌≤◌, ◌<◌, eqb, length, drop};
ghost use Rattle.bits.specs.Refusals.{number_of};
ghost use Rattle.matching.specs.Matching.{kept, matched, turned};
ghost use Rattle.matching.specs.Promises.{unmatchable, match_number};
ghost use Rattle.matching.specs.Steps.Places.{Repeated, Put};

use crate::inner::is_misversioned;
use bits::count::CodedBits;
use bits::number::Refusal;

// Repeats the first n octets up to e.
pub fn repeat(out: &mut [u8], n: CodedBits, e: CodedBits)
    requires { (0 < n.0) × (n.0 ≤ e.0) × (e.0 ≤ length out.old) }
    ensures { Repeated n.0 e.0 out.old out.new }
{
    let front = n.0;
    for k in front..e.0 {
        out[k] = out[k - front];
    }
}

// Writes a place where it is kept and asked for, and answers how many are written then.
fn put_kept(x: u8, out: &mut [u8], k: usize, e: CodedBits) -> usize
    requires { (k ≤ e.0) × (e.0 ≤ length out.old) }
    ensures { Put (kept (x ∷ [])) out.old k e.0 result out.new }
{
    if x == 2 || k == e.0 {
        return k;
    }
    out[k] = x;
    k + 1
}

// Writes the kept ones of a run of places over out from `at` on, as many as fit below e, and answers where they end.
fn put_all_kept(run: &[u8], out: &mut [u8], at: usize, e: CodedBits) -> usize
    requires { (at ≤ e.0) × (e.0 ≤ length out.old) }
    ensures { Put (kept run.now) out.old at e.0 result out.new }
{
    let mut k = at;
    for x in run {
        k = put_kept(*x, out, k, e);
    }
    k
}

// The e bits of a coded block with marks anywhere, from the place `start` on: the kept places from there on, those before it, and then their
// repetition.
pub fn fill(coded: &[u8], start: usize, e: CodedBits, out: &mut [u8])
    requires { (start ≤ length coded.now) × (e.0 ≤ length out.old) × (unmatchable coded.now e.0 ≡ false) }
    ensures { out.new ≡ matched (turned start coded.now) e.0 ++ drop e.0 out.old }
{
    let one = put_all_kept(&coded[start..], out, 0, e);
    let all = put_all_kept(&coded[..start], out, one, e);
    let n = CodedBits(all);
    if n.0 < e.0 {
        repeat(out, n, e);
    }
}

// Whether every place is marked 2.
fn none_kept(coded: &[u8]) -> bool
    ensures { result ≡ eqb (length (kept coded.now)) 0 }
{
    coded.iter().all(|x| *x == 2)
}

#[tactic(auto, unfolding(crate::specs::Promises::unmatchable))]
fn is_unmatchable(coded: &[u8], e: CodedBits) -> bool
    ensures { result ≡ unmatchable coded.now e.0 }
{
    e.0 > 65536 || (e.0 > 0 && none_kept(coded))
}

// 16 is tested before 8, though its number is higher.
#[tactic(auto, unfolding(crate::specs::Promises::match_number, bits::specs::Numbers::answered))]
pub fn admit_match(
    coded: &[u8],
    kind: usize,
    rv: usize,
    e: CodedBits,
    room: usize,
) -> Result<(), Refusal>
    ensures { number_of result ≡ match_number coded.now kind rv e.0 room }
{
    if !bits::inner::is_within(1, 2, kind) {
        return Err(Refusal::Profile);
    }
    let misversioned = is_misversioned(kind, rv);
    let unmatchable = is_unmatchable(coded, e);
    if misversioned {
        return Err(Refusal::Version);
    }
    if unmatchable {
        return Err(Refusal::Parameter);
    }
    if room < e.0 {
        return Err(Refusal::ShortOutput);
    }
    if bits::inner::some_over(2, coded) {
        return Err(Refusal::NoBit);
    }
    Ok(())
}
