// Step 6 of document 01, from the start of document 02, CR 3: rate matching of one coded block, and the way back from a stretch of bits to a coded word.
#![tactic(auto)]

pub mod inner;
mod line;
mod marks;

ghost use Rattle.bits.specs.Refusals.{written};
ghost use Rattle.matching.specs.Promises.{RateMatched};

use bits::count::CodedBits;
use bits::number::Refusal;

// Rate-matches one coded block, whose marks may stand anywhere, to e bits, from the start of its type and redundancy version, and answers how many it wrote.
pub fn rate_match(
    coded: &[u8],
    kind: usize,
    rv: usize,
    e: CodedBits,
    out: &mut [u8],
) -> Result<usize, Refusal>
    ensures { RateMatched coded.now kind rv e.0 out.old (written result) out.new }
{
    marks::admit_match(coded, kind, rv, e, out.len())?;
    let start = inner::start_of(kind, rv, coded.len());
    marks::fill(coded, start, e, out);
    Ok(e.0)
}
