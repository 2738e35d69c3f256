// One code block: coded, checked and rate-matched.
pub mod checker;

ghost use Rattle.parity.specs.Promises.{BlockCoded};
ghost use Rattle.checking.specs.Promises.{WordChecked, RowsSummed};
ghost use Rattle.matching.specs.Promises.{RateMatched};

use bits::count::CodedBits;
use bits::number::Written;
use checking::Verdict;

pub fn kuambyte_code_block(profile: &[u8], z: usize, places: &[u8], out: &mut [u8]) -> Written
    ensures { BlockCoded profile.now z places.now out.old result out.new }
{
    Written::from(parity::code_block(profile, z, places, out))
}

pub fn kuambyte_check_word(profile: &[u8], z: usize, word: &[u8], checker: u32) -> Verdict
    ensures { WordChecked profile.now z word.now result }
{
    Verdict::from(checking::check_word(profile, z, word, checker::of(checker)))
}

pub fn kuambyte_row_sums(profile: &[u8], z: usize, word: &[u8], out: &mut [u8]) -> Written
    ensures { RowsSummed profile.now z word.now out.old result out.new }
{
    Written::from(checking::row_sums(profile, z, word, out))
}

pub fn kuambyte_rate_match(
    coded: &[u8],
    kind: usize,
    rv: usize,
    e: usize,
    out: &mut [u8],
) -> Written
    ensures { RateMatched coded.now kind rv e out.old result out.new }
{
    Written::from(matching::rate_match(coded, kind, rv, CodedBits(e), out))
}
