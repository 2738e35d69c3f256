// Checking one word of bits, by the quick checker or by the plain one, and the sums of its rows.
#![tactic(auto)]

mod gate;
pub mod inner;
mod plain;

ghost use Rattle.std.specs.Prelude.{◌≡◌};
ghost use Rattle.bits.specs.Refusals.{written};
ghost use Rattle.checking.specs.Promises.{verdict, WordChecked, RowsSummed};

use bits::number::Refusal;

// Which checker is asked: the quick one adds up shifted groups of places, the plain one goes through the spread-out matrix.
#[derive(Clone, Copy)]
pub enum Checker {
    Quick,
    Plain,
}

// What C is answered by a check: its number, and whether the word checks, no with a refusal.
#[repr(C)]
#[derive(Clone, Copy)]
pub struct Verdict {
    pub number: u32,
    pub checks: bool,
}

impl From<Result<bool, Refusal>> for Verdict {
    ghost from_gives = { λ answer r. r ≡ verdict answer };

    fn from(answer: Result<bool, Refusal>) -> Verdict {
        match answer {
            Ok(checks) => Verdict { number: 0, checks },
            Err(refusal) => Verdict {
                number: refusal.number(),
                checks: false,
            },
        }
    }
}

// Checks one word of bits: whether every row of the spread-out matrix sums to an even number over it.
pub fn check_word(profile: &[u8], z: usize, word: &[u8], checker: Checker) -> Result<bool, Refusal>
    ensures { WordChecked profile.now z word.now (verdict result) }
{
    let at = gate::admit_word(profile, z, word)?;
    let rows = profile::inner::rows(profile);
    let columns = profile::inner::columns(profile);
    let table = profile::inner::table(profile, at);
    let checks = inner::checks_by(checker, table, rows, columns, z, word);
    Ok(checks)
}

// Writes what every row of the spread-out matrix sums to over the word, modulo two, to the front of out: 0 for an even row and 1 for an odd one.
pub fn row_sums(profile: &[u8], z: usize, word: &[u8], out: &mut [u8]) -> Result<usize, Refusal>
    ensures { RowsSummed profile.now z word.now out.old (written result) out.new }
{
    let index = gate::admit_sums(profile, z, word, out.len())?;
    let rows = profile::inner::rows(profile);
    let columns = profile::inner::columns(profile);
    let table = profile::inner::table(profile, index);
    let count = rows * z;
    plain::put_sums(table, rows, columns, z, word, out);
    Ok(count)
}
