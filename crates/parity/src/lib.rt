// The parity check of section 5.1.3.2: coding one block of places; checking a word, where it is asked for by the crates above.
#![tactic(auto)]

mod extension;
mod gate;
pub mod inner;
mod run;
mod stairs;
mod sums;

ghost use Rattle.std.specs.Prelude.{◌≡◌, ◌*◌, length};
ghost use Rattle.bits.specs.Refusals.{written};
ghost use Rattle.profile.specs.Record.{rows, columns};
ghost use Rattle.parity.specs.Coded.{coded};
ghost use Rattle.parity.specs.Promises.{table_for, BlockCoded};
ghost use Rattle.parity.specs.Steps.Gate.{size_at, Taken};

use bits::number::Refusal;

// Codes places that no number refuses, in `word`, which is as long as their coded block. z is the size of this index.
fn code_in(profile: &[u8], z: usize, index: usize, places: &[u8], word: &mut [u8])
    requires { Taken profile.now z places.now × (index ≡ size_at profile.now z) × (length word.old ≡ columns profile.now * z) }
    ensures { word.new ≡ coded (table_for profile.now z) (rows profile.now) (columns profile.now) z places.now }
{
    let kb = profile::inner::kb(profile);
    let m = profile::inner::m(profile);
    let rows = profile::inner::rows(profile);
    let columns = profile::inner::columns(profile);
    let table = profile::inner::table(profile, index);
    bits::inner::lay(places, 0, word, 0, places.len());
    inner::code(table, kb, m, rows, columns, z, word);
}

// Codes one block of places, 0, 1 and the filler mark 2: its (kb+m+x)·z octets go to the front of out (document 01, step 4; document 02, CR 3).
pub fn code_block(profile: &[u8], z: usize, places: &[u8], out: &mut [u8]) -> Result<usize, Refusal>
    ensures { BlockCoded profile.now z places.now out.old (written result) out.new }
{
    let index = gate::admit_block(profile, z, places, out.len())?;
    let count = profile::inner::columns(profile) * z;
    code_in(profile, z, index, places, &mut out[..count]);
    Ok(count)
}
