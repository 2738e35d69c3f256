// What the public call refuses: the first number of its list whose condition holds, found before anything is done.
ghost use Rattle.std.specs.Prelude.{◌≡◌, IfOk};
ghost use Rattle.bits.specs.Refusals.{number_of};
ghost use Rattle.parity.specs.Promises.{code_number};
ghost use Rattle.parity.specs.Steps.Gate.{size_at};

use crate::inner;
use bits::number::Refusal;

// Which of the profile's sizes z is, for a block that is to be coded to an output of `room` octets.
#[tactic(auto, using(crate::proofs::Answers::code_in_turn))]
pub fn admit_block(profile: &[u8], z: usize, places: &[u8], room: usize) -> Result<usize, Refusal>
    ensures number { number_of result ≡ code_number profile.now z places.now room }
    ensures found { IfOk result (λ i. i ≡ size_at profile.now z) }
{
    profile::judge(profile)?;
    let index = inner::admit_size(profile, z, profile::inner::kb(profile), places)?;
    if room < profile::inner::columns(profile) * z {
        return Err(Refusal::ShortOutput);
    }
    if bits::inner::some_over(2, places) {
        return Err(Refusal::NoBit);
    }
    Ok(index)
}
