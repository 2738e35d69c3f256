// Profile records: judging one.
#![tactic(auto)]

mod form;
pub mod inner;
mod parts;
mod staircase;

ghost use Rattle.std.specs.Prelude.{◌≡◌};
ghost use Rattle.bits.specs.Refusals.{number_of};
ghost use Rattle.profile.specs.Promises.{judged};

use bits::number::Refusal;

// Whether a record is a profile. 5 goes before 6 over the whole record: a wrong entry in the last table wins over a first table that is no staircase.
#[tactic(auto, using(crate::proofs::Answers::judged_in_turn))]
pub fn judge(profile: &[u8]) -> Result<(), Refusal>
    ensures { number_of result ≡ judged profile.now }
{
    if !form::shape_right(profile) || !form::tables_right(profile) {
        return Err(Refusal::Profile);
    }
    if !staircase::staircases(profile) {
        return Err(Refusal::NoStaircase);
    }
    Ok(())
}
