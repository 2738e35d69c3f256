// What the public call refuses: the first refusal that applies, found before anything is written.
ghost use Rattle.std.specs.Prelude.{◌≡◌};
ghost use Rattle.bits.specs.Refusals.{number_of};
ghost use Rattle.nearest.specs.Promises.{nearest_word_number};

use bits::number::Refusal;

#[tactic(auto, unfolding(crate::specs::Promises::nearest_word_number, bits::specs::Numbers::answered))]
pub fn admit_nearest(d: usize, heard: &[u8], lent: usize) -> Result<(), Refusal>
    ensures { number_of result ≡ nearest_word_number d heard.now lent }
{
    if !bits::inner::is_within(6, 128, d) {
        return Err(Refusal::ControlLength);
    }
    if heard.len() != 3 * d {
        return Err(Refusal::Parameter);
    }
    if lent < d {
        return Err(Refusal::ShortOutput);
    }
    if bits::inner::some_over(1, heard) {
        return Err(Refusal::NoBit);
    }
    Ok(())
}
