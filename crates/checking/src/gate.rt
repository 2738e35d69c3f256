// What the public calls refuse: the first of their lists whose condition holds, found before anything is done.
ghost use Rattle.std.specs.Prelude.{◌≡◌, IfOk};
ghost use Rattle.bits.specs.Refusals.{number_of};
ghost use Rattle.parity.specs.Steps.Gate.{size_at};
ghost use Rattle.checking.specs.Promises.{check_number, sums_number};
ghost use Rattle.checking.specs.Steps.Gate.{fit_number};

use bits::number::Refusal;

// 5, 6 and 8, which both calls begin with, and which of the profile's sizes z is.
fn admit_fit(profile: &[u8], z: usize, word: &[u8]) -> Result<usize, Refusal>
    ensures number { number_of result ≡ fit_number profile.now z word.now }
    ensures found { IfOk result (λ i. i ≡ size_at profile.now z) }
{
    profile::judge(profile)?;
    parity::inner::admit_size(profile, z, profile::inner::columns(profile), word)
}

// Which size z is, for a word that is to be checked.
pub fn admit_word(profile: &[u8], z: usize, word: &[u8]) -> Result<usize, Refusal>
    ensures number { number_of result ≡ check_number profile.now z word.now }
    ensures found { IfOk result (λ i. i ≡ size_at profile.now z) }
{
    let index = admit_fit(profile, z, word)?;
    if bits::inner::some_over(1, word) {
        return Err(Refusal::NoBit);
    }
    Ok(index)
}

// Which size z is, for a word whose rows are to be summed to an output of `room` octets.
pub fn admit_sums(profile: &[u8], z: usize, word: &[u8], room: usize) -> Result<usize, Refusal>
    ensures number { number_of result ≡ sums_number profile.now z word.now room }
    ensures found { IfOk result (λ i. i ≡ size_at profile.now z) }
{
    let index = admit_fit(profile, z, word)?;
    let rows = profile::inner::rows(profile);
    if room < rows * z {
        return Err(Refusal::ShortOutput);
    }
    let over = bits::inner::some_over(1, word);
    if over {
        return Err(Refusal::NoBit);
    }
    Ok(index)
}
