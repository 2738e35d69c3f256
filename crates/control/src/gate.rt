// What the public calls refuse: the first refusal that applies, found before anything is written.
ghost use Rattle.std.specs.Prelude.{◌≡◌};
ghost use Rattle.bits.specs.Ranges.{within};
ghost use Rattle.bits.specs.Refusals.{number_of};
ghost use Rattle.control.specs.Promises.{code_word_number, match_streams_number, send_word_number, streams_of_number};

use bits::count::CodedBits;
use bits::number::Refusal;

// "Inputs are 6 to 128 bits."
fn is_length(d: usize) -> bool
    ensures { result ≡ within 6 128 d }
{
    bits::inner::is_within(6, 128, d)
}

// "E from 1 to 65,536"
fn is_count(e: usize) -> bool
    ensures { result ≡ within 1 65536 e }
{
    bits::inner::is_within(1, 65536, e)
}

#[tactic(auto, unfolding(crate::specs::Promises::code_word_number, bits::specs::Numbers::answered))]
pub fn admit_code(word: &[u8], lent: usize) -> Result<(), Refusal>
    ensures { number_of result ≡ code_word_number word.now lent }
{
    if !is_length(word.len()) {
        return Err(Refusal::ControlLength);
    }
    if lent < 3 * word.len() {
        return Err(Refusal::ShortOutput);
    }
    if bits::inner::some_over(1, word) {
        return Err(Refusal::NoBit);
    }
    Ok(())
}

#[tactic(auto, unfolding(crate::specs::Promises::match_streams_number, bits::specs::Numbers::answered))]
pub fn admit_match(d: usize, streams: &[u8], e: CodedBits, lent: usize) -> Result<(), Refusal>
    ensures { number_of result ≡ match_streams_number d streams.now e.0 lent }
{
    if !is_length(d) {
        return Err(Refusal::ControlLength);
    }
    if !is_count(e.0) || streams.len() != 3 * d {
        return Err(Refusal::Parameter);
    }
    if lent < e.0 {
        return Err(Refusal::ShortOutput);
    }
    if bits::inner::some_over(1, streams) {
        return Err(Refusal::NoBit);
    }
    Ok(())
}

#[tactic(auto, unfolding(crate::specs::Promises::send_word_number, bits::specs::Numbers::answered))]
pub fn admit_send(word: &[u8], e: CodedBits, lent: usize) -> Result<(), Refusal>
    ensures { number_of result ≡ send_word_number word.now e.0 lent }
{
    let length = word.len();
    if !is_length(length) {
        return Err(Refusal::ControlLength);
    }
    if !is_count(e.0) {
        return Err(Refusal::Parameter);
    }
    if lent < e.0 {
        return Err(Refusal::ShortOutput);
    }
    if bits::inner::some_over(1, word) {
        return Err(Refusal::NoBit);
    }
    Ok(())
}

// Any first 3d bits are those of some three streams, so bits that none give are bits whose copies differ.
#[tactic(auto, using(crate::proofs::Answers::streams_decided), unfolding(crate::specs::Promises::streams_of_number, bits::specs::Numbers::answered))]
pub fn admit_back(d: usize, bits: &[u8], lent: usize) -> Result<(), Refusal>
    ensures { number_of result ≡ streams_of_number d bits.now lent }
{
    if !is_length(d) {
        return Err(Refusal::ControlLength);
    }
    if !is_count(bits.len()) {
        return Err(Refusal::Parameter);
    }
    let n = 3 * d;
    if lent < n {
        return Err(Refusal::ShortOutput);
    }
    if bits::inner::some_over(1, bits) {
        return Err(Refusal::NoBit);
    }
    if bits.len() < n {
        return Err(Refusal::NoRoom);
    }
    if !matching::inner::copies_agree(bits, CodedBits(n)) {
        return Err(Refusal::Unsent);
    }
    Ok(())
}
