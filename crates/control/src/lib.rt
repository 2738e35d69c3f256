// Tail-biting coding for control bits (document 02, CR 5): a word coded to three streams, streams matched to E bits, both in one call, and the way back from E
// bits to the streams. Streams lie whole, one after the other, in the order of their generators 133, 171 and 165.
#![tactic(auto)]

mod gate;
pub mod inner;
mod order;
mod register;
mod streams;
mod three;

ghost use Rattle.bits.specs.Refusals.{written};
ghost use Rattle.control.specs.Promises.{WordCoded, StreamsMatched, WordSent, StreamsFound};

use bits::count::CodedBits;
use bits::number::Refusal;

// Writes the three streams of a word, and answers, as each call here, how many octets it wrote.
pub fn code_word(word: &[u8], out: &mut [u8]) -> Result<usize, Refusal>
    ensures { WordCoded word.now out.old (written result) out.new }
{
    gate::admit_code(word, out.len())?;
    register::put_streams(word, out);
    Ok(3 * word.len())
}

// Writes the e bits that three streams of d bits are sent as.
pub fn match_streams(
    d: usize,
    streams: &[u8],
    e: CodedBits,
    out: &mut [u8],
) -> Result<usize, Refusal>
    ensures { StreamsMatched d streams.now e.0 out.old (written result) out.new }
{
    gate::admit_match(d, streams, e, out.len())?;
    streams::send(d, streams, e, out);
    Ok(e.0)
}

// Writes the e bits that a word is sent as.
pub fn send_word(word: &[u8], e: CodedBits, out: &mut [u8]) -> Result<usize, Refusal>
    ensures { WordSent word.now e.0 out.old (written result) out.new }
{
    gate::admit_send(word, e, out.len())?;
    streams::send_coded(word, e, out);
    Ok(e.0)
}

// Writes the three streams of d bits that are sent as the bits.
pub fn streams_of(d: usize, bits: &[u8], out: &mut [u8]) -> Result<usize, Refusal>
    ensures { StreamsFound d bits.now out.old (written result) out.new }
{
    gate::admit_back(d, bits, out.len())?;
    streams::put_back(d, bits, out);
    Ok(3 * d)
}
