// Control words: coded, sent, taken back to their streams, and the nearest of them.
ghost use Rattle.control.specs.Promises.{WordCoded, StreamsMatched, WordSent, StreamsFound};
ghost use Rattle.nearest.specs.Promises.{WordFound};

use bits::count::CodedBits;
use bits::number::Written;
use nearest::Found;

pub fn kuambyte_code_word(word: &[u8], out: &mut [u8]) -> Written
    ensures { WordCoded word.now out.old result out.new }
{
    Written::from(control::code_word(word, out))
}

pub fn kuambyte_match_streams(d: usize, streams: &[u8], e: usize, out: &mut [u8]) -> Written
    ensures { StreamsMatched d streams.now e out.old result out.new }
{
    Written::from(control::match_streams(d, streams, CodedBits(e), out))
}

pub fn kuambyte_send_word(word: &[u8], e: usize, out: &mut [u8]) -> Written
    ensures { WordSent word.now e out.old result out.new }
{
    Written::from(control::send_word(word, CodedBits(e), out))
}

pub fn kuambyte_streams_of(d: usize, bits: &[u8], out: &mut [u8]) -> Written
    ensures { StreamsFound d bits.now out.old result out.new }
{
    Written::from(control::streams_of(d, bits, out))
}

pub fn kuambyte_nearest_word(d: usize, heard: &[u8], out: &mut [u8]) -> Found
    ensures { WordFound d heard.now out.old result out.new }
{
    Found::from(nearest::nearest_word(d, heard, out))
}
