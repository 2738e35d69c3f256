// Checksums of single bits under a mask (document 02, CR 9), for broadcast and control words: the sum, a word with it appended, and the test of a word.
#![tactic(auto)]

ghost use Rattle.std.specs.Prelude.{◌≡◌, cond, ◌&&◌, ◌++◌, ◌+◌, ◌-◌, ◌≤◌, eqb, leb, ltb, length, drop, Ok, IfOk};
ghost use Rattle.std.proofs.lemmas.List.Edits.{sets};
ghost use Rattle.bits.specs.Bits.{AreBits, digits, value_of};
ghost use Rattle.bits.specs.Refusals.{number_of, written};
ghost use Rattle.checksum.specs.Promises.{summed};
ghost use Rattle.masked.specs.Promises.{SumUnder, Appended, tested, WordTested};

use bits::number::Refusal;

// What C is answered by a test: its number, and whether the word was appended under the mask, no with a refusal.
#[repr(C)]
#[derive(Clone, Copy)]
pub struct Tested {
    pub number: u32,
    pub holds: bool,
}

impl From<Result<bool, Refusal>> for Tested {
    ghost from_gives = { λ answer r. r ≡ tested answer };

    fn from(answer: Result<bool, Refusal>) -> Tested {
        match answer {
            Ok(holds) => Tested { number: 0, holds },
            Err(refusal) => Tested {
                number: refusal.number(),
                holds: false,
            },
        }
    }
}

// The checksum of bits under a mask.
pub fn sum_under(width: usize, mask: u64, bits: &[u8]) -> Result<u32, Refusal>
    ensures { SumUnder width mask bits.now (summed result) }
{
    let sum = checksum::of_bits(width, bits)?;
    Ok(checksum::inner::under(sum, width as u32, mask))
}

// Whether an output of so many octets is shorter than n bits and their checksum. Nothing is added up, since any width arrives.
fn is_short(lent: usize, n: usize, width: usize) -> bool
    ensures { result ≡ ltb lent (n + width) }
{
    if lent < n {
        return true;
    }
    lent - n < width
}

// 11 stands between the two numbers of the sum.
fn admit_append(sum: Result<u32, Refusal>, short: bool) -> Result<u32, Refusal>
    ensures number { number_of result ≡ cond (eqb (number_of sum) 8) 8 (cond short 11 (number_of sum)) }
    ensures value { IfOk result (λ v. sum ≡ Ok v) }
{
    match sum {
        Err(Refusal::Parameter) => sum,
        _ if short => Err(Refusal::ShortOutput),
        _ => sum,
    }
}

// Writes the bits, and the w bits of their sum behind them.
fn put_word(bits: &[u8], sum: u32, w: u32, out: &mut [u8])
    requires { (w ≤ 32) × (length bits.now + w ≤ length out.old) }
    ensures { out.new ≡ sets out.old 0 (bits.now ++ digits w sum) }
{
    let n = bits.len();
    bits::inner::lay(bits, 0, out, 0, n);
    bits::inner::put_number(out, n, sum, w);
}

// Writes bits with their checksum under a mask appended, the highest bit of it first.
pub fn append(width: usize, mask: u64, bits: &[u8], out: &mut [u8]) -> Result<usize, Refusal>
    ensures { Appended width mask bits.now out.old (written result) out.new }
{
    let n = bits.len();
    let sum = sum_under(width, mask, bits);
    let value = admit_append(sum, is_short(out.len(), n, width))?;
    put_word(bits, value, width as u32, out);
    Ok(n + width)
}

// Whether the last w bits of a word are a sum; a word shorter than its checksum ends in none.
fn ends_in(word: &[u8], w: u32, sum: u32) -> bool
    requires { (w ≤ 32) × AreBits word.now }
    ensures { result ≡ leb w (length word.now) && eqb sum (value_of (drop (length word.now - w) word.now)) }
{
    if word.len() < w as usize {
        return false;
    }
    let at = word.len() - w as usize;
    sum == bits::inner::get_number(word, at, w)
}

// Whether a word was appended under a mask: recomputed, and compared. A word that is shorter than its checksum has no bits before it.
pub fn test(width: usize, mask: u64, word: &[u8]) -> Result<bool, Refusal>
    ensures { WordTested width mask word.now (tested result) }
{
    let a = word.len().saturating_sub(width);
    let sum = sum_under(width, mask, &word[..a])?;
    if bits::inner::some_over(1, &word[a..]) {
        return Err(Refusal::NoBit);
    }
    Ok(ends_in(word, width as u32, sum))
}
