// For the layers above: a block's checksum behind its own bits, and the test of it. Own bits are no whole octets, so they are summed bit by bit.
ghost use Rattle.std.specs.Prelude.{◌≡◌, ◌+◌, ◌≤◌, length, take};
ghost use Rattle.std.proofs.lemmas.List.Edits.{sets};
ghost use Rattle.bits.specs.Bits.{AreBits, digits};
ghost use Rattle.checksum.specs.Crc.{checksum};
ghost use Rattle.checksum.specs.Steps.Testing.{checks};
ghost use Rattle.blocksum.specs.Blocksum.{gen24_b};

// gCRC24B without its top bit.
const GEN24B: u32 = 0x800063;

// The checksum of single bits.
pub fn sum(bits: &[u8]) -> u32
    requires { AreBits bits.now }
    ensures { result ≡ checksum 24 gen24_b bits.now }
{
    checksum::inner::sum_bits(bits, 24, GEN24B)
}

// Writes the checksum of the first n bits of a word behind them.
pub fn append(word: &mut [u8], n: usize)
    requires { (n + 24 ≤ length word.old) × AreBits (take n word.old) }
    ensures { word.new ≡ sets word.old n (digits 24 (checksum 24 gen24_b (take n word.old))) }
{
    let value = sum(&word[..n]);
    bits::inner::put_number(word, n, value, 24);
}

// Whether bits end in the checksum of those before it. It is recomputed, and compared.
pub fn is_appended(bits: &[u8]) -> bool
    requires { (24 ≤ length bits.now) × AreBits bits.now }
    ensures { result ≡ checks 24 gen24_b bits.now }
{
    let n = bits.len() - 24;
    sum(&bits[..n]) == bits::inner::get_number(bits, n, 24)
}
