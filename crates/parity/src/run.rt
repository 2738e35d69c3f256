// Straight runs of places, with no remainder and no test in the loop, so that the machine takes many places at a time.
ghost use Rattle.std.specs.Prelude.{◌≡◌, ◌+◌, ◌≤◌, length};
ghost use Rattle.bits.specs.Bits.{AreBits};
ghost use Rattle.parity.specs.Steps.Runs.{span, Run, copied, added};

// The lanes of a row's sums. A row has z sums and at most 81; the lanes behind them hold bits that nobody reads, so that every row is one run of a length that the
// compiler knows.
pub const LANES: usize = 96;

// Writes the bits of n places of g, from `from` on, to those of out from `at` on. "Filler read as 0": the lowest digit of the mark 2.
pub fn copy_bits(out: &mut [u8], at: usize, g: &[u8], from: usize, n: usize)
    requires { (at + n ≤ length out.old) × (from + n ≤ length g.now) }
    ensures { Run n (copied g.now from) out.old at out.new }
{
    for k in 0..n {
        out[at + k] = g[from + k] & 1;
    }
}

// Adds n bits of g, from `from` on, to those of acc from `at` on. A sum modulo two of two bits is a bit.
pub fn xor_run(acc: &mut [u8], at: usize, g: &[u8], from: usize, n: usize)
    requires { (at + n ≤ length acc.old) × (from + n ≤ length g.now) × AreBits acc.old × AreBits g.now }
    ensures { Run n (added acc.old at g.now from) acc.old at acc.new }
{
    for k in 0..n {
        acc[at + k] ^= g[from + k];
    }
}

// The same for a row of z sums: all its lanes, or its sums alone where they are few.
pub fn xor_row(acc: &mut [u8], at: usize, g: &[u8], from: usize, z: usize)
    requires { (at + span z ≤ length acc.old) × (from + span z ≤ length g.now) × AreBits acc.old × AreBits g.now }
    ensures { Run (span z) (added acc.old at g.now from) acc.old at acc.new }
{
    if 16 < z {
        return xor_run(acc, at, g, from, LANES);
    }
    xor_run(acc, at, g, from, z)
}
