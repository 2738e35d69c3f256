// The order in which a stream is sent: which column of the interleaver is read when, and where in the stream its first bit stands.
ghost use Rattle.std.specs.Prelude.{◌≡◌, ◌+◌, ◌%◌, ◌≤◌, ◌<◌};

// Table 5.1.4.2.1-1.
pub static COLUMNS: [usize; 32] = [
    1, 17, 9, 25, 5, 21, 13, 29, 3, 19, 11, 27, 7, 23, 15, 31, 0, 16, 8, 24, 4, 20, 12, 28, 2, 18,
    10, 26, 6, 22, 14, 30,
];

// The place in a stream of d bits of the first bit in the column c. The dummies in front move every bit by as many cells, and 32 cells are a row: so it is
// the one at (c + d) mod 32, and the column's next bits stand 32 apart. No cell has to be tested for a dummy.
pub fn first_place(d: usize, c: usize) -> usize
    requires { (d ≤ 128) × (c < 32) }
    ensures { result ≡ (c + d) % 32 }
{
    (c + d) % 32
}
