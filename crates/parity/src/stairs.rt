// The parity columns from the sums of the rows, down the staircase.
ghost use Rattle.std.specs.Prelude.{◌+◌, ◌-◌, ◌*◌, ◌≤◌, length};
ghost use Rattle.parity.specs.Steps.Runs.{Groups, all_rows, rows_above, Stacked};

use crate::run;
use crate::run::LANES;

// The first parity column, at `at`: the staircase's m rows together.
pub fn lay_first(sums: &[u8], m: usize, z: usize, word: &mut [u8], at: usize)
    requires { Stacked sums.now m z × (at + z ≤ length word.old) }
    ensures { Groups z 1 (all_rows sums.now m) word.old at word.new }
{
    let mut group = [0u8; LANES];
    for i in 0..m {
        run::xor_run(&mut group, 0, sums, i * LANES, LANES);
    }
    run::copy_bits(word, at, &group, 0, z);
}

// The other parity columns, from `at` on: each is the rows above its step together.
pub fn lay_next(sums: &[u8], m: usize, z: usize, word: &mut [u8], at: usize)
    requires { Stacked sums.now m z × (at + (m - 1) * z ≤ length word.old) }
    ensures { Groups z (m - 1) (rows_above sums.now) word.old at word.new }
{
    let mut group = [0u8; LANES];
    for step in 0..m - 1 {
        run::xor_run(&mut group, 0, sums, step * LANES, LANES);
        run::copy_bits(word, at + step * z, &group, 0, z);
    }
}
