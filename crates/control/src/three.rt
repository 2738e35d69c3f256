// One bit of each of three streams that lie whole, one after the other: coding, collecting and the way back write all three in one pass.
ghost use Rattle.std.specs.Prelude.{◌+◌, ◌≤◌, ◌<◌, length};
ghost use Rattle.control.specs.Steps.Order.{Three};

// Writes the k-th bit of each stream of d bits.
pub fn put_three(out: &mut [u8], d: usize, k: usize, x: u8, y: u8, z: u8)
    requires { (k < d) × (d + d + d ≤ length out.old) }
    ensures { Three d k x y z out.old out.new }
{
    out[k] = x;
    out[d + k] = y;
    out[d + d + k] = z;
}
