// For the crates above: an output of the register.
ghost use Rattle.std.specs.Prelude.{◌≡◌};
ghost use Rattle.control.specs.Register.{output};

// The output bit of the generator g: the ones of the masked register modulo two.
#[tactic(auto, unfolding(crate::specs::Register::output))]
pub fn output(g: u32, r: u32) -> u8
    ensures { result ≡ output g r }
{
    ((r & g).count_ones() % 2) as u8
}
