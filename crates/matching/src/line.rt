// A coded block whose filler lies in one stretch: its kept places are straight runs, laid in the order in which they are sent.
ghost use Rattle.std.specs.Prelude.{◌≡◌, ◌+◌, ◌-◌, ◌≤◌, length};
ghost use Rattle.matching.specs.Matching.{kept, turned};
ghost use Rattle.matching.specs.Steps.Places.{Filled, Put};

use bits::count::CodedBits;
use bits::inner::lay;

// Lays as many of a run's octets over out from `at` on as fit below e, and answers where they end.
fn lay_run(run: &[u8], out: &mut [u8], at: usize, e: CodedBits) -> usize
    requires { (at ≤ e.0) × (e.0 ≤ length out.old) }
    ensures { Put run.now out.old at e.0 result out.new }
{
    let n = run.len().min(e.0 - at);
    lay(run, 0, out, at, n);
    at + n
}

// The kept places in the order in which they are sent, at most e of them, and how many: the two runs behind the start, and then those before it.
// Of the four at least one is empty, and two where the start lies in the filler; no place is tested for a mark.
pub fn line_up(
    coded: &[u8],
    own: usize,
    places: usize,
    start: usize,
    e: CodedBits,
    out: &mut [u8],
) -> CodedBits
    requires { Filled coded.now own places × (start ≤ length coded.now) × (e.0 ≤ length out.old) }
    ensures { Put (kept (turned start coded.now)) out.old 0 e.0 result.0 out.new }
{
    let low = own.min(start);
    let mid = places.min(start);
    let behind = start + (places - mid);
    let one = lay_run(&coded[low..own], out, 0, e);
    let two = lay_run(&coded[behind..], out, one, e);
    let three = lay_run(&coded[..low], out, two, e);
    let all = lay_run(&coded[mid..start], out, three, e);
    CodedBits(all)
}
