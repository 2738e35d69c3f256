// Parts of shelves and records as a command shows them: whatever is asked for, there is an answer, so that nothing has to be known of what is shown.
ghost use Rattle.std.specs.Prelude.{◌≤◌, ◌<◌};

use text::octets;

// The n octets from `from` on, or as many of them as there are.
pub fn stretch(s: &[u8], from: usize, n: usize) -> &[u8] {
    octets::first(&s[from.min(s.len())..], n)
}

// "All numbers here are two octets, high octet first": the number at a place, with zeros behind the end.
pub fn two_octets(s: &[u8], at: usize) -> usize
    ensures { result < 65536 }
{
    let part = stretch(s, at, 2);
    octet(part, 0) * 256 + octet(part, 1)
}

pub fn octet(s: &[u8], at: usize) -> usize
    ensures { result < 256 }
{
    match s.get(at) {
        Some(x) => usize::from(*x),
        None => 0,
    }
}

// A product of two numbers of two octets; 0 where one is larger.
pub fn times(a: usize, b: usize) -> usize
    ensures { result ≤ 4294836225 }
{
    if a > 65535 {
        return 0;
    }
    if b > 65535 {
        return 0;
    }
    a * b
}
