// Slices of octets: to compare, to search and to copy them.
ghost use Rattle.std.specs.Prelude.{◌≡◌, ◌+◌, ◌<◌, ◌≤◌, length};

pub fn same(s: &[u8], t: &[u8]) -> bool {
    s == t
}

// The place of the first such octet at `from` or behind it, or the end where there is none. Most words end
// within a short stretch; behind it the octet is looked for by long stretches and by short ones. Within
// the stretch that has it, it is looked for octet by octet.
pub fn find(s: &[u8], from: usize, octet: u8) -> usize
    requires { from ≤ length s.now }
    ensures { (from ≤ result) × (result ≤ length s.now) }
{
    let near = match s[from..].first_chunk::<16>() {
        Some(stretch) if !is_in(stretch, octet) => {
            let far = pass::<64>(s, from + 16, octet);
            pass::<16>(s, far, octet)
        }
        _ => from,
    };
    find_near(s, near, octet)
}

// The same, one octet after the other, for an octet that is near.
pub fn find_near(s: &[u8], from: usize, octet: u8) -> usize
    requires { from ≤ length s.now }
    ensures { (from ≤ result) × (result ≤ length s.now) }
{
    for i in from..s.len() {
        if s[i] == octet {
            return i;
        }
    }
    s.len()
}

// Goes on from `from` by stretches of N that have no such octet, up to one that has it or is not whole.
fn pass<const N: usize>(s: &[u8], from: usize, octet: u8) -> usize
    requires { (from ≤ length s.now) × (1 ≤ N) × (N ≤ 64) }
    ensures { (from ≤ result) × (result ≤ length s.now) }
{
    let mut at = from;
    while let Some(stretch) = s[at..].first_chunk::<N>() {
        if is_in(stretch, octet) {
            break;
        }
        at += N;
    }
    at
}

// No turn leaves early, so that many are compared at once.
fn is_in<const N: usize>(stretch: &[u8; N], octet: u8) -> bool {
    let mut found = false;
    for x in stretch {
        found |= *x == octet;
    }
    found
}

// Puts s into t from `at` on, and answers the place behind it.
pub fn put(s: &[u8], t: &mut [u8], at: usize) -> usize
    requires { at + length s.now ≤ length t.old }
    ensures { result ≡ at + length s.now }
{
    let end = at + s.len();
    t[at..end].copy_from_slice(s);
    end
}

pub fn put_one(octet: u8, t: &mut [u8], at: usize) -> usize
    requires { at < length t.old }
    ensures { result ≡ at + 1 }
{
    t[at] = octet;
    at + 1
}

pub fn least(a: usize, b: usize) -> usize
    ensures { (result ≤ a) × (result ≤ b) }
{
    a.min(b)
}

// The first n octets, or all of them where there are fewer.
pub fn first(s: &[u8], n: usize) -> &[u8]
    ensures { length result.now ≤ length s.now }
{
    &s[..least(n, s.len())]
}

// Two neighbours as one number, the first of them times `step / 256`. They are read as one word and moved
// by one product, so that many are joined at once. Both are less than `step / 256`.
pub fn joined(s: &[u8], at: usize, step: u32) -> u8
    requires { (at + 2 ≤ length s.now) × (step ≤ 4097) }
{
    ((word(s, at) * step) / 256 % 256) as u8
}

fn word(s: &[u8], at: usize) -> u32
    requires { at + 2 ≤ length s.now }
    ensures { result < 65536 }
{
    u32::from(s[at]) + u32::from(s[at + 1]) * 256
}
