// For the layers above, which have judged the profile once: its parts.
ghost use Rattle.std.specs.Prelude.{◌≡◌, ◌≤◌, ◌<◌, eqb, unwrap_or, IfSome};
ghost use Rattle.bits.specs.Ranges.{first_below};
ghost use Rattle.profile.specs.Record.{kb, m, kind, t, z, rows, columns, table};
ghost use Rattle.profile.specs.Promises.{judged};

use crate::parts;

// An entry that holds no shift: "255 for empty".
pub const EMPTY: u8 = 255;

pub fn kb(profile: &[u8]) -> usize
    requires { judged profile.now ≡ 0 }
    ensures { (result ≡ kb profile.now) × (1 ≤ result) × (result ≤ 20) }
{
    parts::kb(profile)
}

pub fn m(profile: &[u8]) -> usize
    requires { judged profile.now ≡ 0 }
    ensures { (result ≡ m profile.now) × (3 ≤ result) × (result ≤ 12) }
{
    parts::m(profile)
}

// The type, 1 or 2: a number, since rate matching, which takes it, does not stand on this crate.
pub fn kind(profile: &[u8]) -> usize
    requires { judged profile.now ≡ 0 }
    ensures { (result ≡ kind profile.now) × (1 ≤ result) × (result ≤ 2) }
{
    parts::kind(profile)
}

pub fn t(profile: &[u8]) -> usize
    requires { judged profile.now ≡ 0 }
    ensures { (result ≡ t profile.now) × (1 ≤ result) × (result ≤ 3) }
{
    parts::t(profile)
}

pub fn z(profile: &[u8], i: usize) -> usize
    requires { (judged profile.now ≡ 0) × (i < t profile.now) }
    ensures { (result ≡ z profile.now i) × (1 ≤ result) × (result ≤ 81) }
{
    parts::z(profile, i)
}

// How many rows and columns each table has.
pub fn rows(profile: &[u8]) -> usize
    requires { judged profile.now ≡ 0 }
    ensures { (result ≡ rows profile.now) × (3 ≤ result) × (result ≤ 40) }
{
    parts::rows(profile)
}

pub fn columns(profile: &[u8]) -> usize
    requires { judged profile.now ≡ 0 }
    ensures { (result ≡ columns profile.now) × (4 ≤ result) × (result ≤ 60) }
{
    parts::columns(profile)
}

pub fn table(profile: &[u8], i: usize) -> &[u8]
    requires { (judged profile.now ≡ 0) × (i < t profile.now) }
    ensures { result.now ≡ table profile.now i }
{
    parts::table(profile, i)
}

// Which of the sizes a z is, where the profile has it.
pub fn index_of(profile: &[u8], wanted: usize) -> Option<usize>
    requires { judged profile.now ≡ 0 }
    ensures first { unwrap_or result (t profile.now) ≡ first_below (t profile.now) (λ i. eqb (z profile.now i) wanted) }
    ensures within { IfSome result (λ i. i < t profile.now) }
{
    (0..t(profile)).find(|i| z(profile, *i) == wanted)
}
