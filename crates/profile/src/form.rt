// Whether a profile record is well formed (document 01, "Shelf and profile records"; document 02, CR 3), tested from the front, so that what is read is there.
ghost use Rattle.std.specs.Prelude.{◌≡◌, true, ◌+◌, ◌*◌, ◌≤◌, ◌<◌, length, get_or};
ghost use Rattle.bits.specs.Ranges.{all_below};
ghost use Rattle.profile.specs.Record.{t, rises, ends_right, shift_right, table_right};
ghost use Rattle.profile.specs.Steps.Shape.{ranges_right, kind_fits, front_right, size_right, shape_right};

use crate::inner::EMPTY;
use crate::parts;
use bits::inner::is_within;

#[tactic(auto, unfolding(crate::specs::Steps::Shape::ranges_right))]
fn ranges_right(kb: usize, m: usize, t: usize) -> bool
    ensures { result ≡ ranges_right kb m t }
{
    is_within(1, 20, kb) && is_within(3, 12, m) && is_within(1, 3, t)
}

// The type and the rows of the extension. That x is at most 37 follows from m.
#[tactic(auto, unfolding(crate::specs::Steps::Shape::kind_fits))]
fn kind_right(m: usize, x: usize, kind: usize) -> bool
    requires { (m ≤ 12) × (x < 65536) }
    ensures { result ≡ kind_fits m x kind }
{
    m + x <= 40 && is_within(1, 2, kind) && (kind == 2 || x == 0)
}

#[tactic(auto, unfolding(crate::specs::Steps::Shape::front_right))]
fn header_right(profile: &[u8]) -> bool
    ensures { result ≡ front_right profile.now }
{
    if profile.len() < 10 {
        return false;
    }
    let m = parts::m(profile);
    ranges_right(parts::kb(profile), m, parts::t(profile))
        && kind_right(m, parts::x(profile), parts::kind(profile))
}

#[tactic(auto, unfolding(crate::specs::Record::ends_right))]
fn ends_right(profile: &[u8]) -> bool
    requires { front_right profile.now ≡ true }
    ensures { result ≡ ends_right profile.now }
{
    profile.len() == parts::offset_due(profile, parts::t(profile))
}

#[tactic(auto, unfolding(crate::specs::Record::rises))]
fn is_rising(profile: &[u8], i: usize) -> bool
    requires { 14 + 4 * i ≤ length profile.now }
    ensures { result ≡ rises profile.now i }
{
    i == 0 || parts::z(profile, i - 1) < parts::z(profile, i)
}

#[tactic(auto, unfolding(crate::specs::Steps::Shape::size_right))]
fn size_right(profile: &[u8], i: usize) -> bool
    requires { (front_right profile.now ≡ true) × (14 + 4 * i ≤ length profile.now) × (i ≤ 3) }
    ensures { result ≡ size_right profile.now i }
{
    is_within(1, 81, parts::z(profile, i))
        && is_rising(profile, i)
        && parts::offset(profile, i) == parts::offset_due(profile, i)
}

fn sizes_right(profile: &[u8]) -> bool
    requires { (front_right profile.now ≡ true) × (ends_right profile.now ≡ true) }
    ensures { result ≡ all_below (t profile.now) (size_right profile.now) }
{
    (0..parts::t(profile)).all(|i| size_right(profile, i))
}

// All but the entries: where this holds, every table can be read.
#[tactic(auto, unfolding(crate::specs::Steps::Shape::shape_right))]
pub fn shape_right(profile: &[u8]) -> bool
    ensures { result ≡ shape_right profile.now }
{
    header_right(profile) && ends_right(profile) && sizes_right(profile)
}

fn shift_right(z: u8, s: u8) -> bool
    ensures { result ≡ shift_right z s }
{
    (s == EMPTY) | (s < z)
}

// It looks at every entry, with no early way out, so that the loop is straight.
fn shifts_right(z: u8, table: &[u8]) -> bool
    ensures { result ≡ all_below (length table.now) (λ k. shift_right z (get_or table.now k 0)) }
{
    let mut right = true;
    for s in table {
        right &= shift_right(z, *s);
    }
    right
}

fn table_right(profile: &[u8], i: usize) -> bool
    requires { (shape_right profile.now ≡ true) × (i < t profile.now) }
    ensures { result ≡ table_right profile.now i }
{
    let z = parts::z(profile, i) as u8;
    shifts_right(z, parts::table(profile, i))
}

// The entries of every table.
pub fn tables_right(profile: &[u8]) -> bool
    requires { shape_right profile.now ≡ true }
    ensures { result ≡ all_below (t profile.now) (table_right profile.now) }
{
    (0..parts::t(profile)).all(|i| table_right(profile, i))
}
