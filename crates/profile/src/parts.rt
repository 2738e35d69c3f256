// Reading a profile record: its numbers and its tables.
ghost use Rattle.std.specs.Prelude.{◌≡◌, true, ◌+◌, ◌*◌, ◌≤◌, ◌<◌, length};
ghost use Rattle.profile.specs.Record.{kb, m, x, kind, t, z, offset, rows, columns, table_size, offset_due};
ghost use Rattle.profile.specs.Steps.Shape.{front_right, shape_right, TableAt};

// The header's five numbers.
pub fn kb(profile: &[u8]) -> usize
    requires { 10 ≤ length profile.now }
    ensures { (result ≡ kb profile.now) × (result < 65536) }
{
    bits::inner::number_at(profile, 0)
}

pub fn m(profile: &[u8]) -> usize
    requires { 10 ≤ length profile.now }
    ensures { (result ≡ m profile.now) × (result < 65536) }
{
    bits::inner::number_at(profile, 2)
}

pub fn x(profile: &[u8]) -> usize
    requires { 10 ≤ length profile.now }
    ensures { (result ≡ x profile.now) × (result < 65536) }
{
    bits::inner::number_at(profile, 4)
}

pub fn kind(profile: &[u8]) -> usize
    requires { 10 ≤ length profile.now }
    ensures { (result ≡ kind profile.now) × (result < 65536) }
{
    bits::inner::number_at(profile, 6)
}

pub fn t(profile: &[u8]) -> usize
    requires { 10 ≤ length profile.now }
    ensures { (result ≡ t profile.now) × (result < 65536) }
{
    bits::inner::number_at(profile, 8)
}

// The pair of a size: its z and its offset.
pub fn z(profile: &[u8], i: usize) -> usize
    requires { 14 + 4 * i ≤ length profile.now }
    ensures { (result ≡ z profile.now i) × (result < 65536) }
{
    bits::inner::number_at(profile, 10 + 4 * i)
}

pub fn offset(profile: &[u8], i: usize) -> usize
    requires { 14 + 4 * i ≤ length profile.now }
    ensures { (result ≡ offset profile.now i) × (result < 65536) }
{
    bits::inner::number_at(profile, 12 + 4 * i)
}

// How many rows and columns a table has, and how many octets.
pub fn rows(profile: &[u8]) -> usize
    requires { front_right profile.now ≡ true }
    ensures { (result ≡ rows profile.now) × (3 ≤ result) × (result ≤ 40) }
{
    m(profile) + x(profile)
}

pub fn columns(profile: &[u8]) -> usize
    requires { front_right profile.now ≡ true }
    ensures { (result ≡ columns profile.now) × (4 ≤ result) × (result ≤ 60) }
{
    kb(profile) + rows(profile)
}

pub fn table_size(profile: &[u8]) -> usize
    requires { front_right profile.now ≡ true }
    ensures { (result ≡ table_size profile.now) × (result ≤ 2400) }
{
    rows(profile) * columns(profile)
}

// Where a table is due to start; asked past the last table, where the record is due to end.
pub fn offset_due(profile: &[u8], i: usize) -> usize
    requires { (front_right profile.now ≡ true) × (i ≤ 3) }
    ensures { result ≡ offset_due profile.now i }
{
    10 + 4 * t(profile) + i * table_size(profile)
}

// A table of a record whose tables can be read.
pub fn table(profile: &[u8], i: usize) -> &[u8]
    requires { (shape_right profile.now ≡ true) × (i < t profile.now) }
    ensures { TableAt profile.now i result.now }
{
    let start = offset(profile, i);
    let end = start + table_size(profile);
    &profile[start..end]
}
