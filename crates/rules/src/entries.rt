// The rules of a shelf's entries (document 01, "Shelf and profile records"), once its count has been found right and its entries stand in it.
ghost use Rattle.std.specs.Prelude.{◌≡◌, ◌+◌, ◌*◌, ◌≤◌, ◌<◌, length};
ghost use Rattle.shelf.specs.Shelf.{count, tenant, rises, chained, tenant_right};
ghost use Rattle.rules.specs.Faults.{broken};
ghost use Rattle.rules.specs.Places.{smaller};
ghost use Rattle.rules.specs.Steps.Walks.{Counted, FirstNot, EntryRule, EndRule};

use crate::ShelfFault;
use crate::first::first_not;
use crate::shelf_rule::Rule;
use shelf::inner::entry;

// "Pairs (tenant, profile number) strictly rise".
fn rises(octets: &[u8], k: usize) -> bool
    requires { 10 + 8 * k ≤ length octets.now }
    ensures { result ≡ rises octets.now k }
{
    k == 0 || entry::pair(octets, k - 1) < entry::pair(octets, k)
}

fn first_fall(octets: &[u8], count: usize) -> Option<usize>
    requires { 2 + 8 * count ≤ length octets.now }
    ensures { FirstNot count (rises octets.now) result }
{
    first_not(count, |k| rises(octets, k))
}

// "The first offset is 2 + 8n, each next offset is the end of the record before".
fn is_due(octets: &[u8], k: usize) -> bool
    requires { (2 + 8 * count octets.now ≤ length octets.now) × (k < count octets.now) }
    ensures { result ≡ chained octets.now k }
{
    entry::offset(octets, k) == entry::due(octets, k)
}

fn first_loose(octets: &[u8], count: usize) -> Option<usize>
    requires { Counted octets.now count }
    ensures { FirstNot count (chained octets.now) result }
{
    first_not(count, |k| is_due(octets, k))
}

// "Every tenant is 0 in a public shelf and 1 or more in a private one".
fn is_tenant(private: bool, octets: &[u8], k: usize) -> bool
    requires { 10 + 8 * k ≤ length octets.now }
    ensures { result ≡ tenant_right private (tenant octets.now k) }
{
    let tenant = entry::tenant(octets, k);
    if private {
        return 1 <= tenant;
    }
    tenant == 0
}

fn first_stranger(private: bool, octets: &[u8], count: usize) -> Option<usize>
    requires { 2 + 8 * count ≤ length octets.now }
    ensures { FirstNot count (λ k. tenant_right private (tenant octets.now k)) result }
{
    first_not(count, |k| is_tenant(private, octets, k))
}

// The smaller of two places.
pub fn smaller(a: usize, b: usize) -> usize
    ensures { (result ≡ smaller a b) × (result ≤ a) × (result ≤ b) }
{
    if a < b {
        return a;
    }
    b
}

// What is told of a rule that is about no entry.
pub fn of_count(rule: Rule, at: usize) -> ShelfFault
    ensures { result ≡ record { rule = rule; entry = 0; at = at } }
{
    ShelfFault { rule, entry: 0, at }
}

// The last three rules: the end, the size and the tenants.
fn of_end(private: bool, octets: &[u8], count: usize) -> Option<ShelfFault>
    requires { Counted octets.now count }
    ensures { EndRule private octets.now (broken result) }
{
    let size = octets.len();
    let end = entry::due(octets, count);
    if size != end {
        return Some(of_count(Rule::End, smaller(size, end)));
    }
    if 65535 < size {
        return Some(of_count(Rule::Size, 65535));
    }
    if let Some(k) = first_stranger(private, octets, count) {
        return Some(ShelfFault {
            rule: Rule::Tenant,
            entry: k,
            at: 2 + 8 * k,
        });
    }
    None
}

// The rules behind those of the count.
pub fn of_entries(private: bool, octets: &[u8], count: usize) -> Option<ShelfFault>
    requires { Counted octets.now count }
    ensures { EntryRule private octets.now (broken result) }
{
    if let Some(fallen) = first_fall(octets, count) {
        return Some(ShelfFault {
            rule: Rule::Pairs,
            entry: fallen,
            at: 2 + 8 * fallen,
        });
    }
    if let Some(loose) = first_loose(octets, count) {
        if loose == 0 {
            return Some(of_count(Rule::FirstOffset, 6));
        }
        return Some(ShelfFault {
            rule: Rule::NextOffset,
            entry: loose,
            at: 6 + 8 * loose,
        });
    }
    of_end(private, octets, count)
}
