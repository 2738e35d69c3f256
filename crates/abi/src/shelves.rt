// Shelves: looked up, kept, and asked which rule they break. A reference cannot be handed to C, so the record that lookup finds crosses as its stretch: where it
// lies.
ghost use Rattle.std.specs.Prelude.{◌≡◌, cond, not, eqb};
ghost use Rattle.bits.specs.Refusals.{refusal_number};
ghost use Rattle.shelf.specs.Lookup.{lookup_number};
ghost use Rattle.keeping.specs.Promises.{RecordPut, RecordRemoved};
ghost use Rattle.rules.specs.Promises.{ShelfRule};
ghost use Rattle.abi.specs.Promises.{too_large, Held, Nothing, LookedUpAt, refused_with};

use bits::number::{Refusal, Written};
use rules::Broken;

// The shelves as numbers. Where a shelf is asked for, every number but PUBLIC asks for a private one.
pub const PUBLIC: u32 = 0;

pub const PRIVATE: u32 = 1;

// What two octets hold at most.
const MOST: usize = 65535;

// Where the record lies that a tenant is given: on which shelf, from which octet on, and how many octets it has.
#[repr(C)]
#[derive(Clone, Copy)]
pub struct Stretch {
    pub number: u32,
    pub shelf: u32,
    pub start: usize,
    pub octets: usize,
}

// Whether one of the two is on no shelf, since it is more than two octets hold. A number is never cut to them: that would be another tenant's.
pub fn too_large(tenant: usize, profile: usize) -> bool
    ensures { result ≡ too_large tenant profile }
{
    if tenant > MOST {
        return true;
    }
    profile > MOST
}

fn shelf_number(own: bool) -> u32
    ensures { result ≡ cond own 1 0 }
{
    if own {
        return PRIVATE;
    }
    PUBLIC
}

pub fn kuambyte_lookup_number(private: &[u8], public: &[u8], tenant: usize, profile: usize) -> u32
    ensures { Held tenant profile (result ≡ 4) (result ≡ lookup_number private.now public.now tenant profile) }
{
    if too_large(tenant, profile) {
        return Refusal::NoRecord.number();
    }
    stretch_of(private, public, tenant as u16, profile as u16).number
}

// With a refusal it is the empty stretch at the start of the public shelf.
#[tactic(auto, unfolding(crate::specs::Promises::refused_with))]
fn refused_with(refusal: Refusal) -> Stretch
    ensures { result ≡ refused_with (refusal_number refusal) }
{
    Stretch {
        number: refusal.number(),
        shelf: PUBLIC,
        start: 0,
        octets: 0,
    }
}

// Where the record lies that a lookup found.
fn stretch_of(private: &[u8], public: &[u8], tenant: u16, profile: u16) -> Stretch
    ensures { LookedUpAt private.now public.now tenant profile result }
{
    match shelf::inner::look(private, public, tenant, profile) {
        Ok(found) => Stretch {
            number: 0,
            shelf: shelf_number(found.own),
            start: found.at,
            octets: found.size,
        },
        Err(refusal) => refused_with(refusal),
    }
}

pub fn kuambyte_lookup(private: &[u8], public: &[u8], tenant: usize, profile: usize) -> Stretch
    ensures { Held tenant profile (result ≡ refused_with 4) (LookedUpAt private.now public.now tenant profile result) }
{
    if too_large(tenant, profile) {
        return refused_with(Refusal::NoRecord);
    }
    stretch_of(private, public, tenant as u16, profile as u16)
}

// An entry of a shelf has no room for a larger number.
pub fn kuambyte_put_record(
    private: &[u8],
    tenant: usize,
    profile: usize,
    octets: &[u8],
    out: &mut [u8],
) -> Written
    ensures { Held tenant profile (Nothing 26 out.old result out.new) (RecordPut private.now tenant profile octets.now out.old result out.new) }
{
    if too_large(tenant, profile) {
        return Written::from(Err(Refusal::FullShelf));
    }
    Written::from(keeping::put_record(private, tenant as u16, profile as u16, octets, out))
}

pub fn kuambyte_remove_record(
    private: &[u8],
    tenant: usize,
    profile: usize,
    out: &mut [u8],
) -> Written
    ensures { Held tenant profile (Nothing 4 out.old result out.new) (RecordRemoved private.now tenant profile out.old result out.new) }
{
    if too_large(tenant, profile) {
        return Written::from(Err(Refusal::NoRecord));
    }
    Written::from(keeping::remove_record(private, tenant as u16, profile as u16, out))
}

pub fn kuambyte_rule_of_shelf(shelf: u32, octets: &[u8]) -> Broken
    ensures { ShelfRule (not (eqb shelf 0)) octets.now result }
{
    Broken::from(rules::of_shelf(shelf != PUBLIC, octets))
}
