// Shelves: looked up, kept, and asked which rule they break. A reference cannot be handed to C, so the record that lookup finds crosses as its stretch: where it
// lies.
ghost use Rattle.std.specs.Prelude.{◌≡◌, not, eqb};
ghost use Rattle.shelf.specs.Lookup.{lookup_number};
ghost use Rattle.keeping.specs.Promises.{RecordPut, RecordRemoved};
ghost use Rattle.rules.specs.Promises.{ShelfRule};
ghost use Rattle.abi.specs.Promises.{Held, Nothing, LookedUpAt, refused_with};

use abi::shelves::Stretch;
use bits::number::Written;
use rules::Broken;

#[unsafe(no_mangle)]
pub extern "C" fn kuambyte_lookup_number(
    private: &[u8],
    public: &[u8],
    tenant: usize,
    profile: usize,
) -> u32
    ensures { Held tenant profile (result ≡ 4) (result ≡ lookup_number private.now public.now tenant profile) }
{
    abi::shelves::kuambyte_lookup_number(private, public, tenant, profile)
}

#[unsafe(no_mangle)]
pub extern "C" fn kuambyte_lookup(
    private: &[u8],
    public: &[u8],
    tenant: usize,
    profile: usize,
) -> Stretch
    ensures { Held tenant profile (result ≡ refused_with 4) (LookedUpAt private.now public.now tenant profile result) }
{
    abi::shelves::kuambyte_lookup(private, public, tenant, profile)
}

#[unsafe(no_mangle)]
pub extern "C" fn kuambyte_put_record(
    private: &[u8],
    tenant: usize,
    profile: usize,
    octets: &[u8],
    out: &mut [u8],
) -> Written
    ensures { Held tenant profile (Nothing 26 out.old result out.new) (RecordPut private.now tenant profile octets.now out.old result out.new) }
{
    abi::shelves::kuambyte_put_record(private, tenant, profile, octets, out)
}

#[unsafe(no_mangle)]
pub extern "C" fn kuambyte_remove_record(
    private: &[u8],
    tenant: usize,
    profile: usize,
    out: &mut [u8],
) -> Written
    ensures { Held tenant profile (Nothing 4 out.old result out.new) (RecordRemoved private.now tenant profile out.old result out.new) }
{
    abi::shelves::kuambyte_remove_record(private, tenant, profile, out)
}

#[unsafe(no_mangle)]
pub extern "C" fn kuambyte_rule_of_shelf(shelf: u32, octets: &[u8]) -> Broken
    ensures { ShelfRule (not (eqb shelf 0)) octets.now result }
{
    abi::shelves::kuambyte_rule_of_shelf(shelf, octets)
}
