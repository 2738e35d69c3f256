// Keeping a private shelf: a record is put on it or removed, and the new shelf is written to a lent output; the old one stays as it is.
#![tactic(auto)]

mod change;
mod spot;
mod write;

ghost use Rattle.bits.specs.Refusals.{written};
ghost use Rattle.keeping.specs.Promises.{RecordPut, RecordRemoved};

use bits::number::Refusal;

// Puts a record of a tenant on its shelf, in the place of the one that has its pair.
pub fn put_record(
    private: &[u8],
    tenant: u16,
    profile: u16,
    octets: &[u8],
    out: &mut [u8],
) -> Result<usize, Refusal>
    ensures { RecordPut private.now tenant profile octets.now out.old (written result) out.new }
{
    let asked = tenant as usize;
    let kind = profile as usize;
    let put = change::putting(private, asked, kind, octets, out.len())?;
    write::with_record(private, put.spot, asked, kind, octets, out, put.size);
    Ok(put.size)
}

// Removes the record of a tenant from its shelf.
pub fn remove_record(
    private: &[u8],
    tenant: u16,
    profile: u16,
    out: &mut [u8],
) -> Result<usize, Refusal>
    ensures { RecordRemoved private.now tenant profile out.old (written result) out.new }
{
    let asked = tenant as usize;
    let kind = profile as usize;
    let left = change::removing(private, asked, kind, out.len())?;
    write::without_record(private, left.spot, asked, kind, out, left.size);
    Ok(left.size)
}
