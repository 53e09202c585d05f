// A kind of field that stands in lists, and the list of them behind its count.
ghost use Rattle.std.specs.Prelude.{◌≡◌, ◌++◌, ◌<◌, ◌^◌, ℕ, List as Items, Option, OnOk, IfErr, length};
ghost use Rattle.e3_types.specs.Spelling.{spell_list};
ghost use Rattle.e3_codec.specs.Reader.{Gives, listed_at, times_at};

use crate::faults::Fault;
use crate::fields::{put_u32, u32_at};
use e3_types::{List, NoMemory};
use std::alloc::Global;

/// A field that has one spelling.
pub trait Field {
    /// The field at the front of bytes, in the log of a site, and the bytes behind it.
    ghost reading: { ℕ → Items ℕ → Option (Self × Items ℕ) };

    /// The bytes of a field.
    ghost spelled: { Self → Items ℕ };

    /// Reads the field at the front of these bytes. `Bad` comes exactly where none begins.
    fn read(site: u32, bytes: &[u8]) -> Result<(Self, &[u8]), Fault>
        ensures gives { Gives (λ x. (x.0, x.1.now)) result (reading site bytes.now) }
        ensures sure { IfErr result (λ e. e ≡ Fault.Bad) };

    /// Writes the field behind the others. Want of memory is the only error.
    fn put(&self, out: &mut List<u8>) -> Result<(), NoMemory>
        ensures { OnOk result (out.new ≡ out.old ++ spelled self.now) };
}

fn times<T: Field + Drop>(
    alloc: Global,
    site: u32,
    count: u32,
    bytes: &[u8],
) -> Result<(List<T>, &[u8]), Fault>
    ensures { Gives (λ x. (x.0, x.1.now)) result (times_at (T.reading site) count bytes.now) }
{
    let mut fields = List::new(alloc);
    let mut rest = bytes;
    for _ in 0..count {
        let (field, after) = T::read(site, rest)?;
        let Ok(()) = fields.push(field) else {
            return Err(Fault::NoMemory);
        };
        rest = after;
    }
    Ok((fields, rest))
}

/// A count, and so many fields. Memory is taken for the fields that are there, and not for those that the count promises.
pub fn list_at<T: Field + Drop>(
    alloc: Global,
    site: u32,
    bytes: &[u8],
) -> Result<(List<T>, &[u8]), Fault>
    ensures { Gives (λ x. (x.0, x.1.now)) result (listed_at (T.reading site) bytes.now) }
{
    let (count, rest) = u32_at(bytes)?;
    times(alloc, site, count, rest)
}

/// Writes a list: its count, and its fields. There is no such list of 2^32 fields or more.
pub fn put_list<T: Field>(out: &mut List<u8>, fields: &[T]) -> Result<(), NoMemory>
    ensures bytes { OnOk result (out.new ≡ out.old ++ spell_list T.spelled fields.now) }
    ensures few { OnOk result (length fields.now < 2 ^ 32) }
{
    let Ok(count) = u32::try_from(fields.len()) else {
        return Err(NoMemory);
    };
    put_u32(out, count)?;
    for field in fields {
        field.put(out)?;
    }
    Ok(())
}
