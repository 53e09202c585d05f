// The fields of records: how each is read from the front of bytes, and how it is written behind others. Reading one takes
// no memory.
ghost use Rattle.std.specs.Prelude.{◌≡◌, ◌++◌, length, if◌then◌else◌, Some, None, OnOk, IfErr};
ghost use Rattle.std.specs.Int.{w16, w32, w64};
ghost use Rattle.e3_types.specs.Sites.{bits_of};
ghost use Rattle.e3_types.specs.Spelling.{high_first, u8, u16, u32, spell_name, spell_val, spell_txn, spell_dir};
ghost use Rattle.e3_codec.specs.Reader.{Gives, number_at, byte_at, text_at};
ghost use Rattle.e3_codec.specs.Reading.{u32_at, txn_at, dir_at, is_name, name_at, val_at};

use crate::faults::Fault;
use e3_types::{Dir, List, Name, NoMemory, SiteSet, Txn, Val};

/// A number of four bytes.
#[tactic(auto, unfolding(crate::specs::Reader::number_at))]
pub fn u32_at(bytes: &[u8]) -> Result<(u32, &[u8]), Fault>
    ensures gives { Gives (λ x. (x.0, x.1.now)) result (u32_at bytes.now) }
    ensures sure { IfErr result (λ e. e ≡ Fault.Bad) }
{
    match bytes.split_first_chunk::<4>() {
        Some((front, rest)) => Ok((u32::from_be_bytes(*front), rest)),
        None => Err(Fault::Bad),
    }
}

#[tactic(auto, unfolding(crate::specs::Reader::number_at))]
fn u16_at(bytes: &[u8]) -> Result<(u16, &[u8]), Fault>
    ensures gives { Gives (λ x. (x.0, x.1.now)) result (number_at w16 bytes.now) }
    ensures sure { IfErr result (λ e. e ≡ Fault.Bad) }
{
    match bytes.split_first_chunk::<2>() {
        Some((front, rest)) => Ok((u16::from_be_bytes(*front), rest)),
        None => Err(Fault::Bad),
    }
}

#[tactic(auto, unfolding(crate::specs::Reader::number_at))]
fn u64_at(bytes: &[u8]) -> Result<(u64, &[u8]), Fault>
    ensures gives { Gives (λ x. (x.0, x.1.now)) result (number_at w64 bytes.now) }
    ensures sure { IfErr result (λ e. e ≡ Fault.Bad) }
{
    match bytes.split_first_chunk::<8>() {
        Some((front, rest)) => Ok((u64::from_be_bytes(*front), rest)),
        None => Err(Fault::Bad),
    }
}

/// One byte.
#[tactic(auto, unfolding(crate::specs::Reader::byte_at))]
pub fn u8_at(bytes: &[u8]) -> Result<(u8, &[u8]), Fault>
    ensures gives { Gives (λ x. (x.0, x.1.now)) result (byte_at bytes.now) }
    ensures sure { IfErr result (λ e. e ≡ Fault.Bad) }
{
    match bytes {
        [] => Err(Fault::Bad),
        [b, rest @ ..] => Ok((*b, rest)),
    }
}

/// A transaction.
#[tactic(auto, unfolding(crate::specs::Reading::txn_at))]
pub fn txn_at(bytes: &[u8]) -> Result<(Txn, &[u8]), Fault>
    ensures gives { Gives (λ x. (x.0, x.1.now)) result (txn_at bytes.now) }
    ensures sure { IfErr result (λ e. e ≡ Fault.Bad) }
{
    let (site, rest) = u32_at(bytes)?;
    let (inc, rest) = u32_at(rest)?;
    let (seq, rest) = u32_at(rest)?;
    let (sites, rest) = u64_at(rest)?;
    match Txn::new(site, inc, seq, SiteSet::of_bits(sites)) {
        Some(txn) => Ok((txn, rest)),
        None => Err(Fault::Bad),
    }
}

/// A direction.
#[tactic(auto, unfolding(crate::specs::Reading::dir_at, crate::specs::Reading::dir_of))]
pub fn dir_at(bytes: &[u8]) -> Result<(Dir, &[u8]), Fault>
    ensures gives { Gives (λ x. (x.0, x.1.now)) result (dir_at bytes.now) }
    ensures sure { IfErr result (λ e. e ≡ Fault.Bad) }
{
    let (code, rest) = u8_at(bytes)?;
    match code {
        0 => Ok((Dir::Abort, rest)),
        1 => Ok((Dir::Commit, rest)),
        _ => Err(Fault::Bad),
    }
}

// So many bytes.
#[tactic(auto, unfolding(crate::specs::Reader::text_at))]
fn text_at(count: usize, bytes: &[u8]) -> Result<(&[u8], &[u8]), Fault>
    ensures gives { Gives (λ x. (x.0.now, x.1.now)) result (text_at count bytes.now) }
    ensures sure { IfErr result (λ e. e ≡ Fault.Bad) }
{
    if bytes.len() < count {
        return Err(Fault::Bad);
    }
    Ok(bytes.split_at(count))
}

// The name of these bytes, if they are one.
fn name_of(text: &[u8]) -> Option<Name>
    ensures { result ≡ (if is_name text.now then Some text.now else None) }
{
    Name::new(text)
}

/// A name.
#[tactic(auto, unfolding(crate::specs::Reading::name_at))]
pub fn name_at(bytes: &[u8]) -> Result<(Name, &[u8]), Fault>
    ensures gives { Gives (λ x. (x.0, x.1.now)) result (name_at bytes.now) }
    ensures sure { IfErr result (λ e. e ≡ Fault.Bad) }
{
    let (len, rest) = u8_at(bytes)?;
    let (text, rest) = text_at(len as usize, rest)?;
    match name_of(text) {
        Some(name) => Ok((name, rest)),
        None => Err(Fault::Bad),
    }
}

/// A value.
#[tactic(auto, unfolding(crate::specs::Reading::val_at))]
pub fn val_at(bytes: &[u8]) -> Result<(Val, &[u8]), Fault>
    ensures gives { Gives (λ x. (x.0, x.1.now)) result (val_at bytes.now) }
    ensures sure { IfErr result (λ e. e ≡ Fault.Bad) }
{
    let (len, rest) = u16_at(bytes)?;
    let (text, rest) = text_at(len as usize, rest)?;
    match Val::new(text) {
        Some(val) => Ok((val, rest)),
        None => Err(Fault::Bad),
    }
}

/// Writes one byte.
#[tactic(auto, using(crate::proofs::Pieces::one_byte))]
pub fn put_u8(out: &mut List<u8>, n: u8) -> Result<(), NoMemory>
    ensures { OnOk result (out.new ≡ out.old ++ u8 n) }
{
    out.push(n)
}

/// Writes a number of four bytes.
#[tactic(auto, using(crate::proofs::Formats::high_4))]
pub fn put_u32(out: &mut List<u8>, n: u32) -> Result<(), NoMemory>
    ensures { OnOk result (out.new ≡ out.old ++ u32 n) }
{
    out.extend(&n.to_be_bytes())
}

#[tactic(auto, using(crate::proofs::Formats::high_2))]
fn put_u16(out: &mut List<u8>, n: u16) -> Result<(), NoMemory>
    ensures { OnOk result (out.new ≡ out.old ++ u16 n) }
{
    out.extend(&n.to_be_bytes())
}

#[tactic(auto, using(crate::proofs::Formats::high_8))]
fn put_u64(out: &mut List<u8>, n: u64) -> Result<(), NoMemory>
    ensures { OnOk result (out.new ≡ out.old ++ high_first 8 n) }
{
    out.extend(&n.to_be_bytes())
}

fn put_sites(out: &mut List<u8>, sites: SiteSet) -> Result<(), NoMemory>
    ensures { OnOk result (out.new ≡ out.old ++ high_first 8 (bits_of sites)) }
{
    put_u64(out, sites.bits())
}

/// Writes a transaction.
pub fn put_txn(out: &mut List<u8>, t: &Txn) -> Result<(), NoMemory>
    ensures { OnOk result (out.new ≡ out.old ++ spell_txn t.now) }
{
    put_u32(out, t.site)?;
    put_u32(out, t.inc)?;
    put_u32(out, t.seq)?;
    put_sites(out, t.sites)
}

/// Writes a direction.
pub fn put_dir(out: &mut List<u8>, dir: Dir) -> Result<(), NoMemory>
    ensures { OnOk result (out.new ≡ out.old ++ spell_dir dir) }
{
    match dir {
        Dir::Abort => put_u8(out, 0),
        Dir::Commit => put_u8(out, 1),
    }
}

// The length of a name, which fits into a byte, since a name has at most 32: its type says so of a name, and not of what is
// behind a reference.
fn name_len(name: &Name) -> u8
    ensures { result ≡ length name.now }
{
    let name = name.copy();
    name.bytes().len() as u8
}

// The length of a value, which fits into two bytes, since a value has at most 256.
fn val_len(val: &Val) -> u16
    ensures { result ≡ length val.now }
{
    let val = val.copy();
    val.bytes().len() as u16
}

/// Writes a name.
pub fn put_name(out: &mut List<u8>, name: &Name) -> Result<(), NoMemory>
    ensures { OnOk result (out.new ≡ out.old ++ spell_name name.now) }
{
    put_u8(out, name_len(name))?;
    out.extend(name.bytes())
}

/// Writes a value.
pub fn put_val(out: &mut List<u8>, val: &Val) -> Result<(), NoMemory>
    ensures { OnOk result (out.new ≡ out.old ++ spell_val val.now) }
{
    put_u16(out, val_len(val))?;
    out.extend(val.bytes())
}
