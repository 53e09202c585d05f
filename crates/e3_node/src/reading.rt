// The records of frames.
ghost use Rattle.std.specs.Prelude.{◌≡◌, ◌++◌, Err, IfOk, OnOk};
ghost use Rattle.std.specs.List.{flat_map};
ghost use Rattle.e3_codec.specs.Fields.{AllCanBeReadBack};
ghost use Rattle.e3_log.specs.Found.{bodies_of};
ghost use Rattle.e3_node.specs.Rising.{NoRecords, SomeIsBad};
ghost use Rattle.e3_node.specs.declared.readying.Unready.TheVariants as unready;
ghost use Rattle.e3_types.specs.Spelling.{spelling};

use crate::readying::Unready;
use e3_codec::{RecordFault, read_records};
use e3_log::Frame;
use e3_types::{List, NoMemory, Record};
use std::alloc::Global;

// Moves records to the end.
fn move_records(read: List<Record>, out: &mut List<Record>) -> Result<(), NoMemory>
    ensures { OnOk result (out.new ≡ out.old ++ read) }
{
    for r in read.into_vec() {
        out.push(r)?;
    }
    Ok(())
}

// The records of one frame.
fn records_in(alloc: Global, site: u32, body: &[u8]) -> Result<List<Record>, Unready>
    ensures read { IfOk result (λ rs. AllCanBeReadBack site rs × (body.now ≡ spelling rs)) }
    ensures foreign { result ≡ Err unready.Foreign → NoRecords site body.now }
{
    match read_records(alloc, site, body) {
        Ok(records) => Ok(records),
        Err(RecordFault::NoMemory) => Err(Unready::NoMemory),
        Err(RecordFault::Bad { .. }) => Err(Unready::Foreign),
    }
}

// The records of one frame stand behind those before it.
fn add_frame(
    alloc: Global,
    site: u32,
    frame: &Frame,
    records: &mut List<Record>,
) -> Result<(), Unready>
    ensures back { AllCanBeReadBack site records.old → OnOk result (AllCanBeReadBack site records.new) }
    ensures read { OnOk result (spelling records.old ++ frame.now.body ≡ spelling records.new) }
    ensures foreign { result ≡ Err unready.Foreign → NoRecords site frame.now.body }
{
    let read = records_in(alloc, site, frame.body.as_slice())?;
    move_records(read, records)?;
    Ok(())
}

/// The records of these frames, one frame after the other.
pub(crate) fn read_frames(
    alloc: Global,
    site: u32,
    frames: &[Frame],
) -> Result<List<Record>, Unready>
    ensures back { IfOk result (AllCanBeReadBack site) }
    ensures read { IfOk result (λ rs. flat_map (λ body. body) (bodies_of frames.now) ≡ spelling rs) }
    ensures foreign { result ≡ Err unready.Foreign → SomeIsBad site (bodies_of frames.now) }
{
    let mut records = List::new(alloc);
    for frame in frames {
        match add_frame(alloc, site, frame, &mut records) {
            Ok(()) => {}
            Err(fault) => return Err(fault),
        }
    }
    Ok(records)
}
