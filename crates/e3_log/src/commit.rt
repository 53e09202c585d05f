// The four calls of a disk that add a frame.
ghost use Rattle.std.specs.Prelude.{◌≡◌, ◌+◌, ◌≤◌, ◌<◌, ◌^◌, ◌++◌, ◌∷◌, [], List, ℕ, length, vec_capacity, OnOk, IfErr};
ghost use Rattle.e3_disk.specs.Images.{Holds, Only, Tears, Torn, overwritten};
ghost use Rattle.e3_disk.specs.declared.fault.DiskFault.TheVariants.{Failed};
ghost use Rattle.e3_log.specs.Frames.{OPEN as OPEN_GATE};
ghost use Rattle.e3_log.specs.Fronts.{turned};
ghost use Rattle.e3_log.specs.Stands.{Leaves, Spends, staged};

use e3_disk::{Disk, DiskFault};

/// The gate of a frame that counts.
pub const OPEN: u8 = 0xA5;

/// The byte with which the first body of a region begins that was turned to.
pub const TURN: u8 = 7;

/// Builds what stands behind the gate of a frame, in a buffer that has the room.
pub fn put_staged(buffer: &mut Vec<u8>, body: &[u8])
    requires room { length body.now + 5 ≤ vec_capacity buffer.old }
    requires fits { length body.now < 2 ^ 32 }
    ensures bytes { buffer.new.items ≡ staged body.now }
    ensures capacity { vec_capacity buffer.old ≤ vec_capacity buffer.new }
{
    buffer.clear();
    let _ = buffer.extend_from_slice(&(body.len() as u32).to_be_bytes());
    let _ = buffer.extend_from_slice(body);
    let _ = buffer.extend_from_slice(&[0]);
}

/// Builds what stands behind the gate of the first frame of a region that is turned to.
pub fn put_turned(buffer: &mut Vec<u8>, generation: u32, body: &[u8])
    requires room { length body.now + 10 ≤ vec_capacity buffer.old }
    requires fits { length body.now + 5 < 2 ^ 32 }
    ensures bytes { buffer.new.items ≡ staged (turned generation body.now) }
    ensures capacity { vec_capacity buffer.old ≤ vec_capacity buffer.new }
{
    buffer.clear();
    let _ = buffer.extend_from_slice(&(body.len() as u32 + 5).to_be_bytes());
    let _ = buffer.extend_from_slice(&[TURN]);
    let _ = buffer.extend_from_slice(&generation.to_be_bytes());
    let _ = buffer.extend_from_slice(body);
    let _ = buffer.extend_from_slice(&[0]);
}

// Writes what stands behind the closed gate, and makes it durable.
fn write_frame<D: Disk>(disk: &mut D, end: u64, bytes: &[u8]) -> Result<(), DiskFault>
    requires gate { end < length (D.meaning.content disk.old) }
    requires room { end + 1 + length bytes.now ≤ (D.meaning.meters disk.old).capacity }
    requires bound { (D.meaning.meters disk.old).capacity ≤ 2 ^ 30 }
    ensures written { OnOk result (Holds (D.meaning.content disk.old) (end + 1) bytes.now (D.meaning.content disk.new)) }
    ensures durable { OnOk result (Only (D.meaning.content disk.new) (D.meaning.image disk.new)) }
    ensures images { Tears (end + 1) (length bytes.now) (D.meaning.image disk.old) (D.meaning.image disk.new) }
    ensures failed { IfErr result (λ e. e ≡ Failed) }
    ensures meters { Spends 2 (D.meaning.meters disk.old) (D.meaning.meters disk.new) result }
    ensures long { OnOk result (length (D.meaning.content disk.old) ≤ length (D.meaning.content disk.new)) }
    ensures behind { OnOk result (end + 1 + length bytes.now ≤ length (D.meaning.content disk.new)) }
{
    disk.write_at(end + 1, bytes)?;
    disk.sync()?;
    Ok(())
}

// Sets one gate, and makes it durable.
fn set_gate<D: Disk>(disk: &mut D, place: u64, gate: u8) -> Result<(), DiskFault>
    requires gate { place < length (D.meaning.content disk.old) }
    requires room { place + 1 ≤ (D.meaning.meters disk.old).capacity }
    ensures written { OnOk result (Holds (D.meaning.content disk.old) place (gate ∷ []) (D.meaning.content disk.new)) }
    ensures durable { OnOk result (Only (D.meaning.content disk.new) (D.meaning.image disk.new)) }
    ensures images { Tears place 1 (D.meaning.image disk.old) (D.meaning.image disk.new) }
    ensures failed { IfErr result (λ e. e ≡ Failed) }
    ensures meters { Spends 2 (D.meaning.meters disk.old) (D.meaning.meters disk.new) result }
    ensures long { OnOk result (length (D.meaning.content disk.old) ≤ length (D.meaning.content disk.new)) }
{
    disk.write_at(place, &[gate])?;
    disk.sync()?;
    Ok(())
}

/// Closes a gate.
pub fn shut_gate<D: Disk>(disk: &mut D, place: u64) -> Result<(), DiskFault>
    requires gate { place < length (D.meaning.content disk.old) }
    requires room { place + 1 ≤ (D.meaning.meters disk.old).capacity }
    ensures written { OnOk result (D.meaning.content disk.new ≡ overwritten (D.meaning.content disk.old) place (0 ∷ [])) }
    ensures durable { OnOk result (Only (D.meaning.content disk.new) (D.meaning.image disk.new)) }
    ensures images { Only (D.meaning.content disk.old) (D.meaning.image disk.old) → (c : List ℕ) → D.meaning.image disk.new c → Torn place 1 (D.meaning.content disk.old) c }
    ensures failed { IfErr result (λ e. e ≡ Failed) }
    ensures meters { Spends 2 (D.meaning.meters disk.old) (D.meaning.meters disk.new) result }
    ensures long { OnOk result (length (D.meaning.content disk.old) ≤ length (D.meaning.content disk.new)) }
{
    set_gate(disk, place, 0)
}

/// Adds a frame, of which these bytes stand behind its gate, at a closed gate: by four calls of the disk.
pub fn commit<D: Disk>(disk: &mut D, end: u64, bytes: &[u8]) -> Result<(), DiskFault>
    requires gate { end < length (D.meaning.content disk.old) }
    requires room { end + 1 + length bytes.now ≤ (D.meaning.meters disk.old).capacity }
    requires bound { (D.meaning.meters disk.old).capacity ≤ 2 ^ 30 }
    ensures written { OnOk result (D.meaning.content disk.new ≡ overwritten (overwritten (D.meaning.content disk.old) (end + 1) bytes.now) end (OPEN_GATE ∷ [])) }
    ensures durable { OnOk result (Only (D.meaning.content disk.new) (D.meaning.image disk.new)) }
    ensures images { Only (D.meaning.content disk.old) (D.meaning.image disk.old) → (c : List ℕ) → D.meaning.image disk.new c → Leaves (D.meaning.content disk.old) end bytes.now c }
    ensures failed { IfErr result (λ e. e ≡ Failed) }
    ensures meters { Spends 4 (D.meaning.meters disk.old) (D.meaning.meters disk.new) result }
    ensures long { OnOk result (length (D.meaning.content disk.old) ≤ length (D.meaning.content disk.new)) }
    ensures behind { OnOk result (end + 1 + length bytes.now ≤ length (D.meaning.content disk.new)) }
{
    write_frame(disk, end, bytes)?;
    set_gate(disk, end, OPEN)?;
    Ok(())
}
