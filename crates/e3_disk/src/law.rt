// The disk model, over any writes with no sync between them.
ghost use Rattle.std.specs.Prelude.{◌≡◌, ◌<◌, ◌≤◌, List as Items, ℕ, All, length, slice_index};
ghost use Rattle.e3_disk.specs.Images.{TornBy, TearsBy, Only, Outside, greatest};
ghost use Rattle.e3_disk.specs.Pieces.{ranges_of};

use crate::{Disk, DiskFault};
use e3_types::List;

/// Whatever a crash leaves after any writes, bytes outside of each written range stay, and the length is between the
/// least and the greatest since.
pub fn torn_writes_keep_the_rest()
    ensures outside { (ws : Items (ℕ × ℕ)) (old new : Items ℕ) (i : ℕ) → TornBy ws old new →
        i < length old → Outside i ws → slice_index new i ≡ slice_index old i }
    ensures least { (ws : Items (ℕ × ℕ)) (old new : Items ℕ) → TornBy ws old new → length old ≤ length new }
    ensures greatest { (ws : Items (ℕ × ℕ)) (old new : Items ℕ) → TornBy ws old new → length new ≤ greatest (length old) ws }
{}

/// A write that is to be made: its bytes, and the place of the first.
#[derive(Drop)]
pub struct Piece {
    pub place: u64,
    pub bytes: List<u8>,
}

// Makes these writes in turn, up to the first that does not succeed.
fn make_writes<D: Disk>(disk: &mut D, pieces: &[Piece]) -> Result<(), DiskFault>
    requires { All (λ p. p.place ≤ length (D.meaning.content disk.old)) pieces.now }
    ensures { TearsBy (ranges_of pieces.now) (D.meaning.image disk.old) (D.meaning.image disk.new) }
{
    for piece in pieces {
        disk.write_at(piece.place, piece.bytes.as_slice())?;
    }
    Ok(())
}

/// Makes these writes in turn, up to the first that does not succeed, and no sync. What is said of the images holds
/// however it ends, so also for a stop in any of the writes, or between two of them.
pub fn write_pieces<D: Disk>(disk: &mut D, pieces: &[Piece]) -> Result<(), DiskFault>
    requires { All (λ p. p.place ≤ length (D.meaning.content disk.old)) pieces.now }
    // each image is one from before, of which these writes were torn
    ensures images { TearsBy (ranges_of pieces.now) (D.meaning.image disk.old) (D.meaning.image disk.new) }

    // behind a sync that succeeded, bytes outside of each range are what they were, and the length is between
    ensures outside { (image : Items ℕ) (i : ℕ) → Only (D.meaning.content disk.old) (D.meaning.image disk.old) → D.meaning.image disk.new image →
        i < length (D.meaning.content disk.old) → Outside i (ranges_of pieces.now) → slice_index image i ≡ slice_index (D.meaning.content disk.old) i }
    ensures lengths { (image : Items ℕ) → Only (D.meaning.content disk.old) (D.meaning.image disk.old) → D.meaning.image disk.new image →
        (length (D.meaning.content disk.old) ≤ length image) × (length image ≤ greatest (length (D.meaning.content disk.old)) (ranges_of pieces.now)) }
{
    make_writes(disk, pieces)
}
