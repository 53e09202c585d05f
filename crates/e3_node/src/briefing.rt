// The short log that a log is turned to, where a frame has no room behind it.
// Why what a function owns is handed to `drop`: docs/DECISIONS.md, "What owns much is handed to `drop`".
ghost use Rattle.std.specs.Prelude.{◌≡◌, ◌≢◌, ◌≤◌, ◌<◌, [], ℕ, false, length, take, List as Items, IfOk, IsSome, Some as Given, None, Ok, Err};
ghost use Rattle.std.specs.List.{AllByRecursion as Each};
ghost use Rattle.e3_world.specs.Brief.{brief};
ghost use Rattle.e3_world.specs.Orderly.{IsOrderly};
ghost use Rattle.e3_node.specs.Batched.{IfReady};
ghost use Rattle.e3_node.specs.Briefing.{HasBody, IsBriefOf, IsReadBrief, asked_of, spare_for, spare_of};
ghost use Rattle.e3_node.specs.declared.briefing.Room.TheVariants as room;
ghost use Rattle.e3_node.specs.Telling.{IsOfSite};
ghost use Rattle.e3_node.specs.declared.readying.Unready.TheVariants as unready;
ghost use Rattle.e3_node.specs.site_log.Ends.{HasRoom, HasRoomUnlessShort, IsShortIf};
ghost use Rattle.e3_node.specs.declared.site_log.writing.Short.{Short as Shorts};
ghost use Rattle.e3_types.specs.declared.records.Record.{Record as Records};

use crate::batching::Batch;
use crate::fitting::spelled;
use crate::readying::{Readied, Unready, Wish, rebuilt};
use crate::site_log::Short;
use e3_disk::Disk;
use e3_log::Log;
use e3_places::txn_id;
use e3_site::{Site, brief_of_site};
use e3_types::{Input, List, Message, NoMemory, Record, Txn};
use std::alloc::Global;

// A short log of these records, where there are any.
fn short_of(alloc: Global, records: &[Record]) -> Result<Option<Short>, NoMemory>
    ensures short { (site : ℕ) (l : Items Records) → records.now ≡ brief l → l ≢ [] → Each (IsOfSite site) (brief l) → IfOk result (IsShortIf site l) }
    ensures none { IfOk result (λ s. s ≡ None → records.now ≡ []) }
    ensures body { IfOk result HasBody }
{
    if records.is_empty() {
        return Ok(None);
    }
    let body = spelled(alloc, records)?;
    let count = records.len() as u64;
    Ok(Some(Short { body, count }))
}

/// What the log of a site that is up is turned to, where a frame of this length has no room behind it, and only there.
pub(crate) fn shorten<D: Disk>(
    alloc: Global,
    site: &Site,
    log: &Log<D>,
    records: &[Record],
    len: u64,
) -> Result<Option<Short>, NoMemory>
    ensures short { (l : Items Records) → IsBriefOf site.now l → IfOk result (IsShortIf site.now.site l) }
    ensures due { (l : Items Records) → IsBriefOf site.now l → log.now.failed ≡ false → records.now ≢ [] →
        IfOk result (λ s. HasRoomUnlessShort D.meaning.meters log.now l s len) }
    ensures needed { IfOk result (λ s. IsSome s → (records.now ≢ []) × (HasRoom D.meaning.meters log.now len → ⊥)) }
    ensures body { IfOk result HasBody }
{
    if records.is_empty() || log.fits(len) {
        return Ok(None);
    }
    let records = brief_of_site(alloc, site)?;
    short_of(alloc, records.as_slice())
}

// The brief of the records that a rise read. It is taken of a site that rose with them, since that is quick.
fn brief_read(alloc: Global, site: u32, read: &[Record]) -> Result<List<Record>, Unready>
    requires some { 0 < length read.now }
    ensures brief { (l : Items Records) → IsReadBrief site read.now l → IfOk result (λ out. out ≡ brief l) }
    ensures never { IsOrderly site read.now → result ≡ Err unready.Foreign → ⊥ }
{
    let before = rebuilt(alloc, site, read)?;
    let brief = brief_of_site(alloc, &before);
    drop(before);
    Ok(brief?)
}

/// What the log that a rise read is turned to, where the frame of the rise has no room behind it, and only there. An empty log
/// is not turned.
pub(crate) fn shorten_read<D: Disk>(
    wish: &Wish,
    log: &Log<D>,
    rise: &Readied,
) -> Result<Option<Short>, Unready>
    requires { rise.now.read ≤ length rise.now.rose }
    ensures short { (l : Items Records) → IsReadBrief wish.now.site (take rise.now.read rise.now.rose) l → IfOk result (IsShortIf wish.now.site l) }
    ensures due { (l : Items Records) → IsReadBrief wish.now.site (take rise.now.read rise.now.rose) l → log.now.failed ≡ false →
        IfOk result (λ s. HasRoomUnlessShort D.meaning.meters log.now l s (length rise.now.body)) }
    ensures needed { IfOk result (λ s. IsSome s → (rise.now.read ≢ 0) × (HasRoom D.meaning.meters log.now (length rise.now.body) → ⊥)) }
    ensures body { IfOk result HasBody }
    ensures never { IsOrderly wish.now.site (take rise.now.read rise.now.rose) → result ≡ Err unready.Foreign → ⊥ }
{
    if rise.read == 0 || log.fits(rise.body.len()) {
        return Ok(None);
    }
    let read = &rise.rose.as_slice()[..rise.read as usize];
    let records = brief_read(wish.alloc, wish.site, read)?;
    Ok(short_of(wish.alloc, records.as_slice())?)
}

// How many operations of a transaction stand at a site.
fn asked_of(site: &Site, t: &Txn) -> u64
    ensures { result ≡ asked_of site.now t.now }
{
    match site.tables().names.places.txns.get(&txn_id(t)) {
        Some(claims) => claims.standing.len(),
        None => 0,
    }
}

fn spare_of(site: &Site, input: &Input) -> u64
    ensures { result ≡ spare_of site.now input.now }
{
    match input {
        Input::Deliver { packet } => match &packet.msg {
            Message::Do { .. } => 400,
            Message::VoteReq { txn, .. } => 400u64.saturating_mul(asked_of(
                site, txn,
            ).saturating_add(1)),
            _ => 100,
        },
        _ => 100,
    }
}

/// How many bytes more than its frame has so far a batch of these inputs may want: what a site records of a packet is a few
/// numbers but for a vote, which has the operations of its transaction. Nothing rests on it but how often a brief is made, and
/// how many of the inputs one frame takes where more are recorded than that.
pub(crate) fn spare_for(site: &Site, inputs: &[Input]) -> u64
    ensures { result ≡ spare_for site.now inputs.now }
{
    let mut spare = 0u64;
    for input in inputs {
        spare = spare.saturating_add(spare_of(site, input));
    }
    spare
}

/// Whether the frame of a batch takes one input more.
#[derive(Drop)]
pub(crate) enum Room {
    /// It does, and this is what the log is turned to for it, if that was not settled before.
    Ready(Option<Short>),
    /// It has no room behind the log, and the log can't be turned any more.
    Full,
}

/// Whether a batch has room for one input more, with which its frame has these records and this length. The site has done the
/// steps before: once they recorded something, its tables don't tell the brief of the log any more, so that the log is turned
/// only if that was settled before.
pub(crate) fn shorten_batch<D: Disk>(
    alloc: Global,
    site: &Site,
    log: &Log<D>,
    batch: &Batch,
    records: &[Record],
    len: u64,
    spare: u64,
) -> Result<Room, NoMemory>
    ensures short { (l : Items Records) → (batch.now.records ≡ [] → IsBriefOf site.now l) → IfOk result (λ r. IfReady r (IsShortIf site.now.site l)) }
    ensures due { (l : Items Records) → (batch.now.records ≡ [] → IsBriefOf site.now l) → log.now.failed ≡ false → records.now ≢ [] →
        batch.now.short ≡ None → IfOk result (λ r. IfReady r (λ s. HasRoomUnlessShort D.meaning.meters log.now l s len)) }
    ensures body { IfOk result (λ r. IfReady r HasBody) }
    ensures none { (s : Shorts) → batch.now.short ≡ Given s → result ≡ Ok (room.Ready None) }
    ensures full { IfOk result (λ r. r ≡ room.Full → (batch.now.records ≢ []) × (batch.now.short ≡ None) × (HasRoom D.meaning.meters log.now len → ⊥)) }
{
    if records.is_empty() || batch.short.is_some() {
        return Ok(Room::Ready(None));
    }
    if batch.records.is_empty() {
        let len = len.saturating_add(spare);
        return Ok(Room::Ready(shorten(alloc, site, log, records, len)?));
    }
    if log.fits(len) {
        return Ok(Room::Ready(None));
    }
    Ok(Room::Full)
}
