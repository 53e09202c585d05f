// A rise of a site over its disk.
// Why what a function owns is handed to `drop`: docs/DECISIONS.md, "What owns much is handed to `drop`".
ghost use Rattle.std.specs.Prelude.{◌≡◌, ◌≢◌, ◌≤◌, [], ℕ, true, false, length, List as Items};
ghost use Rattle.e3_disk.specs.Meters.{Keeps};
ghost use Rattle.e3_log.specs.Found.{bodies_of};
ghost use Rattle.e3_log.specs.Stands.{Stands};
ghost use Rattle.e3_node.specs.Bodies.{DiskTells, log_with};
ghost use Rattle.e3_node.specs.NodeStands.{IsFallen, logged_in};
ghost use Rattle.e3_node.specs.NodeView.{disk_of, is_up_in};
ghost use Rattle.e3_node.specs.declared.readying.Wish.{Wish as Wishes};
ghost use Rattle.e3_node.specs.declared.rising.Raised.TheVariants as raises;
ghost use Rattle.e3_node.specs.Rising.{HasHistory, IsAllowed, IsReady, MayRise, RiseIsEntered, RiseMakes, RiseOver, RiseTakes, raised_by, raised_of, told_of};
ghost use Rattle.e3_node.specs.site_log.Ends.{HasRoomUnlessShort, IsShortIf, MayTurn};
ghost use Rattle.e3_node.specs.SharedStands.{IsClaimed};
ghost use Rattle.e3_types.specs.Spelling.{spelling};
ghost use Rattle.e3_types.specs.declared.entries.Entry.{Entry as Entries};
ghost use Rattle.e3_types.specs.declared.scenarios.Scenario.{Scenario};
ghost use Rattle.e3_wire.specs.Marks.{entries_of, scenario_of};
ghost use Rattle.e3_wire.specs.declared.marks.Mark.{Mark as MarkValue};

use crate::briefing::shorten_read;
use crate::entering::enter;
use crate::law::logs_are_sound;
use crate::readying::{Readied, Unready, Wish, ready};
use crate::site_log::{Short, write};
use crate::{RiseFault, State};
use e3_disk::{Disk, Drill};
use e3_log::{Frame, Log, OpenCause};
use e3_types::{Act, Entry, List, Why};
use e3_wire::Shared;

/// What became of a rise.
#[derive(Clone, Copy)]
pub(crate) enum Raised {
    /// The site is up.
    Risen { kept: bool, inc: u32 },
    /// Its frame was not written, or may not have been.
    Failed { kept: bool, inc: u32, why: Why },
    /// The disk failed before its log was read.
    Missed,
    /// There was no memory.
    NoMemory,
    /// What is on the disk is not the log of the site. It comes of no disk that stands for a history.
    Foreign,
}

fn raised_of(cause: OpenCause) -> Raised
    ensures { result ≡ raised_of cause }
{
    match cause {
        OpenCause::Failed => Raised::Missed,
        OpenCause::Damaged { .. } => Raised::Foreign,
        OpenCause::NoMemory => Raised::NoMemory,
    }
}

// The frame of the rise is added, behind what was read or behind the brief of that. No memory is taken.
fn log_rise<D: Disk + Drop>(
    mut log: Log<D>,
    rise: Readied,
    short: Option<Short>,
) -> (State<D>, Raised)
    requires spelled { rise.body ≡ spelling rise.records }
    requires some { rise.records ≢ [] }
    requires lit { (D.meaning.meters log.disk).powered ≡ true }
    requires may { MayTurn log short }
    ensures makes { (sc : Scenario) (h : Items Entries) (wish : Wishes) (logged : ℕ) (bodies : Items (Items ℕ)) → MayRise sc h wish → IsReady wish logged bodies rise →
        Stands D.meaning bodies log → DiskTells sc h wish.site (D.meaning.meters log.disk).capacity logged (D.meaning.image log.disk) →
        IsShortIf wish.site (log_with sc h wish.site rise.kept) short → HasRoomUnlessShort D.meaning.meters log (log_with sc h wish.site rise.kept) short (length rise.body) →
        RiseMakes D.meaning sc h wish.site log.disk result.0 result.1 }
    ensures keeps { Keeps (D.meaning.meters log.disk) (D.meaning.meters (disk_of result.0)) }
    ensures takes { RiseTakes 4 result.1 (D.meaning.meters log.disk) (D.meaning.meters (disk_of result.0)) }
{
    logs_are_sound();
    let kept = rise.kept;
    let inc = rise.inc;
    let mut logged = rise.read;
    let (records, body) = (rise.records.as_slice(), rise.body.as_slice());
    match write(&mut log, &mut logged, &short, records, body) {
        Ok(()) => {
            let Readied {
                up,
                rose,
                records,
                body,
                ..
            } = rise;
            drop(records);
            drop(body);
            (
                State::Up(up, log, rose, logged),
                Raised::Risen { kept, inc },
            )
        }
        Err(why) => {
            drop(rise);
            (
                State::Down(log.into_disk(), logged),
                Raised::Failed { kept, inc, why },
            )
        }
    }
}

fn raised_by(fault: Unready) -> Raised
    ensures { result ≡ raised_by fault }
{
    match fault {
        Unready::NoMemory => Raised::NoMemory,
        Unready::Foreign => Raised::Foreign,
    }
}

// A rise that is ready, over the log that was read.
fn shorten_and_log<D: Disk + Drop>(
    log: Log<D>,
    logged: u64,
    rise: Readied,
    wish: &Wish,
) -> (State<D>, Raised)
    requires lit { (D.meaning.meters log.disk).powered ≡ true }
    requires ready { (bodies : Items (Items ℕ)) × IsReady wish.now logged bodies rise × Stands D.meaning bodies log }
    requires history { HasHistory D.meaning wish.now logged log.disk }
    ensures makes { RiseOver D.meaning wish.now logged log.disk result.0 result.1 }
    ensures keeps { Keeps (D.meaning.meters log.disk) (D.meaning.meters (disk_of result.0)) }
    ensures takes { RiseTakes 4 result.1 (D.meaning.meters log.disk) (D.meaning.meters (disk_of result.0)) }
{
    logs_are_sound();
    match shorten_read(wish, &log, &rise) {
        Ok(short) => log_rise(log, rise, short),
        Err(fault) => {
            drop(rise);
            (State::Down(log.into_disk(), logged), raised_by(fault))
        }
    }
}

// The rise over the log that was read.
fn rise_over<D: Disk + Drop>(
    log: Log<D>,
    logged: u64,
    frames: &List<Frame>,
    wish: &Wish,
) -> (State<D>, Raised)
    requires stands { Stands D.meaning (bodies_of frames.now) log }
    requires lit { (D.meaning.meters log.disk).powered ≡ true }
    requires history { HasHistory D.meaning wish.now logged log.disk }
    ensures makes { RiseOver D.meaning wish.now logged log.disk result.0 result.1 }
    ensures keeps { Keeps (D.meaning.meters log.disk) (D.meaning.meters (disk_of result.0)) }
    ensures takes { RiseTakes 4 result.1 (D.meaning.meters log.disk) (D.meaning.meters (disk_of result.0)) }
{
    logs_are_sound();
    match ready(wish, logged, frames.as_slice()) {
        Ok(rise) => shorten_and_log(log, logged, rise, wish),
        Err(fault) => (State::Down(log.into_disk(), logged), raised_by(fault)),
    }
}

// The log is read. Its sync is one call of an arm.
fn open<D: Disk + Drop>(disk: D, logged: u64, wish: &Wish) -> (State<D>, Raised)
    requires lit { (D.meaning.meters disk).powered ≡ true }
    requires history { HasHistory D.meaning wish.now logged disk }
    ensures makes { RiseOver D.meaning wish.now logged disk result.0 result.1 }
    ensures keeps { Keeps (D.meaning.meters disk) (D.meaning.meters (disk_of result.0)) }
    ensures takes { RiseTakes 5 result.1 (D.meaning.meters disk) (D.meaning.meters (disk_of result.0)) }
{
    match Log::open(wish.alloc, disk) {
        Ok((log, frames)) => rise_over(log, logged, &frames, wish),
        Err(refused) => (State::Down(refused.disk, logged), raised_of(refused.cause)),
    }
}

// The disk has power from here on.
fn raise<D: Disk + Drill + Drop>(mut disk: D, logged: u64, wish: &Wish) -> (State<D>, Raised)
    requires history { HasHistory D.meaning wish.now logged disk }
    ensures makes { RiseOver D.meaning wish.now logged disk result.0 result.1 }
    ensures keeps { Keeps (D.meaning.meters disk) (D.meaning.meters (disk_of result.0)) }
    ensures takes { RiseTakes 5 result.1 (D.meaning.meters disk) (D.meaning.meters (disk_of result.0)) }
{
    disk.power_on();
    open(disk, logged, wish)
}

/// What a rise makes of a site that is down, over its disk.
pub(crate) fn risen<D: Disk + Drill + Drop>(state: State<D>, wish: Wish) -> (State<D>, Raised)
    requires down { is_up_in state ≡ false }
    requires history { HasHistory D.meaning wish (logged_in state) (disk_of state) }
    ensures makes { (sc : Scenario) (h : Items Entries) → MayRise sc h wish → IsFallen D.meaning sc h wish.site state →
        RiseMakes D.meaning sc h wish.site (disk_of state) result.0 result.1 }
    ensures keeps { Keeps (D.meaning.meters (disk_of state)) (D.meaning.meters (disk_of result.0)) }
    ensures takes { RiseTakes 5 result.1 (D.meaning.meters (disk_of state)) (D.meaning.meters (disk_of result.0)) }
{
    match state {
        State::Down(disk, logged) => raise(disk, logged, &wish),
        State::Up(..) => unreachable!(),
    }
}

/// What became of a rise is entered; where nothing is, the place that was claimed for it is given back.
pub(crate) fn enter_rise(shared: &mut Shared, owner: u32, raised: Raised)
    requires some { 1 ≤ owner }
    requires allowed { (before : Items MarkValue) × IsClaimed owner 0 before shared.old × IsAllowed (scenario_of before) (entries_of before) owner raised }
    ensures entered { (before : Items MarkValue) → IsClaimed owner 0 before shared.old → RiseIsEntered owner raised before shared.new }
{
    match raised {
        Raised::Risen { kept, inc } => {
            let act = Act::Rise { kept, inc };
            enter(shared, Entry { owner, act });
        }
        Raised::Failed { kept, inc, why } => {
            let act = Act::RiseFall { kept, inc, why };
            enter(shared, Entry { owner, act });
        }
        Raised::Missed => {
            let act = Act::Miss;
            enter(shared, Entry { owner, act });
        }
        Raised::NoMemory => shared.withdraw(owner, 0),
        Raised::Foreign => unreachable!(),
    }
}

/// What became of a rise, as it is told.
pub(crate) fn told(raised: Raised) -> Result<u32, RiseFault>
    requires not_foreign { raised ≢ raises.Foreign }
    ensures { result ≡ told_of raised }
{
    match raised {
        Raised::Risen { inc, .. } => Ok(inc),
        Raised::Failed { why, .. } => Err(RiseFault::Failed { why }),
        Raised::Missed => Err(RiseFault::Missed),
        Raised::NoMemory => Err(RiseFault::NoMemory),
        Raised::Foreign => unreachable!(),
    }
}
