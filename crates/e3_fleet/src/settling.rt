// A step settles by the workers of its sites. The driver puts back what is shared, and takes it again behind their rounds.
ghost use Rattle.std.specs.Prelude.{◌≡◌, ◌≢◌, [], ℕ, true, OnOk, Err};
ghost use Rattle.e3_fleet.specs.Fleets.{FleetStands, IsFleetOn, IsTaken, nodes_of};
ghost use Rattle.e3_fleet.specs.Settling.{CanSettle, HasSettled};
ghost use Rattle.e3_play.specs.Delivered.{IsFullBefore, IsItemOrPacket};
ghost use Rattle.e3_play.specs.Settled.{StaysInStep, is_asking};
ghost use Rattle.e3_play.specs.declared.sites.RunFault.TheVariants.{HistoryFull};
ghost use Rattle.e3_wire.specs.Marks.{entries_of, most_of, scenario_of};
ghost use Rattle.e3_world.specs.Items.{plan_of, taken_at};
ghost use Rattle.e3_world.specs.Packets.{lines, pending, present_items};
ghost use Rattle.e3_world.specs.Progress.{Delivering};

use crate::counting::disks_are_counted;
use crate::crew::settle;
use crate::fleet::Fleet;
use crate::held::Held;
use core::mem::replace_with;
use e3_disk::{Disk, Drill};
use e3_outside::Gate;
use e3_play::RunFault;
use e3_types::List;
use e3_wire::{Wire, WirePass};
use e3_world::Addressed;
use std::alloc::Global;
use std::sync::Wait;
use std::thread::Threads;

// What a step asks of the sites, by their workers. Whatever it answers, all of the crew stands behind what it entered, and the
// driver holds it.
fn settled_by<D: Disk + Drill + Drop + Send, R: Wait + Threads + Sync, G: Gate + Sync>(
    rt: &R,
    alloc: Global,
    gate: &G,
    threads: usize,
    packets: u32,
    wire: &Wire,
    pass: &mut WirePass,
    held: Held<D>,
    inputs: &[Addressed],
) -> (Held<D>, Result<(), RunFault>)
    requires taken { IsTaken wire.now pass.old held.shared }
    requires standing { FleetStands D.meaning held.shared (nodes_of held.workers.items) }
    requires begun { lines (entries_of held.shared) ≢ 0 }
    requires form { is_asking (present_items (scenario_of held.shared) (entries_of held.shared)) ≡ true }
    requires asked { inputs.now ≡ plan_of (scenario_of held.shared) (entries_of held.shared) }
    requires fresh { (site : ℕ) → taken_at (entries_of held.shared) site ≡ [] }
    ensures taken { IsTaken wire.now pass.new result.0.shared }
    ensures on { IsFleetOn D.meaning held.shared result.0.shared (nodes_of held.workers.items) (nodes_of result.0.workers.items) }
    ensures grown { StaysInStep (entries_of held.shared) (entries_of result.0.shared) }
    ensures delivering { OnOk result.1 (Delivering (scenario_of held.shared) (entries_of result.0.shared)) }
    ensures settled { OnOk result.1 (pending (scenario_of held.shared) (entries_of result.0.shared) ≡ []) }
    ensures full { result.1 ≡ Err HistoryFull → IsFullBefore IsItemOrPacket (scenario_of held.shared) (entries_of result.0.shared) (most_of held.shared) }
{
    disks_are_counted::<D>();
    let Held {
        shared,
        mut workers,
    } = held;
    wire.put(pass, shared);
    let answer = settle(
        rt,
        alloc,
        wire,
        gate,
        threads,
        packets,
        pass,
        workers.as_mut_slice(),
        inputs,
    );
    let shared = wire.take(rt, pass);
    (Held { shared, workers }, answer)
}

// A fleet whose sites took what a step asks of them, and what came of it.
fn settled<D: Disk + Drill + Drop + Send, G: Gate + Sync, R: Wait + Threads + Sync>(
    rt: &R,
    gate: &G,
    threads: usize,
    packets: u32,
    fleet: Fleet<D>,
    inputs: List<Addressed>,
) -> (Fleet<D>, Result<(), RunFault>)
    requires { CanSettle D.meaning fleet inputs }
    ensures { HasSettled D.meaning fleet result.0 result.1 }
{
    let Fleet {
        alloc,
        wire,
        mut pass,
        held,
    } = fleet;
    let (held, answer) = settled_by(
        rt,
        alloc,
        gate,
        threads,
        packets,
        &wire,
        &mut pass,
        held,
        inputs.as_slice(),
    );
    (
        Fleet {
            alloc,
            wire,
            pass,
            held,
        },
        answer,
    )
}

/// What a step asks of the sites, and the packets that come of it, by the workers of the sites, in at most so many threads.
pub(crate) fn settle_fleet<D: Disk + Drill + Drop + Send, G: Gate + Sync, R: Wait + Threads + Sync>(
    rt: &R,
    gate: &G,
    threads: usize,
    packets: u32,
    fleet: &mut Fleet<D>,
    inputs: List<Addressed>,
) -> Result<(), RunFault>
    requires { CanSettle D.meaning fleet.old inputs }
    ensures { HasSettled D.meaning fleet.old fleet.new result }
{
    replace_with(
        fleet,
        inputs,
        |fleet: Fleet<D>, inputs: List<Addressed>| -> (Fleet<D>, Result<(), RunFault>)
            requires { CanSettle D.meaning fleet inputs }
        { settled(rt, gate, threads, packets, fleet, inputs) },
    )
}
