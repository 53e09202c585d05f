// A step settles: its items go to the workers, and then packets, in rounds.
ghost use Rattle.std.specs.Prelude.{◌≡◌, ◌≢◌, ◌<◌, [], ℕ, true, length, slice_index_or, IfOk, OnOk, Err};
ghost use Rattle.e3_fleet.specs.crew.Crews.{HasDelivered, HasGoneOn, IsCrew, IsDelivering};
ghost use Rattle.e3_fleet.specs.declared.crew.worker.Worker.{Worker as Workers};
ghost use Rattle.e3_node.specs.Turns.{history_seen, scenario_seen};
ghost use Rattle.e3_play.specs.Delivered.{IsFullBefore, IsItemOrPacket, IsPacketDue};
ghost use Rattle.e3_play.specs.Settled.{is_asking};
ghost use Rattle.e3_play.specs.declared.sites.RunFault.TheVariants.{HistoryFull};
ghost use Rattle.e3_turn.specs.Passes.{seen_by};
ghost use Rattle.e3_wire.specs.Marks.{most_of};
ghost use Rattle.e3_world.specs.Items.{inputs_to, plan_of, taken_at};
ghost use Rattle.e3_world.specs.Packets.{lines, pending, present_items};
ghost use Rattle.e3_world.specs.Progress.{Delivering};

use crate::crew::Worker;
use crate::crew::dropping::drop_down;
use crate::crew::rounds::{item_round, packet_round};
use crate::crew::works::Works;
use e3_disk::{Disk, Drill};
use e3_outside::Gate;
use e3_play::RunFault;
use e3_readings::inputs_to;
use e3_types::NoMemory;
use e3_wire::{Wire, WirePass};
use e3_world::Addressed;
use std::alloc::Global;
use std::sync::Wait;
use std::thread::Threads;

// Gives each worker the inputs that go to its site.
fn hand_out<D: Disk + Drill + Drop>(
    alloc: Global,
    workers: &mut [Worker<D>],
    inputs: &[Addressed],
) -> Result<(), NoMemory>
    ensures same { (i : ℕ) (d : Workers D) → i < length workers.old → (slice_index_or workers.new i d).node ≡ (slice_index_or workers.old i d).node }
    ensures items { OnOk result ((i : ℕ) (d : Workers D) → i < length workers.old →
        (slice_index_or workers.new i d).items ≡ inputs_to (slice_index_or workers.old i d).node.site inputs.now) }
{
    for worker in workers.iter_mut() {
        let items = inputs_to(alloc, inputs, worker.node.site() as u64)?;
        worker.items = items;
    }
    Ok(())
}

// Packets are delivered or dropped until none is pending: rounds of all workers, between which the driver drops packets to
// sites that are down. Where packets to one site alone are pending no thread is started.
fn deliver<D: Disk + Drill + Drop + Send, G: Gate + Sync, R: Wait + Threads + Sync>(
    rt: &R,
    works: &Works<G>,
    pass: &mut WirePass,
    workers: &mut [Worker<D>],
) -> Result<(), RunFault>
    requires { IsDelivering D.meaning works.now.wire.now pass.old workers.old }
    ensures went { HasDelivered D.meaning works.now.wire.now pass.old workers.old pass.new workers.new }
    ensures settled { OnOk result (pending (scenario_seen pass.old) (history_seen pass.new) ≡ []) }
    ensures full { result ≡ Err HistoryFull → IsFullBefore IsPacketDue (scenario_seen pass.old) (history_seen pass.new) (most_of (seen_by pass.old)) }
{
    for _ in rt.forever() {
        let Some(busy) = drop_down(rt, works.wire, pass, workers)? else {
            return Ok(());
        };
        packet_round(rt, works, busy, pass, workers)?;
    }
    unreachable!()
}

/// What the present step asks of the sites, and the packets that come of it: each site takes its own inputs, in their order,
/// and then packets are delivered or dropped until none is pending. Workers of several sites are at work at once, in at most
/// so many threads; where one site alone has something to take, none is started. A worker takes so many packets at most for
/// one turn of work, from 1 to 8, and 8 for every other number: they have one frame. An input of a site that is down is passed
/// over, and a site may fall in the midst of it. Whatever it answers, the pass owns all again.
pub fn settle<D: Disk + Drill + Drop + Send, G: Gate + Sync, R: Wait + Threads + Sync>(
    rt: &R,
    alloc: Global,
    wire: &Wire,
    gate: &G,
    most_threads: usize,
    most_packets: u32,
    pass: &mut WirePass,
    workers: &mut [Worker<D>],
    inputs: &[Addressed],
) -> Result<(), RunFault>
    requires crew { IsCrew D.meaning wire.now pass.old workers.old }
    requires begun { lines (history_seen pass.old) ≢ 0 }
    requires form { is_asking (present_items (scenario_seen pass.old) (history_seen pass.old)) ≡ true }
    requires asked { inputs.now ≡ plan_of (scenario_seen pass.old) (history_seen pass.old) }
    requires fresh { (site : ℕ) → taken_at (history_seen pass.old) site ≡ [] }
    ensures crew { IsCrew D.meaning wire.now pass.new workers.new }
    ensures on { HasGoneOn D.meaning.meters (seen_by pass.old) workers.old (seen_by pass.new) workers.new }
    ensures delivering { OnOk result (Delivering (scenario_seen pass.old) (history_seen pass.new)) }
    ensures settled { OnOk result (pending (scenario_seen pass.old) (history_seen pass.new) ≡ []) }
    ensures full { result ≡ Err HistoryFull → IsFullBefore IsItemOrPacket (scenario_seen pass.old) (history_seen pass.new) (most_of (seen_by pass.old)) }
{
    let works = Works {
        alloc,
        wire,
        gate,
        threads: most_threads,
        packets: most_packets,
    };
    hand_out(alloc, workers, inputs)?;
    item_round(rt, &works, pass, workers)?;
    deliver(rt, &works, pass, workers)
}
