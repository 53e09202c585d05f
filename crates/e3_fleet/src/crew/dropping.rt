// The driver's turn between rounds: it drops the packets to sites that are down.
ghost use Rattle.std.specs.Prelude.{◌≡◌, ◌<◌, [], ℕ, false, length, slice_index_or, None, Err, IfOk};
ghost use Rattle.e3_fleet.specs.crew.Crews.{HasDelivered, IsDelivering};
ghost use Rattle.e3_fleet.specs.crew.Drops.{DropHadNoRoom, HasDropped};
ghost use Rattle.e3_fleet.specs.declared.crew.worker.Worker.{Worker as Workers};
ghost use Rattle.e3_node.specs.NodeStands.{NodeStands};
ghost use Rattle.e3_node.specs.Turns.{history_seen, scenario_seen};
ghost use Rattle.e3_play.specs.Delivered.{IsFullBefore, IsPacketDue};
ghost use Rattle.e3_play.specs.declared.sites.RunFault.TheVariants.{HistoryFull};
ghost use Rattle.e3_turn.specs.Passes.{seen_by};
ghost use Rattle.e3_wire.specs.Wires.{IsPlayed};
ghost use Rattle.e3_wire.specs.Marks.{entries_of, most_of, scenario_of};
ghost use Rattle.e3_world.specs.Items.{is_up_at};
ghost use Rattle.e3_world.specs.Packets.{is_calm, pending, present_items};

use crate::crew::Worker;
use crate::crew::fault::run_fault;
use crate::crew::rounds::and_site;
use e3_disk::{Disk, Drill};
use e3_node::others_leave_nodes;
use e3_play::RunFault;
use e3_types::SiteSet;
use e3_wire::{Shared, Wire, WirePass, drivers_may_put_marks, marks_add_up};
use std::sync::Wait;

// Drops the packets that are pending to a site that is down.
fn drop_all_for<R: Wait>(rt: &R, shared: &mut Shared, site: u32) -> Result<(), RunFault>
    requires played { IsPlayed shared.old }
    requires down { is_up_at (entries_of shared.old) site ≡ false }
    requires restless { is_calm (present_items (scenario_of shared.old) (entries_of shared.old)) ≡ false }
    ensures dropped { HasDropped shared.old shared.new }
    ensures full { result ≡ Err HistoryFull → DropHadNoRoom shared.new }
{
    for _ in rt.forever() {
        match shared.drop_for(site) {
            Ok(None) => return Ok(()),
            Ok(Some(_number)) => {}
            Err(fault) => return Err(run_fault(fault)),
        }
    }
    unreachable!()
}

// Drops the packets that are pending to a worker's site, where it is down.
fn drop_to<D: Disk + Drill + Drop, R: Wait>(
    rt: &R,
    shared: &mut Shared,
    worker: &Worker<D>,
) -> Result<(), RunFault>
    requires played { IsPlayed shared.old }
    requires restless { is_calm (present_items (scenario_of shared.old) (entries_of shared.old)) ≡ false }
    requires standing { NodeStands D.meaning (scenario_of shared.old) (entries_of shared.old) worker.now.node }
    ensures dropped { HasDropped shared.old shared.new }
    ensures full { result ≡ Err HistoryFull → DropHadNoRoom shared.new }
{
    if worker.node.is_up() {
        return Ok(());
    }
    drop_all_for(rt, shared, worker.node.site())
}

// `HistoryFull` where a packet is pending and the history has no room for one more entry.
fn room_for_first(shared: &Shared) -> Result<(), RunFault>
    ensures { result ≡ Err HistoryFull → DropHadNoRoom shared.now }
{
    let full = shared.is_full();
    let first = shared.first();
    if full && first.is_some() {
        Err(RunFault::HistoryFull)
    } else {
        Ok(())
    }
}

// Drops the packets that are pending to sites that are down, in what the driver took of the wire. `HistoryFull` comes where
// one is pending, to any site, and the history has no room for one more entry.
fn drop_in<D: Disk + Drill + Drop, R: Wait>(
    rt: &R,
    shared: &mut Shared,
    workers: &[Worker<D>],
) -> Result<(), RunFault>
    requires played { IsPlayed shared.old }
    requires restless { is_calm (present_items (scenario_of shared.old) (entries_of shared.old)) ≡ false }
    requires standing { (i : ℕ) (d : Workers D) → i < length workers.now →
        NodeStands D.meaning (scenario_of shared.old) (entries_of shared.old) (slice_index_or workers.now i d).node }
    ensures dropped { HasDropped shared.old shared.new }
    ensures full { result ≡ Err HistoryFull → DropHadNoRoom shared.new }
{
    others_leave_nodes::<D>();
    for worker in workers {
        shared.tell();
        drop_to(rt, shared, worker)?;
    }
    room_for_first(shared)
}

// The sites that packets are pending to; none only where none is pending at all.
fn busy_sites<D: Disk + Drill + Drop>(shared: &Shared, workers: &[Worker<D>]) -> Option<SiteSet>
    ensures { result ≡ None → pending (scenario_of shared.now) (entries_of shared.now) ≡ [] }
{
    if shared.first().is_none() {
        return None;
    }
    let mut busy = SiteSet::empty();
    for worker in workers {
        if shared.next_to(worker.node.site()).is_some() {
            busy = and_site(busy, worker.node.site());
        }
    }
    Some(busy)
}

/// Drops the packets that are pending to sites that are down, and tells to which sites packets are pending then; none only
/// where none is pending at all.
pub(crate) fn drop_down<D: Disk + Drill + Drop, R: Wait>(
    rt: &R,
    wire: &Wire,
    pass: &mut WirePass,
    workers: &[Worker<D>],
) -> Result<Option<SiteSet>, RunFault>
    requires { IsDelivering D.meaning wire.now pass.old workers.now }
    ensures went { HasDelivered D.meaning wire.now pass.old workers.now pass.new workers.now }
    ensures none { IfOk result (λ busy. busy ≡ None → pending (scenario_seen pass.old) (history_seen pass.new) ≡ []) }
    ensures full { result ≡ Err HistoryFull → IsFullBefore IsPacketDue (scenario_seen pass.old) (history_seen pass.new) (most_of (seen_by pass.old)) }
{
    others_leave_nodes::<D>();
    marks_add_up();
    drivers_may_put_marks();
    let mut shared = wire.take(rt, pass);
    let dropped = drop_in(rt, &mut shared, workers);
    let busy = busy_sites(&shared, workers);
    wire.put(pass, shared);
    dropped?;
    Ok(busy)
}
