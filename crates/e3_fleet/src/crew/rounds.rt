// Rounds of all workers: passes are dealt, the workers work, and the passes are gathered again.
ghost use Rattle.std.specs.Prelude.{◌≡◌, ◌≢◌, ◌+◌, ◌<◌, [], ℕ, true, length, slice_index_or, OnOk, Err};
ghost use Rattle.e3_fleet.specs.crew.Crews.{AllEndedWell, HasDelivered, HasGoneOn, IsCrew, IsDelivering, OneWasRefused};
ghost use Rattle.e3_fleet.specs.declared.crew.worker.Worker.{Worker as Workers};
ghost use Rattle.e3_node.specs.Turns.{history_seen, scenario_seen};
ghost use Rattle.e3_play.specs.Delivered.{IsFullBefore, IsItemDue};
ghost use Rattle.e3_play.specs.Settled.{is_asking};
ghost use Rattle.e3_play.specs.declared.sites.RunFault.{RunFault as Faults};
ghost use Rattle.e3_play.specs.declared.sites.RunFault.TheVariants.{HistoryFull};
ghost use Rattle.e3_turn.specs.Passes.{seen_by};
ghost use Rattle.e3_wire.specs.Marks.{most_of};
ghost use Rattle.e3_world.specs.Items.{inputs_at, taken_at};
ghost use Rattle.e3_world.specs.Packets.{lines, present_items};
ghost use Rattle.e3_world.specs.Progress.{Delivering};

use crate::crew::Worker;
use crate::crew::forks::{Round, Turn, all_take, deal, gather};
use crate::crew::works::Works;
use e3_disk::{Disk, Drill};
use e3_node::others_leave_nodes;
use e3_outside::Gate;
use e3_play::RunFault;
use e3_types::SiteSet;
use e3_wire::{WirePass, marks_add_up};
use std::sync::Wait;
use std::thread::Threads;

// How the turns ended: the first refusal, where there is one.
fn ended<D: Disk + Drill + Drop>(workers: &[Worker<D>]) -> Result<(), RunFault>
    ensures well { OnOk result (AllEndedWell workers.now) }
    ensures refused { (fault : Faults) → result ≡ Err fault → OneWasRefused workers.now fault }
{
    for worker in workers {
        worker.ended?;
    }
    Ok(())
}

// The sites, with this one; a set has numbers from 1 to 64.
pub(crate) fn and_site(sites: SiteSet, site: u32) -> SiteSet {
    if site == 0 || site > 64 {
        sites
    } else {
        sites.with(site)
    }
}

// The sites that have items to take.
fn asked_sites<D: Disk + Drill + Drop>(workers: &[Worker<D>]) -> SiteSet {
    let mut asked = SiteSet::empty();
    for worker in workers {
        if !worker.items.is_empty() {
            asked = and_site(asked, worker.node.site());
        }
    }
    asked
}

// How a round of packets ended: a full history is looked for by the driver.
fn without_full(told: Result<(), RunFault>) -> Result<(), RunFault>
    ensures { result ≡ Err HistoryFull → ⊥ }
{
    match told {
        Err(RunFault::HistoryFull) => Ok(()),
        told => told,
    }
}

/// Each site takes its items of the present step, in their order. A step that asks one site alone starts no thread. No site
/// gives a promised place back meanwhile, so a history that was full for one of them is full when all are done.
pub(crate) fn item_round<D: Disk + Drill + Drop + Send, G: Gate + Sync, R: Wait + Threads + Sync>(
    rt: &R,
    works: &Works<G>,
    pass: &mut WirePass,
    workers: &mut [Worker<D>],
) -> Result<(), RunFault>
    requires crew { IsCrew D.meaning works.now.wire.now pass.old workers.old }
    requires begun { lines (history_seen pass.old) ≢ 0 }
    requires form { is_asking (present_items (scenario_seen pass.old) (history_seen pass.old)) ≡ true }
    requires items { (i : ℕ) (d : Workers D) → i < length workers.old →
        (slice_index_or workers.old i d).items ≡ inputs_at (scenario_seen pass.old) (history_seen pass.old) (i + 1) }
    requires fresh { (site : ℕ) → taken_at (history_seen pass.old) site ≡ [] }
    ensures crew { IsCrew D.meaning works.now.wire.now pass.new workers.new }
    ensures on { HasGoneOn D.meaning.meters (seen_by pass.old) workers.old (seen_by pass.new) workers.new }
    ensures done { OnOk result (Delivering (scenario_seen pass.old) (history_seen pass.new)) }
    ensures full { result ≡ Err HistoryFull → IsFullBefore IsItemDue (scenario_seen pass.old) (history_seen pass.new) (most_of (seen_by pass.old)) }
{
    others_leave_nodes::<D>();
    marks_add_up();
    let round = Round {
        turn: Turn::Items,
        busy: asked_sites(workers),
    };
    deal(works.wire, workers, pass);
    all_take(rt, works, &round, works.threads, workers);
    gather(works.wire, workers, pass);
    ended(workers)
}

/// Each site takes packets, the first to it, so many for one turn of work, until none is pending to it. At first some are
/// pending to the busy ones. A worker that is refused for a full history ends, and no more is made of that here: the driver
/// looks whether it is full before the next round.
pub(crate) fn packet_round<D: Disk + Drill + Drop + Send, G: Gate + Sync, R: Wait + Threads + Sync>(
    rt: &R,
    works: &Works<G>,
    busy: SiteSet,
    pass: &mut WirePass,
    workers: &mut [Worker<D>],
) -> Result<(), RunFault>
    requires { IsDelivering D.meaning works.now.wire.now pass.old workers.old }
    ensures went { HasDelivered D.meaning works.now.wire.now pass.old workers.old pass.new workers.new }
    ensures never { result ≡ Err HistoryFull → ⊥ }
{
    others_leave_nodes::<D>();
    marks_add_up();
    let round = Round {
        turn: Turn::Packets,
        busy,
    };
    deal(works.wire, workers, pass);
    all_take(rt, works, &round, works.threads, workers);
    gather(works.wire, workers, pass);
    without_full(ended(workers))
}
