// The sites of a run over their disks, as the driver sees them.
ghost use Rattle.e3_fleet.specs.Fleets.{FleetIsHeld, HaveKept, nodes_of};
ghost use Rattle.e3_wire.specs.Marks.{entries_of, most_of, scenario_of};
ghost use Rattle.std.specs.Prelude.{◌≡◌, ◌≤◌, ◌++◌, ◌∷◌, [], true, false, fold, length, IfOk, OnOk, OnErr, Err};

use crate::driving::{enter_drop, enter_line, enter_parts};
use crate::held::Held;
use e3_disk::{Disk, Drill};
use e3_node::other_entries_keep_nodes;
use e3_play::{RunFault, Sites};
use e3_types::{Entry, Input, Leave, List, NoMemory, Packet, SiteSet, Txn};
use e3_wire::{Wire, WirePass};
use std::alloc::Global;

/// The sites of a run: their workers, and the wire by which these share the history and the network. Between the rounds of
/// workers the driver has the turn, and holds what is shared.
#[derive(Drop)]
pub struct Fleet<D: Disk + Drill + Drop> {
    pub(crate) alloc: Global,
    pub(crate) wire: Wire,
    pub(crate) pass: WirePass,
    pub(crate) held: Held<D>,
}

impl<D: Disk + Drill + Drop> Sites for Fleet<D> {
    ghost scenario = { λ f. scenario_of f.held.shared };

    ghost entries = { λ f. entries_of f.held.shared };

    ghost most = { λ f. most_of f.held.shared };

    ghost stands = { λ f. FleetIsHeld D.meaning f.wire f.pass f.held.shared (nodes_of f.held.workers.items) };

    ghost since = { λ start f. HaveKept D.meaning.meters (scenario_of f.held.shared) (entries_of f.held.shared)
        (nodes_of start.held.workers.items) (nodes_of f.held.workers.items) };

    ghost is_legal = { λ f s. s.fleet.shared_stands.played.legal };

    ghost is_given = { λ f s. s.fleet.shared_stands.played.given };

    ghost within = { λ f s. s.fleet.shared_stands.within };

    fn history(&self) -> &[Entry] {
        self.held.shared.history()
    }

    // A site past the nodes, or site 0, is never up.
    #[tactic(auto, using(crate::proofs::Unmanned::site_zero))]
    fn is_up(&self, site: u32) -> bool {
        if site == 0 {
            return false;
        }
        if site as usize > self.held.workers.len() {
            return false;
        }
        self.held.is_up_at(site as usize - 1)
    }

    fn first(&self) -> Option<Packet> {
        self.held.shared.first()
    }

    fn open_txns(&self, site: u32) -> Result<List<Txn>, NoMemory> {
        let at = self.held.place(site);
        self.held.open_txns_at(self.alloc, at)
    }

    fn rise(&mut self, site: u32) -> Result<(), RunFault> {
        let at = self.held.place(site);
        self.held.rise_at(at)
    }

    fn input(&mut self, site: u32, input: Input) -> Result<(), RunFault> {
        let at = self.held.place(site);
        self.held.input_at(at, input)
    }

    fn cut(&mut self, site: u32) -> Result<(), RunFault> {
        let at = self.held.place(site);
        self.held.cut_at(at)
    }

    fn drop_first(&mut self, packet: &Packet) -> Result<(), RunFault> {
        other_entries_keep_nodes::<D>();
        enter_drop(&mut self.held.shared, packet)
    }

    fn line(&mut self, number: u32) -> Result<(), RunFault> {
        other_entries_keep_nodes::<D>();
        enter_line(&mut self.held.shared, number)
    }

    fn stop(&mut self, number: u32, site: u32, calls: u32, leave: Leave) -> Result<(), RunFault> {
        let at = self.held.place(site);
        self.held.stop_at(at, number, calls, leave)
    }

    fn parts(&mut self, parts: List<SiteSet>) -> Result<(), RunFault> {
        other_entries_keep_nodes::<D>();
        enter_parts(&mut self.held.shared, parts)
    }
}
