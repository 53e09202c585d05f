// A site of a run over its disk.
ghost use Rattle.std.specs.Prelude.{◌≡◌, ◌⊎◌, ◌≤◌, ◌<◌, ◌++◌, ◌∷◌, ◌↔◌, [], true, false, length, fold, List as Items, OnOk, OnErr, IfOk, Err};
ghost use Rattle.e3_disk.specs.Images.{IsBlank};
ghost use Rattle.e3_disk.specs.Leaves.{code_of};
ghost use Rattle.e3_disk.specs.Meters.{Keeps, HasFailed, armed, cut};
ghost use Rattle.e3_laws.specs.local.Drafts.{MayTake, MayTakeAll};
ghost use Rattle.e3_laws.specs.local.Least.{AreFirstTo};
ghost use Rattle.e3_node.specs.Batches.{BatchEnded};
ghost use Rattle.e3_node.specs.Bodies.{DiskStands};
ghost use Rattle.e3_node.specs.Ends.{FellOver, HasFailedToRise, HasRisen, HasRoomBehind, IsOneFrame, OnLogs, is_fall};
ghost use Rattle.e3_node.specs.NodeStands.{NodeStands};
ghost use Rattle.e3_node.specs.NodeView.{disk_of, is_up_in};
ghost use Rattle.e3_node.specs.Places.{HasGivenNoneBack};
ghost use Rattle.e3_node.specs.SharedStands.{SharedGoesOn, SharedStands};
ghost use Rattle.e3_node.specs.Turns.{HasKeptPromises, HasTurned, Meanwhile, NodeMayTakeTurns, history_seen, scenario_seen};
ghost use Rattle.e3_node.specs.declared.fault.CutFault.TheVariants as cut_fault;
ghost use Rattle.e3_node.specs.declared.fault.InputFault.{InputFault as InputFaults};
ghost use Rattle.e3_node.specs.declared.fault.InputFault.TheVariants as input_fault;
ghost use Rattle.e3_node.specs.declared.fault.RiseFault.TheVariants as rise_fault;
ghost use Rattle.e3_play.specs.Entering.{IsFirst};
ghost use Rattle.e3_node.specs.site_log.Ends.{IsReason, Takes, calls_for};
ghost use Rattle.e3_turn.specs.Passes.{seen_by};
ghost use Rattle.e3_types.specs.declared.entries.Act.TheVariants as act;
ghost use Rattle.e3_types.specs.declared.entries.Entry.{Entry as Entries};
ghost use Rattle.e3_types.specs.declared.entries.Why.{Why};
ghost use Rattle.e3_types.specs.declared.entries.Why.TheVariants.{Fault};
ghost use Rattle.e3_types.specs.declared.scenarios.Scenario.{Scenario};
ghost use Rattle.e3_wire.specs.Marks.{entries_of, most_of, note_of, nothing, scenario_of, used_of};
ghost use Rattle.e3_wire.specs.Wires.{TakesLeast};
ghost use Rattle.e3_world.specs.Items.{add_txn, is_up_at, open_at};
ghost use Rattle.e3_world.specs.Legal.{IsCut, IsDue, IsRising, entry_of, made_by};
ghost use Rattle.e3_world.specs.Moves.{log_of, rows_at};

use crate::entering::{claim, enter};
use crate::readying::claim_rise;
use crate::rising::{enter_rise, risen, told};
use crate::state::{arm, into_disk, unpowered};
use crate::stepping::{settle, take_input};
use crate::taking::take_all;
use crate::turning::take_by_turns;
use crate::{CutFault, InputFault, RiseFault, State};
use core::mem::replace_with;
use e3_disk::{Disk, Drill};
use e3_laws::serial::logs_are_orderly;
use e3_types::{Act, Entry, Input, Leave, List, NoMemory, Row, Txn};
use e3_wire::{Shared, Wire, WirePass};
use std::alloc::Global;
use std::marker::Model;
use std::sync::Wait;

/// A site over its disk: its number, the weights of all sites, that of site 1 first, and its first rows in byte order of their
/// names.
#[derive(Drop)]
pub struct Node<D: Disk + Drill + Drop> {
    site: u32,
    weights: List<u32>,
    rows: List<Row>,
    state: State<D>,
}

impl<D: Disk + Drill + Drop> Model for Node<D> {
    ghost use Rattle.std.specs.Coded.{codes};
    ghost use Rattle.e3_node.specs.NodeView.{NodeView};
    ghost use Rattle.e3_site.specs.contracts.site.Site as s;

    ghost Value = { NodeView D };

    ghost coded = { Prim.hlevel (codes, s.the_row.coded) };

    ghost view = { λ n. record { site = n.site; weights = n.weights; rows = n.rows; state = n.state } };
}

impl<D: Disk + Drill + Drop> Node<D> {
    /// A site that is down and never rose, over a blank disk. It takes no memory.
    pub fn down(site: u32, weights: List<u32>, rows: List<Row>, disk: D) -> Node<D>
        requires some { 1 ≤ site }
        requires exists { site ≤ length weights }
        requires blank { IsBlank D.meaning disk }
        ensures stands { (sc : Scenario) → weights ≡ sc.weights → rows ≡ rows_at site sc.rows →
            NodeStands D.meaning sc [] result }
        ensures same { (result.site ≡ site) × (disk_of result.state ≡ disk) }
    {
        let _capacity = disk.capacity();
        Node {
            site,
            weights,
            rows,
            state: State::Down(disk, 0),
        }
    }

    /// The number of the site.
    pub fn site(&self) -> u32
        ensures { result ≡ self.now.site }
    {
        self.site
    }

    /// The site is up.
    pub fn is_up(&self) -> bool
        ensures is { result ≡ is_up_in self.now.state }
        ensures stands { (sc : Scenario) (h : Items Entries) → NodeStands D.meaning sc h self.now →
            result ≡ is_up_at h self.now.site }
    {
        match &self.state {
            State::Down(_, _) => false,
            State::Up(_, _, _, _) => true,
        }
    }

    /// The disk, as the node leaves it.
    pub fn into_disk(self) -> D
        ensures is { result ≡ disk_of self.state }
        ensures stands { (sc : Scenario) (h : Items Entries) → NodeStands D.meaning sc h self →
            DiskStands D.meaning sc h self.site result }
    {
        into_disk(self.state)
    }

    /// The undecided transactions that the site knows, each once and ascending; none where it is down. Want of memory is
    /// the only error.
    pub fn open_txns(&self, alloc: Global) -> Result<List<Txn>, NoMemory>
        ensures up { (sc : Scenario) (h : Items Entries) → NodeStands D.meaning sc h self.now → is_up_at h self.now.site ≡ true →
            IfOk result (λ txns. txns ≡ fold add_txn [] (open_at sc h self.now.site)) }
        ensures down { is_up_in self.now.state ≡ false → IfOk result (λ txns. txns ≡ []) }
    {
        match &self.state {
            State::Down(_, _) => Ok(List::new(alloc)),
            State::Up(site, _, _, _) => site.open_txns(),
        }
    }

    /// A rise of the site, which reads the log of its disk. With Ok it is up in this incarnation: the frame of the rise is
    /// durable, and then the rise is entered. What of a step or a rise in doubt is found on the disk is kept, all of it: exactly
    /// where the records read have the brief of the log followed by it.
    pub fn rise(&mut self, shared: &mut Shared) -> Result<u32, RiseFault>
        requires shared { SharedStands shared.old }
        requires standing { NodeStands D.meaning (scenario_of shared.old) (entries_of shared.old) self.old }
        requires turn { is_up_at (entries_of shared.old) self.old.site ≡ false → IsRising (scenario_of shared.old) (entries_of shared.old) self.old.site }
        ensures shared { SharedGoesOn shared.old shared.new }
        ensures stands { NodeStands D.meaning (scenario_of shared.new) (entries_of shared.new) self.new }
        ensures site { self.new.site ≡ self.old.site }
        ensures up { (result ≡ Err rise_fault.Up) ↔ (is_up_at (entries_of shared.old) self.old.site ≡ true) }
        ensures full { is_up_at (entries_of shared.old) self.old.site ≡ false →
            (result ≡ Err rise_fault.HistoryFull) ↔ (most_of shared.old ≤ length (entries_of shared.old)) }
        ensures rose { IfOk result (λ inc. HasRisen (scenario_of shared.old) (entries_of shared.old) self.old.site inc (entries_of shared.new)
            (D.meaning.meters (disk_of self.old.state)).capacity (D.meaning.image (disk_of self.old.state))) }
        ensures failed { (why : Why) → result ≡ Err (rise_fault.Failed why) →
            HasFailedToRise (scenario_of shared.old) (entries_of shared.old) self.old.site why (entries_of shared.new)
            (D.meaning.meters (disk_of self.old.state)) (D.meaning.meters (disk_of self.new.state)) (D.meaning.image (disk_of self.old.state)) }
        ensures missed { result ≡ Err rise_fault.Missed → entries_of shared.new ≡ entries_of shared.old ++ record { owner = self.old.site; act = act.Miss } ∷ [] }
        ensures kept { (result ≡ Err rise_fault.Up) ⊎ (result ≡ Err rise_fault.HistoryFull) →
            (entries_of shared.new ≡ entries_of shared.old) × (self.new ≡ self.old) }
        ensures no_memory { result ≡ Err rise_fault.NoMemory → entries_of shared.new ≡ entries_of shared.old }

        // a rise that was missed has a fault of the disk as its cause; no call arms or cuts the disk, and what is left of an
        // arm pays for the calls: a sync and the four of a frame
        ensures cause { result ≡ Err rise_fault.Missed → HasFailed (D.meaning.meters (disk_of self.old.state)).faults (D.meaning.meters (disk_of self.new.state)).faults }
        ensures meters { Keeps (D.meaning.meters (disk_of self.old.state)) (D.meaning.meters (disk_of self.new.state)) }
        ensures takes { OnOk result (Takes 5 (D.meaning.meters (disk_of self.old.state)) (D.meaning.meters (disk_of self.new.state))) }
        ensures spares { result ≡ Err rise_fault.NoMemory → Takes 0 (D.meaning.meters (disk_of self.old.state)) (D.meaning.meters (disk_of self.new.state)) }
    {
        logs_are_orderly();
        if self.is_up() {
            return Err(RiseFault::Up);
        }
        let wish = claim_rise(shared, self.site, &self.weights, &self.rows)?;
        let raised = replace_with(&mut self.state, wish, risen::<D>);
        enter_rise(shared, self.site, raised);
        told(raised)
    }

    /// An input for the site. With Ok its step is entered: what it records is durable before. The site falls over it where
    /// that frame was not written, or may not have been. A packet that is delivered leaves the network with the entry.
    pub fn input(&mut self, shared: &mut Shared, input: Input) -> Result<(), InputFault>
        requires shared { SharedStands shared.old }
        requires standing { NodeStands D.meaning (scenario_of shared.old) (entries_of shared.old) self.old }
        requires due { is_up_at (entries_of shared.old) self.old.site ≡ true → IsDue (scenario_of shared.old) (entries_of shared.old) self.old.site input }
        requires first { is_up_at (entries_of shared.old) self.old.site ≡ true → IsFirst (scenario_of shared.old) (entries_of shared.old) input }
        ensures shared { SharedGoesOn shared.old shared.new }
        ensures stands { NodeStands D.meaning (scenario_of shared.new) (entries_of shared.new) self.new }
        ensures site { self.new.site ≡ self.old.site }
        ensures stepped { OnOk result (entries_of shared.new ≡ entries_of shared.old ++ entry_of (scenario_of shared.old) (entries_of shared.old) self.old.site input ∷ []) }
        ensures fell { (why : Why) → result ≡ Err (input_fault.Fell why) →
            FellOver (scenario_of shared.old) (entries_of shared.old) self.old.site input why (entries_of shared.new) }
        ensures down { (result ≡ Err input_fault.Down) ↔ (is_up_at (entries_of shared.old) self.old.site ≡ false) }
        ensures full { is_up_at (entries_of shared.old) self.old.site ≡ true →
            (result ≡ Err input_fault.HistoryFull) ↔ (most_of shared.old ≤ length (entries_of shared.old)) }
        ensures kept { (fault : InputFaults) → result ≡ Err fault → is_fall fault ≡ false →
            (entries_of shared.new ≡ entries_of shared.old) × (disk_of self.new.state ≡ disk_of self.old.state) }

        // a fall: the disk's count of faults rose, or the frame had no room behind the log, and its end is told exactly. No call
        // arms or cuts the disk, and what is left of an arm pays for the calls of the frame. A step: where it records nothing the
        // disk is as it was, and the log is turned only where the frame has no room behind it
        ensures why { (why : Why) → result ≡ Err (input_fault.Fell why) →
            IsReason why (log_of (scenario_of shared.old) (entries_of shared.old) self.old.site)
            (made_by (scenario_of shared.old) (entries_of shared.old) self.old.site input).records
            (D.meaning.meters (disk_of self.old.state)) (D.meaning.meters (disk_of self.new.state)) }
        ensures room { (why : Why) → result ≡ Err (input_fault.Fell why) →
            HasRoomBehind D.meaning.meters self.old.state (made_by (scenario_of shared.old) (entries_of shared.old) self.old.site input).records → why ≡ Fault }
        ensures meters { Keeps (D.meaning.meters (disk_of self.old.state)) (D.meaning.meters (disk_of self.new.state)) }
        ensures takes { OnOk result (Takes (calls_for (made_by (scenario_of shared.old) (entries_of shared.old) self.old.site input).records)
            (D.meaning.meters (disk_of self.old.state)) (D.meaning.meters (disk_of self.new.state))) }
        ensures frame { OnOk result (OnLogs (IsOneFrame D.meaning.meters (log_of (scenario_of shared.old) (entries_of shared.old) self.old.site)
            (made_by (scenario_of shared.old) (entries_of shared.old) self.old.site input).records) self.old.state self.new.state) }
    {
        match take_input(self.site, &mut self.state, shared, input) {
            Ok(()) => Ok(()),
            Err(fault) => {
                settle(&mut self.state, fault);
                Err(fault)
            }
        }
    }

    /// An input for the site, by a worker whose pass speaks for it, outside of a recover step: what `input` does, while other
    /// workers go on. The input may be taken behind what the pass had seen, its packet the least to the site; the step is that
    /// of the history in which it is entered. The disk is written outside of the turn.
    pub fn input_by_turns<R: Wait>(
        &mut self,
        rt: &R,
        alloc: Global,
        wire: &Wire,
        pass: &mut WirePass,
        input: Input,
    ) -> Result<(), InputFault>
        requires turns { NodeMayTakeTurns D.meaning wire.now pass.old self.old }
        requires due { is_up_at (history_seen pass.old) self.old.site ≡ true → MayTake (scenario_seen pass.old) (history_seen pass.old) self.old.site input }
        requires takes { is_up_at (history_seen pass.old) self.old.site ≡ true → TakesLeast (scenario_seen pass.old) (history_seen pass.old) self.old.site input }

        // each claim is followed by its entry, which uses its place, and uses its room or gives it back: no place and no room are
        // promised to the site that were not before, and no place was given back
        ensures turned { HasKeptPromises wire.now self.old.site pass.old pass.new }
        ensures scenario { (scenario_seen pass.new ≡ scenario_seen pass.old) × (most_of (seen_by pass.new) ≡ most_of (seen_by pass.old)) }
        ensures none_back { HasGivenNoneBack self.old.site (seen_by pass.old) (seen_by pass.new) }

        ensures stands { NodeStands D.meaning (scenario_seen pass.new) (history_seen pass.new) self.new }
        ensures site { self.new.site ≡ self.old.site }
        ensures stepped { OnOk result ((now : Items Entries) × Meanwhile self.old.site (history_seen pass.old) now
            × (history_seen pass.new ≡ now ++ entry_of (scenario_seen pass.old) now self.old.site input ∷ [])) }
        ensures fell { (why : Why) → result ≡ Err (input_fault.Fell why) → (now : Items Entries) × Meanwhile self.old.site (history_seen pass.old) now
            × FellOver (scenario_seen pass.old) now self.old.site input why (history_seen pass.new) }
        ensures down { (result ≡ Err input_fault.Down) ↔ (is_up_at (history_seen pass.old) self.old.site ≡ false) }
        ensures full { result ≡ Err input_fault.HistoryFull → most_of (seen_by pass.new) ≤ used_of (seen_by pass.new) }
        ensures kept { (fault : InputFaults) → result ≡ Err fault → is_fall fault ≡ false →
            Meanwhile self.old.site (history_seen pass.old) (history_seen pass.new) × (disk_of self.new.state ≡ disk_of self.old.state) }

        // of the disk as `input`: the site's moves are the same behind entries of others
        ensures why { (why : Why) → result ≡ Err (input_fault.Fell why) →
            IsReason why (log_of (scenario_seen pass.old) (history_seen pass.old) self.old.site)
            (made_by (scenario_seen pass.old) (history_seen pass.old) self.old.site input).records
            (D.meaning.meters (disk_of self.old.state)) (D.meaning.meters (disk_of self.new.state)) }
        ensures room { (why : Why) → result ≡ Err (input_fault.Fell why) →
            HasRoomBehind D.meaning.meters self.old.state (made_by (scenario_seen pass.old) (history_seen pass.old) self.old.site input).records → why ≡ Fault }
        ensures meters { Keeps (D.meaning.meters (disk_of self.old.state)) (D.meaning.meters (disk_of self.new.state)) }
        ensures takes { OnOk result (Takes (calls_for (made_by (scenario_seen pass.old) (history_seen pass.old) self.old.site input).records)
            (D.meaning.meters (disk_of self.old.state)) (D.meaning.meters (disk_of self.new.state))) }
        ensures frame { OnOk result (OnLogs (IsOneFrame D.meaning.meters (log_of (scenario_seen pass.old) (history_seen pass.old) self.old.site)
            (made_by (scenario_seen pass.old) (history_seen pass.old) self.old.site input).records) self.old.state self.new.state) }
    {
        let state = &mut self.state;
        match take_by_turns(rt, alloc, wire, pass, self.site, state, input) {
            Ok(()) => Ok(()),
            Err(fault) => {
                settle(&mut self.state, fault);
                Err(fault)
            }
        }
    }

    /// One to eight packets for the site, by a worker whose pass speaks for it, outside of a recover step: what `input_by_turns`
    /// does with each of them in their order, but that all their records are one frame, and their steps are entered in one
    /// turn. They are the first packets to the site, and a place is promised to it for each, as `next_few` of the wire promises
    /// them; a place that is not used is given back. So no batch is refused for a full history. With Ok it is told how many of
    /// the packets, from the first on, have their steps: all of them; or fewer, and then only where their frame has room behind
    /// the log and that with the records of one more would have none; the rest stay pending. A site that falls over them has one
    /// fall over so many. Where memory runs out behind the first of them, those have their frame and their steps, or one fall,
    /// and the rest have nothing. All memory is taken before the frame is written.
    pub fn batch<R: Wait>(
        &mut self,
        rt: &R,
        alloc: Global,
        wire: &Wire,
        pass: &mut WirePass,
        inputs: List<Input>,
    ) -> Result<usize, InputFault>
        requires turns { NodeMayTakeTurns D.meaning wire.now pass.old self.old }
        requires few { (1 ≤ length inputs) × (length inputs ≤ 8) }
        requires due { is_up_at (history_seen pass.old) self.old.site ≡ true → MayTakeAll (scenario_seen pass.old) (history_seen pass.old) self.old.site inputs }
        requires takes { is_up_at (history_seen pass.old) self.old.site ≡ true → AreFirstTo (scenario_seen pass.old) (history_seen pass.old) self.old.site inputs }
        requires places { is_up_at (history_seen pass.old) self.old.site ≡ true → length inputs ≤ (note_of self.old.site (seen_by pass.old)).places }

        // as of `input_by_turns`, but that nothing is promised to the site behind it; where the site is down that stays
        ensures turned { HasTurned wire.now pass.old pass.new }
        ensures scenario { (scenario_seen pass.new ≡ scenario_seen pass.old) × (most_of (seen_by pass.new) ≡ most_of (seen_by pass.old)) }
        ensures promised { is_up_at (history_seen pass.old) self.old.site ≡ true → note_of self.old.site (seen_by pass.new) ≡ nothing }
        ensures kept { is_up_at (history_seen pass.old) self.old.site ≡ false → note_of self.old.site (seen_by pass.new) ≡ note_of self.old.site (seen_by pass.old) }

        // how it ended, and what the disk has of it
        ensures stands { NodeStands D.meaning (scenario_seen pass.new) (history_seen pass.new) self.new }
        ensures site { self.new.site ≡ self.old.site }
        ensures ended { BatchEnded D.meaning.meters (scenario_seen pass.old) (history_seen pass.old) (history_seen pass.new) self.old.site inputs self.old.state self.new.state result }
        ensures down { (result ≡ Err input_fault.Down) ↔ (is_up_at (history_seen pass.old) self.old.site ≡ false) }
        ensures never { result ≡ Err input_fault.HistoryFull → ⊥ }
        ensures meters { Keeps (D.meaning.meters (disk_of self.old.state)) (D.meaning.meters (disk_of self.new.state)) }
    {
        take_all(rt, alloc, wire, pass, self.site, &mut self.state, inputs)
    }

    /// The power of a site that is up is cut: the site is down.
    pub fn cut(&mut self, shared: &mut Shared) -> Result<(), CutFault>
        requires shared { SharedStands shared.old }
        requires standing { NodeStands D.meaning (scenario_of shared.old) (entries_of shared.old) self.old }
        requires crash { is_up_at (entries_of shared.old) self.old.site ≡ true → IsCut (scenario_of shared.old) (entries_of shared.old) self.old.site }
        ensures shared { SharedGoesOn shared.old shared.new }
        ensures stands { NodeStands D.meaning (scenario_of shared.new) (entries_of shared.new) self.new }
        ensures site { self.new.site ≡ self.old.site }
        ensures entered { OnOk result (entries_of shared.new ≡ entries_of shared.old ++ record { owner = self.old.site; act = act.Cut } ∷ []) }
        ensures kept { OnErr result ((entries_of shared.new ≡ entries_of shared.old) × (disk_of self.new.state ≡ disk_of self.old.state)) }
        ensures down { (result ≡ Err cut_fault.Down) ↔ (is_up_at (entries_of shared.old) self.old.site ≡ false) }
        ensures full { is_up_at (entries_of shared.old) self.old.site ≡ true →
            (result ≡ Err cut_fault.HistoryFull) ↔ (most_of shared.old ≤ length (entries_of shared.old)) }
        ensures meters { OnOk result (D.meaning.meters (disk_of self.new.state) ≡ cut (D.meaning.meters (disk_of self.old.state))) }
    {
        if !self.is_up() {
            return Err(CutFault::Down);
        }
        claim(shared, self.site, 0)?;
        replace_with(&mut self.state, (), unpowered::<D>);
        let (owner, act) = (self.site, Act::Cut);
        enter(shared, Entry { owner, act });
        Ok(())
    }

    /// Arms the disk, once, whether the site is up or down. It takes no memory and enters nothing.
    pub fn stop(&mut self, calls: u32, leave: Leave)
        requires { 1 ≤ calls }
        ensures stands { (sc : Scenario) (h : Items Entries) → NodeStands D.meaning sc h self.old →
            NodeStands D.meaning sc h self.new }
        ensures site { self.new.site ≡ self.old.site }
        ensures meters { D.meaning.meters (disk_of self.new.state) ≡ armed (D.meaning.meters (disk_of self.old.state)) calls (code_of leave) }
    {
        arm(&mut self.state, calls, leave);
    }
}
