// The sites of a run, as the driver sees them.
ghost use Rattle.std.specs.Prelude.{◌≡◌, ◌≤◌, ◌++◌, ◌∷◌, [], ℕ, List as Items, Some, true, false, fold, length, IfOk, OnOk, OnErr, Err};
ghost use Rattle.e3_play.specs.Entering.{AfterInput, AfterRise, IsFirst};
ghost use Rattle.e3_play.specs.GoingOn.{SitesGoOn};
ghost use Rattle.e3_play.specs.declared.sites.RunFault.TheVariants.{HistoryFull};
ghost use Rattle.e3_types.specs.declared.entries.Act.TheVariants as act;
ghost use Rattle.e3_types.specs.declared.entries.Entry.{Entry};
ghost use Rattle.e3_types.specs.declared.scenarios.Item.{Item};
ghost use Rattle.e3_types.specs.declared.scenarios.Item.TheVariants as item;
ghost use Rattle.e3_types.specs.declared.scenarios.Leave.{Leave as Leaves};
ghost use Rattle.e3_types.specs.declared.scenarios.Scenario.{Scenario};
ghost use Rattle.e3_world.specs.Given.{IsGiven};
ghost use Rattle.e3_world.specs.Items.{add_txn, is_up_at, open_at};
ghost use Rattle.e3_world.specs.Legal.{IsCut, IsDue, IsLegal, IsLine, IsParts, IsRising, first_pending};
ghost use Rattle.e3_world.specs.Packets.{step_items};

use e3_types::{Entry, Input, Leave, List, NoMemory, Packet, SiteSet, Txn};

/// Why a run goes no further.
#[derive(Clone, Copy, Debug, PartialEq, Eq)]
pub enum RunFault {
    /// The history has as many entries as it may have, and a further one is due.
    HistoryFull,
    /// There was no memory. It may come at any time.
    NoMemory,
}

impl From<NoMemory> for RunFault {
    ghost use Rattle.e3_play.specs.declared.sites.RunFault.TheVariants as fault;

    ghost from_gives = { λ _ f. f ≡ fault.NoMemory };

    fn from(_cause: NoMemory) -> RunFault {
        RunFault::NoMemory
    }
}

/// The sites of a run with their disks, the network and the history. Each call that enters something enters one entry;
/// where it answers a fault, it enters none.
pub trait Sites {
    /// The scenario that is played.
    ghost scenario: { Self → Scenario };

    /// The history so far.
    ghost entries: { Self → Items Entry };

    /// How many entries the history may have.
    ghost most: { Self → ℕ };

    /// All parts stand for the history.
    ghost stands: { Self → Type 0 };

    /// The second is what the first came to be: what is told of a time in between, as how often a disk failed.
    ghost since: { Self → Self → Type 0 };

    /// The history, in the order of its entries.
    fn history(&self) -> &[Entry]
        ensures { result.now ≡ entries self.now };

    /// Whether a site is up.
    fn is_up(&self, site: u32) -> bool
        requires { stands self.now }
        ensures { result ≡ is_up_at (entries self.now) site };

    /// The pending packet of least number, if one is pending.
    fn first(&self) -> Option<Packet>
        requires { stands self.now }
        ensures { result ≡ first_pending (scenario self.now) (entries self.now) };

    /// The undecided transactions that a site knows which is up, each once and ascending.
    fn open_txns(&self, site: u32) -> Result<List<Txn>, NoMemory>
        requires standing { stands self.now }
        requires up { is_up_at (entries self.now) site ≡ true }
        ensures { IfOk result (λ txns. txns ≡ fold add_txn [] (open_at (scenario self.now) (entries self.now) site)) };

    /// A rise of a site: with `Ok` it is up, or its rise failed or was missed.
    fn rise(&mut self, site: u32) -> Result<(), RunFault>
        requires standing { stands self.old }
        requires least { 1 ≤ site }
        requires turn { IsRising (scenario self.old) (entries self.old) site }
        ensures on { SitesGoOn stands since scenario most self.old self.new }
        ensures rose { OnOk result (AfterRise (scenario self.old) (entries self.old) site (entries self.new)) }
        ensures kept { OnErr result (entries self.new ≡ entries self.old) }
        ensures full { result ≡ Err HistoryFull → most self.old ≤ length (entries self.old) };

    /// An input for a site that is up: with `Ok` its step is entered, or the site fell over it. A packet that is delivered
    /// is the first of all that are pending.
    fn input(&mut self, site: u32, input: Input) -> Result<(), RunFault>
        requires standing { stands self.old }
        requires up { is_up_at (entries self.old) site ≡ true }
        requires due { IsDue (scenario self.old) (entries self.old) site input }
        requires first { IsFirst (scenario self.old) (entries self.old) input }
        ensures on { SitesGoOn stands since scenario most self.old self.new }
        ensures entered { OnOk result (AfterInput (scenario self.old) (entries self.old) site input (entries self.new)) }
        ensures kept { OnErr result (entries self.new ≡ entries self.old) }
        ensures full { result ≡ Err HistoryFull → most self.old ≤ length (entries self.old) };

    /// The power of a site that is up is cut.
    fn cut(&mut self, site: u32) -> Result<(), RunFault>
        requires standing { stands self.old }
        requires due { IsCut (scenario self.old) (entries self.old) site }
        ensures on { SitesGoOn stands since scenario most self.old self.new }
        ensures entered { OnOk result (entries self.new ≡ entries self.old ++ record { owner = site; act = act.Cut } ∷ []) }
        ensures kept { OnErr result (entries self.new ≡ entries self.old) }
        ensures full { result ≡ Err HistoryFull → most self.old ≤ length (entries self.old) };

    /// The first pending packet is dropped, since its site is down.
    fn drop_first(&mut self, packet: &Packet) -> Result<(), RunFault>
        requires standing { stands self.old }
        requires first { first_pending (scenario self.old) (entries self.old) ≡ Some packet.now }
        requires down { is_up_at (entries self.old) packet.now.to ≡ false }
        ensures on { SitesGoOn stands since scenario most self.old self.new }
        ensures entered { OnOk result (entries self.new ≡ entries self.old ++ record { owner = 0; act = act.Drop packet.now.number } ∷ []) }
        ensures kept { OnErr result (entries self.new ≡ entries self.old) }
        ensures full { result ≡ Err HistoryFull → most self.old ≤ length (entries self.old) };

    /// The line of the next step, which is no stop.
    fn line(&mut self, number: u32) -> Result<(), RunFault>
        requires standing { stands self.old }
        requires due { IsLine (scenario self.old) (entries self.old) number }
        requires no_stop { (site calls : ℕ) (leave : Leaves) (more : Items Item) →
            step_items (scenario self.old) number ≡ item.Stop site calls leave ∷ more → ⊥ }
        ensures on { SitesGoOn stands since scenario most self.old self.new }
        ensures entered { OnOk result (entries self.new ≡ entries self.old ++ record { owner = 0; act = act.Line number } ∷ []) }
        ensures kept { OnErr result (entries self.new ≡ entries self.old) }
        ensures full { result ≡ Err HistoryFull → most self.old ≤ length (entries self.old) };

    /// The line of the next step, which is a stop: with `Ok` the disk of its site is armed, and with a fault it is not. What
    /// arms are is told by `since`, as the implementer has it.
    fn stop(&mut self, number: u32, site: u32, calls: u32, leave: Leave) -> Result<(), RunFault>
        requires standing { stands self.old }
        requires due { IsLine (scenario self.old) (entries self.old) number }
        requires step { step_items (scenario self.old) number ≡ item.Stop site calls leave ∷ [] }
        requires some { 1 ≤ calls }
        requires least { 1 ≤ site }
        requires exists { site ≤ length (scenario self.old).weights }
        ensures on { SitesGoOn stands since scenario most self.old self.new }
        ensures entered { OnOk result (entries self.new ≡ entries self.old ++ record { owner = 0; act = act.Line number } ∷ []) }
        ensures kept { OnErr result (entries self.new ≡ entries self.old) }
        ensures full { result ≡ Err HistoryFull → most self.old ≤ length (entries self.old) };

    /// The parts of the network, directly behind the line of a split or a merge.
    fn parts(&mut self, parts: List<SiteSet>) -> Result<(), RunFault>
        requires standing { stands self.old }
        requires due { IsParts (scenario self.old) (entries self.old) parts }
        ensures on { SitesGoOn stands since scenario most self.old self.new }
        ensures entered { OnOk result (entries self.new ≡ entries self.old ++ record { owner = 0; act = act.Parts parts } ∷ []) }
        ensures kept { OnErr result (entries self.new ≡ entries self.old) }
        ensures full { result ≡ Err HistoryFull → most self.old ≤ length (entries self.old) };

    /// What stands has a legal history.
    ghost is_legal: { (sites : Self) → stands sites → IsLegal (scenario sites) (entries sites) };

    /// The scenario keeps the rules.
    ghost is_given: { (sites : Self) → stands sites → IsGiven (scenario sites) };

    /// It is no longer than it may be.
    ghost within: { (sites : Self) → stands sites → length (entries sites) ≤ most sites };
}
