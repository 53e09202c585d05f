// Whether the inputs of a step or a fall are due at their site, behind the entries before it.
ghost use Rattle.std.specs.Prelude.{◌≡◌, ◌++◌, ◌∷◌, [], IfOk, OnOk, slice_get};
ghost use Rattle.std.specs.List.{list_any};
ghost use Rattle.e3_world.specs.Legal.{entry_of, made_by, records_by};
ghost use Rattle.e3_world.specs.Packets.{pending};
ghost use Rattle.e3_judge.specs.Checks.{is_in_order, is_next_item, delivery_is_due, round_is_due, input_is_due, inputs_are_due, same_round, is_empty};
ghost use Rattle.e3_judge.specs.Equal.{is_some, same_input, same_packet};

use crate::equal::Same;
use crate::prefix::Prefix;
use crate::{has_delivery, is_calm, present_items, turn_of};
use e3_readings::RecoveryRound;
use e3_types::{Entry, Input, List, NoMemory, Packet, Record, Scenario, SiteSet, Txn};
use std::alloc::Global;

// Nothing is here.
pub(crate) fn is_empty<T>(items: &[T]) -> bool
    ensures { result ≡ is_empty items.now }
{
    items.is_empty()
}

// The least pending packet is this one.
fn is_first(waiting: &[Packet], packet: &Packet) -> bool
    ensures { result ≡ is_some same_packet (slice_get waiting.now 0) packet.now }
{
    match waiting {
        [first, ..] => first.is_same(packet),
        [] => false,
    }
}

/// The input stands at this place of these.
pub fn is_at(inputs: &[Input], at: u64, input: &Input) -> bool
    ensures { result ≡ is_some same_input (slice_get inputs.now at) input.now }
{
    match inputs.get(at as usize) {
        Some(next) => next.is_same(input),
        None => false,
    }
}

// The packet is one of these.
fn has_packet(packets: &[Packet], packet: &Packet) -> bool
    ensures { result ≡ list_any (λ p. same_packet p packet.now) packets.now }
{
    packets.iter().any(|p| p.is_same(packet))
}

/// The round is this transaction's, with this group and this elector.
pub fn is_round(round: &RecoveryRound, txn: &Txn, group: SiteSet, site: u32) -> bool
    ensures { result ≡ same_round round.now (record { txn = txn.now; members = group; elector = site }) }
{
    round.txn.is_same(txn) && round.members.is_same(group) && round.elector == site
}

// The entries with that of the step which the input would make behind them.
fn go_on(
    alloc: Global,
    scenario: &Scenario,
    history: &mut List<Entry>,
    site: u32,
    input: &Input,
) -> Result<(), NoMemory>
    ensures { OnOk result (history.new ≡ history.old ++ entry_of scenario.now history.old site input.now ∷ []) }
{
    let entry = Prefix::of(alloc, scenario, history.as_slice()).entry_of(site, input)?;
    history.push(entry)
}

impl Prefix<'_> {
    /// In a recover step the packet is the least of those that are pending.
    pub(crate) fn is_in_order(&self, waiting: &[Packet], packet: &Packet) -> bool
        requires { waiting.now ≡ pending self.now.scenario.now self.now.entries.now }
        ensures { result ≡ is_in_order self.now.scenario.now self.now.entries.now packet.now }
    {
        !is_calm(present_items(self.scenario, self.entries)) || is_first(waiting, packet)
    }

    // The input is the site's next item, before any delivery of it.
    fn is_next_item(&self, site: u32, input: &Input) -> Result<bool, NoMemory>
        ensures { IfOk result (λ b. b ≡ is_next_item self.now.scenario.now self.now.entries.now site input.now) }
    {
        let inputs = self.inputs_at(site)?;
        let turn = turn_of(self.entries, site)?;
        Ok(is_at(inputs.as_slice(), turn, input) && !has_delivery(self.entries, site))
    }

    // The packet is pending to the site, once all items are through; in a recover step it is the least.
    fn delivery_is_due(&self, site: u32, packet: &Packet) -> Result<bool, NoMemory>
        ensures { IfOk result (λ b. b ≡ delivery_is_due self.now.scenario.now self.now.entries.now site packet.now) }
    {
        if packet.to != site {
            return Ok(false);
        }
        let waiting = self.pending()?;
        if !has_packet(waiting.as_slice(), packet) {
            return Ok(false);
        }
        if !self.items_through()? {
            return Ok(false);
        }
        Ok(self.is_in_order(waiting.as_slice(), packet))
    }

    // The round of a recover step is due at this site, and nothing is pending.
    fn round_is_due(&self, site: u32, txn: &Txn, group: SiteSet) -> Result<bool, NoMemory>
        ensures { IfOk result (λ b. b ≡ round_is_due self.now.scenario.now self.now.entries.now site txn.now group) }
    {
        match self.due_round()? {
            Some(round) => {
                if !is_round(&round, txn, group, site) {
                    return Ok(false);
                }
                Ok(is_empty(self.pending()?.as_slice()))
            }
            None => Ok(false),
        }
    }

    /// The input is due at the site.
    pub(crate) fn input_is_due(&self, site: u32, input: &Input) -> Result<bool, NoMemory>
        ensures { IfOk result (λ b. b ≡ input_is_due self.now.scenario.now self.now.entries.now site input.now) }
    {
        match input {
            Input::Deliver { packet } => self.delivery_is_due(site, packet),
            Input::Elect { txn, group } => {
                if self.is_next_item(site, input)? {
                    return Ok(true);
                }
                self.round_is_due(site, txn, *group)
            }
            _ => self.is_next_item(site, input),
        }
    }

    // Adds the records of the step that the input would make.
    fn add_records(&self, site: u32, input: &Input, out: &mut List<Record>) -> Result<(), NoMemory>
        ensures { OnOk result (out.new ≡ out.old ++ (made_by self.now.scenario.now self.now.entries.now site input.now).records) }
    {
        let made = self.made_by(site, input)?;
        out.add_copies(self.alloc, made.records.as_slice())
    }

    /// Each input of a fall is due behind the steps that those before it would make.
    pub(crate) fn inputs_are_due(&self, site: u32, inputs: &[Input]) -> Result<bool, NoMemory>
        ensures { IfOk result (λ b. b ≡ inputs_are_due self.now.scenario.now self.now.entries.now site inputs.now) }
    {
        let mut history = List::of_copies(self.alloc, self.entries)?;
        for input in inputs {
            let prefix = Prefix::of(self.alloc, self.scenario, history.as_slice());
            if !prefix.input_is_due(site, input)? {
                return Ok(false);
            }
            go_on(self.alloc, self.scenario, &mut history, site, input)?;
        }
        Ok(true)
    }

    /// The records of the steps that the inputs of a fall would make, one after the other.
    pub(crate) fn records_by(&self, site: u32, inputs: &[Input]) -> Result<List<Record>, NoMemory>
        ensures { IfOk result (λ out. out ≡ records_by self.now.scenario.now self.now.entries.now site inputs.now) }
    {
        let mut out = List::new(self.alloc);
        let mut history = List::of_copies(self.alloc, self.entries)?;
        for input in inputs {
            let prefix = Prefix::of(self.alloc, self.scenario, history.as_slice());
            prefix.add_records(site, input, &mut out)?;
            go_on(self.alloc, self.scenario, &mut history, site, input)?;
        }
        Ok(out)
    }
}
