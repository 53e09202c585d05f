// Which inputs are due.
ghost use Rattle.std.specs.Prelude.{◌≡◌, ◌≤◌, ◌&&◌, ◌||◌, ◌==◌, true, not, length, slice_get, option_map, IfOk, Some};
ghost use Rattle.e3_judge.specs.audit.Seats.{Stands};
ghost use Rattle.e3_judge.specs.Checks.{same_round};
ghost use Rattle.e3_judge.specs.Equal.{is_some, same_input, same_packet};
ghost use Rattle.e3_net.specs.Stands.{IsNext};
ghost use Rattle.e3_net.specs.Traffic.{packet_to};
ghost use Rattle.e3_types.specs.declared.entries.Input.TheVariants as inputs;
ghost use Rattle.e3_world.specs.Items.{due_round};
ghost use Rattle.e3_world.specs.Legal.{IsDelivery, IsDue};
ghost use Rattle.e3_world.specs.Packets.{is_calm, step_items};

use crate::audit::auditor::Auditor;
use crate::audit::seat::{Seat, are_done};
use crate::{Prefix, Same, is_at, is_calm, is_round};
use e3_net::Net;
use e3_readings::step_items;
use e3_types::{Input, NoMemory, Packet, Scenario, SiteSet, Txn};

/// The packet is the least that waits for this site.
pub(crate) fn is_next_to(net: &Net, site: u32, packet: &Packet) -> bool
    ensures { result ≡ is_some same_packet (packet_to site net.now.traffic) packet.now }
{
    match net.next_to(site) {
        Some(next) => next.is_same(packet),
        None => false,
    }
}

// The input is the next that the step asks of the site, which took no packet in it.
fn is_next_item(seat: &Seat, input: &Input) -> bool
    ensures { result ≡ (is_some same_input (slice_get seat.now.inputs seat.now.turn) input.now && not seat.now.delivered) }
{
    is_at(seat.inputs.as_slice(), seat.turn, input) && !seat.delivered
}

// The packet is the least of all that wait.
fn is_first(net: &Net, packet: &Packet) -> bool
    ensures { result ≡ is_some same_packet (option_map (λ w. w.packet) (slice_get net.now.traffic.waiting 0)) packet.now }
{
    match net.first_pending() {
        Some(first) => first.is_same(packet),
        None => false,
    }
}

impl Auditor {
    /// In a recover step the packet is the least of all that wait.
    pub(crate) fn is_in_order(&self, scenario: &Scenario, packet: &Packet) -> bool
        ensures { result ≡ (not (is_calm (step_items scenario.now self.now.lines))
            || is_some same_packet (option_map (λ w. w.packet) (slice_get self.now.net.traffic.waiting 0)) packet.now) }
    {
        !is_calm(step_items(scenario, self.lines as u64)) || is_first(&self.net, packet)
    }

    // The packet is the least to the site, all items are through, and in a recover step it is the least of all.
    fn delivery_is_due(&self, prefix: &Prefix<'_>, site: u32, packet: &Packet) -> bool
        requires { Stands prefix.now.scenario.now prefix.now.entries.now self.now }
        ensures due { result ≡ true → IsDelivery prefix.now.scenario.now prefix.now.entries.now site packet.now }
        ensures next { result ≡ true → packet_to packet.now.to self.now.net.traffic ≡ Some packet.now }
    {
        if packet.to != site {
            return false;
        }
        if !is_next_to(&self.net, site, packet) {
            return false;
        }
        if !self.is_in_order(prefix.scenario, packet) {
            return false;
        }
        are_done(self.seats.as_slice())
    }

    // The round is the one that is due, and nothing is pending. Rounds are few, and read anew.
    fn round_is_due(
        &self,
        prefix: &Prefix<'_>,
        site: u32,
        txn: &Txn,
        group: SiteSet,
    ) -> Result<bool, NoMemory>
        ensures { IfOk result (λ b. b ≡ true → ((length self.now.net.traffic.waiting == 0) ≡ true)
            × (is_some same_round (due_round prefix.now.scenario.now prefix.now.entries.now) (record { txn = txn.now; members = group; elector = site }) ≡ true)) }
    {
        if self.net.pending() > 0 {
            return Ok(false);
        }
        match prefix.due_round()? {
            Some(round) => Ok(is_round(&round, txn, group, site)),
            None => Ok(false),
        }
    }

    // It is the next that the step asks of the site, or the round that is due.
    fn elect_is_due(
        &self,
        prefix: &Prefix<'_>,
        site: u32,
        input: &Input,
        txn: &Txn,
        group: SiteSet,
    ) -> Result<bool, NoMemory>
        requires stands { Stands prefix.now.scenario.now prefix.now.entries.now self.now }
        requires some { 1 ≤ site }
        requires exists { site ≤ length prefix.now.scenario.now.weights }
        requires elect { input.now ≡ inputs.Elect txn.now group }
        ensures { IfOk result (λ b. b ≡ true → IsDue prefix.now.scenario.now prefix.now.entries.now site (inputs.Elect txn.now group)) }
    {
        if is_next_item(&self.seats[site as usize - 1], input) {
            return Ok(true);
        }
        self.round_is_due(prefix, site, txn, group)
    }

    /// The input is due at the site, so far as it is seen here.
    pub(crate) fn input_is_due(
        &self,
        prefix: &Prefix<'_>,
        site: u32,
        input: &Input,
    ) -> Result<bool, NoMemory>
        requires stands { Stands prefix.now.scenario.now prefix.now.entries.now self.now }
        requires some { 1 ≤ site }
        requires exists { site ≤ length prefix.now.scenario.now.weights }
        ensures due { IfOk result (λ b. b ≡ true → IsDue prefix.now.scenario.now prefix.now.entries.now site input.now) }
        ensures next { IfOk result (λ b. b ≡ true → IsNext self.now.net.traffic input.now) }
    {
        match input {
            Input::Deliver { packet } => Ok(self.delivery_is_due(prefix, site, packet)),
            Input::Elect { txn, group } => { self.elect_is_due(prefix, site, input, txn, *group) }
            _ => Ok(is_next_item(&self.seats[site as usize - 1], input)),
        }
    }
}
