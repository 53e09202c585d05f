// New parts of the network, and packets that are dropped.
ghost use Rattle.std.specs.Prelude.{◌≡◌, ◌==◌, ◌<◌, ◌++◌, ◌∷◌, [], ◌+◌, ◌&&◌, ◌||◌, not, true, length, slice_get, option_map, IfOk, IfSome};
ghost use Rattle.e3_judge.specs.audit.Seats.{IsLost, Stands};
ghost use Rattle.e3_judge.specs.Equal.{is_some, same_packet};
ghost use Rattle.e3_types.specs.declared.entries.Act.TheVariants as act;
ghost use Rattle.e3_world.specs.Packets.{is_calm, step_items};

use crate::Prefix;
use crate::audit::auditor::Auditor;
use crate::audit::rising::may_come;
use e3_types::{Act, Copied, Entry, NoMemory, Packet, Scenario};

impl Auditor {
    /// Goes on over new parts of the driver's, where they may come here. They are few, and their guard is read anew.
    pub(crate) fn part(&mut self, prefix: &Prefix<'_>, entry: &Entry) -> Result<bool, NoMemory>
        requires stands { Stands prefix.now.scenario.now prefix.now.entries.now self.old }
        requires driver { entry.now.owner ≡ 0 }
        ensures { IfOk result (λ on. on ≡ true → Stands prefix.now.scenario.now (prefix.now.entries.now ++ entry.now ∷ []) self.new) }
    {
        let may = may_come(prefix, entry)?;
        if !may {
            return Ok(false);
        }
        match &entry.act {
            Act::Parts { parts } => {
                let parts = parts.copied(prefix.alloc)?;
                self.net.parts(parts);
                Ok(true)
            }
            _ => Ok(false),
        }
    }

    // The packet has this number, and in a recover step it is the least of all.
    fn may_lose(&self, scenario: &Scenario, packet: &Packet, number: u64) -> bool
        ensures { result ≡ ((packet.now.number == number) && (not (is_calm (step_items scenario.now self.now.lines))
            || is_some same_packet (option_map (λ w. w.packet) (slice_get self.now.net.traffic.waiting 0)) packet.now)) }
    {
        packet.number == number && self.is_in_order(scenario, packet)
    }

    // The packet of this number is the least to the site at this place, counted from 0, which is down; in a recover step it is
    // the least of all.
    fn is_lost(&self, prefix: &Prefix<'_>, number: u64, at: usize) -> bool
        requires stands { Stands prefix.now.scenario.now prefix.now.entries.now self.now }
        requires within { at < length self.now.seats.items }
        requires few { at < 64 }
        ensures { result ≡ true → IsLost prefix.now.scenario.now prefix.now.entries.now self.now.net.traffic number (at + 1) }
    {
        if !self.seats[at].is_down() {
            return false;
        }
        match self.net.next_to(at as u32 + 1) {
            Some(packet) => self.may_lose(prefix.scenario, packet, number),
            None => false,
        }
    }

    // The site at which the packet of this number is lost.
    fn loser(&self, prefix: &Prefix<'_>, number: u64) -> Option<u32>
        requires { Stands prefix.now.scenario.now prefix.now.entries.now self.now }
        ensures { IfSome result (IsLost prefix.now.scenario.now prefix.now.entries.now self.now.net.traffic number) }
    {
        if self.seats.len() > 64 {
            return None;
        }
        for at in 0..self.seats.len() {
            if self.is_lost(prefix, number, at) {
                return Some(at as u32 + 1);
            }
        }
        None
    }

    /// Goes on over a drop of the packet of this number, where it is the least to a site that is down.
    pub(crate) fn lose(&mut self, prefix: &Prefix<'_>, number: u64) -> bool
        requires { Stands prefix.now.scenario.now prefix.now.entries.now self.old }
        ensures { result ≡ true → Stands prefix.now.scenario.now (prefix.now.entries.now ++ record { owner = 0; act = act.Drop number } ∷ []) self.new }
    {
        match self.loser(prefix, number) {
            Some(site) => {
                let _taken = self.net.take(site);
                true
            }
            None => false,
        }
    }
}
