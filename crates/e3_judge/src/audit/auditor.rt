// What is kept of a history along a walk over it: how many lines it has, its network, and its sites.
ghost use Rattle.std.specs.Prelude.{◌≡◌, [], length, IfOk, IfSome};
ghost use Rattle.e3_judge.specs.audit.Seats.{SeatsStand, Stands};
ghost use Rattle.e3_types.specs.declared.scenarios.Scenario.{Scenario as Scenarios};

use crate::audit::seat::Seat;
use e3_net::Net;
use e3_types::{List, NoMemory, Scenario};
use std::alloc::Global;

/// How many lines a history has, its network, and its sites, site 1 first.
#[derive(Drop)]
pub(crate) struct Auditor {
    pub lines: u32,
    pub net: Net,
    pub seats: Vec<Seat>,
}

// So many sites without entries.
fn seats_of(alloc: Global, count: usize) -> Result<Vec<Seat>, NoMemory>
    ensures count { IfOk result (λ seats. length seats.items ≡ count) }
    ensures stand { IfOk result (λ seats. (sc : Scenarios) → SeatsStand sc [] seats.items) }
{
    let mut seats = List::new(alloc);
    for made in 0..count {
        seats.push(Seat::new(alloc))?;
    }
    Ok(seats.into_vec())
}

impl Auditor {
    /// Before the first entry. None where no network is made for the scenario: it has more than 64 sites, or more than a
    /// hundred packets of a hundred are lost or come twice.
    pub(crate) fn start(alloc: Global, scenario: &Scenario) -> Result<Option<Auditor>, NoMemory>
        ensures { IfOk result (λ started. IfSome started (Stands scenario.now [])) }
    {
        let sites = scenario.weights.len();
        if sites > 64 || scenario.loss > 100 || scenario.repeat > 100 - scenario.loss {
            return Ok(None);
        }
        let net = Net::of(alloc, scenario)?;
        match seats_of(alloc, sites as usize) {
            Ok(seats) => Ok(Some(Auditor {
                lines: 0,
                net,
                seats,
            })),
            // (handed to `drop`, the network is given back by one call)
            Err(NoMemory) => {
                drop(net);
                Err(NoMemory)
            }
        }
    }
}
