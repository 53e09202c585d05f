// The line of the next step.
ghost use Rattle.std.specs.Prelude.{◌≡◌, ◌≤◌, ◌++◌, ◌∷◌, [], true, false, length, IfOk};
ghost use Rattle.e3_judge.specs.audit.Seats.{SeatsStand, Stands, line_of};
ghost use Rattle.e3_readings.specs.Bindings.{bound_behind};
ghost use Rattle.e3_world.specs.Items.{plan_of};
ghost use Rattle.e3_world.specs.Legal.{IsLine};

use crate::audit::auditor::Auditor;
use crate::audit::seat::Seat;
use crate::{Prefix, is_calm};
use e3_readings::{BoundNames, inputs_asked, inputs_to, step_items};
use e3_types::{Input, List, NoMemory};
use e3_world::Addressed;

// A step begins, which asks these inputs of the site.
fn ask(seat: &mut Seat, inputs: List<Input>)
    ensures { seat.new ≡ record seat.old { inputs = inputs; turn = 0; delivered = false; rising = false } }
{
    seat.inputs = inputs;
    seat.turn = 0;
    seat.delivered = false;
    seat.rising = false;
}

// A step begins, which asks this of the sites.
fn ask_all(
    prefix: &Prefix<'_>,
    _number: u32,
    asked: &[Addressed],
    seats: &mut [Seat],
) -> Result<(), NoMemory>
    requires stand { SeatsStand prefix.now.scenario.now prefix.now.entries.now seats.old }
    requires few { length seats.old ≤ 64 }
    requires asked { asked.now ≡ plan_of prefix.now.scenario.now (prefix.now.entries.now ++ line_of _number ∷ []) }
    ensures stand { IfOk result (λ u. SeatsStand prefix.now.scenario.now (prefix.now.entries.now ++ line_of _number ∷ []) seats.new) }
    ensures count { length seats.new ≡ length seats.old }
{
    for at in 0..seats.len() {
        let inputs = inputs_to(prefix.alloc, asked, at as u64 + 1)?;
        ask(&mut seats[at], inputs);
    }
    Ok(())
}

impl Auditor {
    fn line_is_due(&self, prefix: &Prefix<'_>, number: u32) -> Result<bool, NoMemory>
        requires { Stands prefix.now.scenario.now prefix.now.entries.now self.now }
        ensures { IfOk result (λ b. b ≡ true → IsLine prefix.now.scenario.now prefix.now.entries.now number) }
    {
        if number < 1 || number - 1 != self.lines || number as u64 > prefix.scenario.steps.len() {
            return Ok(false);
        }
        self.is_through(prefix)
    }

    fn begin(
        &mut self,
        prefix: &Prefix<'_>,
        number: u32,
        asked: &[Addressed],
    ) -> Result<(), NoMemory>
        requires stands { Stands prefix.now.scenario.now prefix.now.entries.now self.old }
        requires due { IsLine prefix.now.scenario.now prefix.now.entries.now number }
        requires asked { asked.now ≡ plan_of prefix.now.scenario.now (prefix.now.entries.now ++ line_of number ∷ []) }
        ensures { IfOk result (λ u. Stands prefix.now.scenario.now (prefix.now.entries.now ++ line_of number ∷ []) self.new) }
    {
        self.lines = number;
        self.net
            .calm(is_calm(step_items(prefix.scenario, number as u64)));
        ask_all(prefix, number, asked, &mut self.seats)
    }

    /// Goes on over a line of the driver with this number, where it is the next and all before it is seen to be through.
    pub(crate) fn line(
        &mut self,
        prefix: &Prefix<'_>,
        binding: &BoundNames,
        number: u32,
    ) -> Result<bool, NoMemory>
        requires stands { Stands prefix.now.scenario.now prefix.now.entries.now self.old }
        requires bound { binding.now ≡ bound_behind prefix.now.scenario.now prefix.now.entries.now }
        ensures { IfOk result (λ on. on ≡ true → Stands prefix.now.scenario.now (prefix.now.entries.now ++ line_of number ∷ []) self.new) }
    {
        let due = self.line_is_due(prefix, number)?;
        if !due {
            return Ok(false);
        }
        let items = step_items(prefix.scenario, number as u64);
        let asked = inputs_asked(prefix.alloc, binding, items)?;
        let begun = self.begin(prefix, number, asked.as_slice());
        // (handed to `drop`, it is given back by one call)
        drop(asked);
        match begun {
            Ok(()) => Ok(true),
            Err(NoMemory) => Err(NoMemory),
        }
    }
}
