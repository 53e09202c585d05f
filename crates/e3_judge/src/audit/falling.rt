// Falls of sites.
ghost use Rattle.std.specs.Prelude.{◌≡◌, ◌≢◌, ◌≤◌, ◌++◌, ◌∷◌, [], true, length, IfOk};
ghost use Rattle.e3_judge.specs.audit.Seats.{BeingStands, Stands};
ghost use Rattle.e3_net.specs.Stands.{behind_input};
ghost use Rattle.e3_types.specs.declared.entries.Act.TheVariants as act;
ghost use Rattle.e3_types.specs.declared.entries.Why.{Why as Whys};
ghost use Rattle.e3_world.specs.Items.{is_up_at};
ghost use Rattle.e3_world.specs.Legal.{made_by};

use crate::audit::auditor::Auditor;
use crate::audit::rising::may_come;
use crate::audit::seat::Being;
use crate::audit::several::{fall_all, leave_all};
use crate::audit::stepping::plan_at;
use crate::{Prefix, same_list};
use e3_net::Net;
use e3_types::{Entry, Input, NoMemory, Record, Why};

// The site is up, and it would record this.
fn would_record(
    being: &Being,
    prefix: &Prefix<'_>,
    site: u32,
    input: &Input,
    records: &[Record],
) -> Result<bool, NoMemory>
    requires { BeingStands prefix.now.scenario.now prefix.now.entries.now site being.now }
    ensures up { IfOk result (λ on. on ≡ true → is_up_at prefix.now.entries.now site ≡ true) }
    ensures made { IfOk result (λ on. on ≡ true → records.now ≡ (made_by prefix.now.scenario.now prefix.now.entries.now site input.now).records) }
{
    match being {
        Being::Up(up) => {
            let plan = plan_at(up, prefix, site, input)?;
            let would = same_list(records, plan.records());
            // (handed to `drop`, it is given back by one call)
            drop(plan);
            Ok(would)
        }
        Being::Down => Ok(false),
    }
}

/// The packet that the input takes leaves the network.
pub(crate) fn leave(net: &mut Net, input: &Input)
    ensures { net.new.traffic ≡ behind_input net.old.traffic input.now }
{
    if let Input::Deliver { packet } = input {
        let _taken = net.take(packet.to);
    }
}

impl Auditor {
    // Goes on over a fall over one input, for whatever reason.
    fn fall_over(
        &mut self,
        prefix: &Prefix<'_>,
        site: u32,
        input: &Input,
        records: &[Record],
    ) -> Result<bool, NoMemory>
        requires stands { Stands prefix.now.scenario.now prefix.now.entries.now self.old }
        requires some { 1 ≤ site }
        requires exists { site ≤ length prefix.now.scenario.now.weights }
        requires records { records.now ≢ [] }
        ensures { IfOk result (λ on. on ≡ true → (why : Whys) →
            Stands prefix.now.scenario.now (prefix.now.entries.now ++ record { owner = site; act = act.Fall (input.now ∷ []) records.now why } ∷ []) self.new) }
    {
        let due = self.input_is_due(prefix, site, input)?;
        if !due {
            return Ok(false);
        }
        let seat = &mut self.seats[site as usize - 1];
        let falls = would_record(&seat.being, prefix, site, input, records)?;
        if !falls {
            return Ok(false);
        }
        seat.lie();
        seat.note(input)?;
        leave(&mut self.net, input);
        Ok(true)
    }

    /// Goes on over a fall of a site of the scenario, where it is seen to be due and to have what its inputs make the site record.
    /// Falls over several inputs are few: their guard is read anew, and each packet has to be the least to the site in its turn.
    pub(crate) fn fall(
        &mut self,
        prefix: &Prefix<'_>,
        entry: &Entry,
        site: u32,
        inputs: &[Input],
        records: &[Record],
        why: Why,
    ) -> Result<bool, NoMemory>
        requires stands { Stands prefix.now.scenario.now prefix.now.entries.now self.old }
        requires some { 1 ≤ site }
        requires exists { site ≤ length prefix.now.scenario.now.weights }
        requires fall { entry.now ≡ record { owner = site; act = act.Fall inputs.now records.now why } }
        ensures { IfOk result (λ on. on ≡ true →
            Stands prefix.now.scenario.now (prefix.now.entries.now ++ record { owner = site; act = act.Fall inputs.now records.now why } ∷ []) self.new) }
    {
        if records.is_empty() {
            return Ok(false);
        }
        if let [input] = inputs {
            return self.fall_over(prefix, site, input, records);
        }
        let may = may_come(prefix, entry)?;
        if !may {
            return Ok(false);
        }
        if !leave_all(&mut self.net, inputs) {
            return Ok(false);
        }
        let seat = &mut self.seats[site as usize - 1];
        fall_all(seat, prefix, site, inputs, records, why)?;
        Ok(true)
    }
}
