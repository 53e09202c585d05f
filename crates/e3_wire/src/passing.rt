// What entries do to the network.
ghost use Rattle.std.specs.Prelude.{◌≡◌, ◌+◌, ◌^◌, ◌<◌, ◌≤◌, ◌∷◌, [], suc, length};
ghost use Rattle.e3_net.specs.Stands.{behind_inputs};
ghost use Rattle.e3_net.specs.Traffic.{sends_all};
ghost use Rattle.e3_wire.specs.Wires.{act_on};
ghost use Rattle.e3_world.specs.Items.{inputs_of};
ghost use Rattle.e3_world.specs.Packets.{is_calm, outs_of, step_items};

use e3_net::Net;
use e3_types::{Act, Input, Item, Scenario};

// The packet of a delivery leaves the network.
#[tactic(auto, using(crate::proofs::Sums::itself))]
fn leave(net: &mut Net, input: &Input)
    ensures traffic { net.new.traffic ≡ behind_inputs net.old.traffic (input.now ∷ []) }
    ensures sent { net.new.traffic.sent ≡ net.old.traffic.sent }
    ensures room { net.old.room ≤ net.new.room }
{
    match input {
        Input::Deliver { packet } => {
            let _taken = net.take(packet.to);
        }
        _ => {}
    }
}

// The packets of deliveries leave the network, one after the other.
fn leave_all(net: &mut Net, inputs: &[Input])
    ensures traffic { net.new.traffic ≡ behind_inputs net.old.traffic inputs.now }
    ensures sent { net.new.traffic.sent ≡ net.old.traffic.sent }
    ensures room { net.old.room ≤ net.new.room }
{
    for input in inputs {
        leave(net, input);
    }
}

// What an act takes leaves the network, and what it sends is sent, with the next numbers.
pub(crate) fn pass_on(net: &mut Net, act: Act) -> Act
    requires few { net.old.traffic.sent + length (outs_of act) < 2 ^ 64 }
    requires room { length (outs_of act) ≤ net.old.room }
    ensures act { result ≡ act_on (suc net.old.traffic.sent) act }
    ensures traffic { net.new.traffic ≡ sends_all (behind_inputs net.old.traffic (inputs_of act)) (outs_of act) }
    ensures room { net.old.room ≤ net.new.room + length (outs_of act) }
{
    match act {
        Act::Step {
            input,
            records,
            outs,
            told,
        } => {
            leave(net, &input);
            let outs = net.send_all(outs);
            Act::Step {
                input,
                records,
                outs,
                told,
            }
        }
        Act::Fall {
            inputs,
            records,
            why,
        } => {
            leave_all(net, inputs.as_slice());
            Act::Fall {
                inputs,
                records,
                why,
            }
        }
        act => act,
    }
}

fn is_recover(items: &[Item]) -> bool
    ensures { result ≡ is_calm items.now }
{
    matches!(items, [Item::Recover { .. }, ..])
}

// Whether the network is calm in the step with this number, counted from 1.
pub(crate) fn is_calm_in(scenario: &Scenario, number: u32) -> bool
    ensures { result ≡ is_calm (step_items scenario.now number) }
{
    if number == 0 {
        return false;
    }
    match scenario.steps.as_slice().get(number as usize - 1) {
        Some(items) => is_recover(items.as_slice()),
        None => false,
    }
}
