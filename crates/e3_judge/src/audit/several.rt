// Several inputs of a fall: their packets, and what is kept of the site.
ghost use Rattle.std.specs.Prelude.{◌≡◌, ◌++◌, ◌∷◌, [], true, fold, IfOk};
ghost use Rattle.e3_judge.specs.audit.Seats.{SeatStands, TakesAll, noted};
ghost use Rattle.e3_net.specs.Stands.{IsNext};
ghost use Rattle.e3_types.specs.declared.entries.Act.TheVariants as act;

use crate::Prefix;
use crate::audit::dues::is_next_to;
use crate::audit::falling::leave;
use crate::audit::seat::Seat;
use e3_net::Net;
use e3_types::{Input, NoMemory, Record, Why};

// Where the input is a delivery, its packet is the least to its site.
fn is_next(net: &Net, input: &Input) -> bool
    ensures { result ≡ true → IsNext net.now.traffic input.now }
{
    match input {
        Input::Deliver { packet } => is_next_to(net, packet.to, packet),
        _ => true,
    }
}

/// The packets that the inputs take leave the network, one after the other, where each is the least to its site then.
pub(crate) fn leave_all(net: &mut Net, inputs: &[Input]) -> bool
    ensures { result ≡ true → TakesAll net.old.traffic inputs.now net.new.traffic }
{
    for input in inputs {
        if !is_next(net, input) {
            return false;
        }
        leave(net, input);
    }
    true
}

// The site took these inputs.
fn note_all(seat: &mut Seat, inputs: &[Input]) -> Result<(), NoMemory>
    ensures { IfOk result (λ u. seat.new ≡ fold noted seat.old inputs.now) }
{
    for input in inputs {
        seat.note(input)?;
    }
    Ok(())
}

/// The site falls over the inputs, and what is kept of it goes on.
pub(crate) fn fall_all(
    seat: &mut Seat,
    _prefix: &Prefix<'_>,
    _site: u32,
    inputs: &[Input],
    _records: &[Record],
    _why: Why,
) -> Result<(), NoMemory>
    requires { SeatStands _prefix.now.scenario.now _prefix.now.entries.now _site seat.old }
    ensures { IfOk result (λ u. SeatStands _prefix.now.scenario.now (_prefix.now.entries.now ++ record { owner = _site; act = act.Fall inputs.now _records.now _why } ∷ []) _site seat.new) }
{
    seat.lie();
    note_all(seat, inputs)
}
