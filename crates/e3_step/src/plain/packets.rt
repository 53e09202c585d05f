// Packets and inputs without numbers, which are nothing to a step.
ghost use Rattle.std.specs.Prelude.{◌≡◌};
ghost use Rattle.e3_world.specs.Moves.{unnumbered, unnumbered_input};

use e3_types::{Input, Packet};

/// The packet without its number.
pub fn unnumbered(packet: &Packet) -> Packet
    ensures { result ≡ unnumbered packet.now }
{
    Packet {
        number: 0,
        from: packet.from,
        to: packet.to,
        msg: packet.msg.copy(),
    }
}

/// The input without its packet's number.
pub fn unnumbered_input(input: &Input) -> Input
    ensures { result ≡ unnumbered_input input.now }
{
    match input {
        Input::Deliver { packet } => Input::Deliver {
            packet: unnumbered(packet),
        },
        _ => input.copy(),
    }
}
