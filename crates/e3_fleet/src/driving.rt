// What the driver enters.
ghost use Rattle.std.specs.Prelude.{◌≡◌, false, Some};
ghost use Rattle.e3_fleet.specs.Fleets.{HasDriven, drop_answer, wire_answer};
ghost use Rattle.e3_node.specs.SharedStands.{SharedStands};
ghost use Rattle.e3_types.specs.declared.entries.Act.TheVariants as act;
ghost use Rattle.e3_wire.specs.Marks.{entries_of, scenario_of};
ghost use Rattle.e3_wire.specs.Wires.{IsPlayed};
ghost use Rattle.e3_world.specs.Items.{is_up_at};
ghost use Rattle.e3_world.specs.Legal.{IsLine, IsParts, first_pending};

use e3_play::RunFault;
use e3_types::{List, Packet, SiteSet};
use e3_wire::{Shared, WireFault};

// What an answer of the wire is to the run.
fn wire_answer(answer: Result<(), WireFault>) -> Result<(), RunFault>
    ensures { result ≡ wire_answer answer }
{
    match answer {
        Ok(()) => Ok(()),
        Err(WireFault::HistoryFull) => Err(RunFault::HistoryFull),
        Err(WireFault::NoMemory) => Err(RunFault::NoMemory),
    }
}

// What a drop is to the run.
fn drop_answer(answer: Result<Option<u64>, WireFault>) -> Result<(), RunFault>
    ensures { result ≡ drop_answer answer }
{
    match answer {
        Ok(_number) => Ok(()),
        Err(fault) => wire_answer(Err(fault)),
    }
}

// What an answer of the wire is to the run, and what is always true of what is shared behind it.
fn told(shared: &Shared, answer: Result<(), WireFault>) -> Result<(), RunFault>
    ensures played { IsPlayed shared.now }
    ensures answer { result ≡ wire_answer answer }
{
    shared.tell();
    wire_answer(answer)
}

/// Enters the line of the next step.
pub(crate) fn enter_line(shared: &mut Shared, number: u32) -> Result<(), RunFault>
    requires standing { SharedStands shared.old }
    requires due { IsLine (scenario_of shared.old) (entries_of shared.old) number }
    ensures { HasDriven (act.Line number) shared.old shared.new result }
{
    let entered = shared.line(number);
    told(shared, entered)
}

/// Enters the parts into which the network falls, directly behind the line of a split or a merge.
pub(crate) fn enter_parts(shared: &mut Shared, parted: List<SiteSet>) -> Result<(), RunFault>
    requires standing { SharedStands shared.old }
    requires due { IsParts (scenario_of shared.old) (entries_of shared.old) parted }
    ensures { HasDriven (act.Parts parted) shared.old shared.new result }
{
    let entered = shared.parts(parted);
    told(shared, entered)
}

/// Drops the first pending packet, since its site is down.
pub(crate) fn enter_drop(shared: &mut Shared, packet: &Packet) -> Result<(), RunFault>
    requires standing { SharedStands shared.old }
    requires first { first_pending (scenario_of shared.old) (entries_of shared.old) ≡ Some packet.now }
    requires down { is_up_at (entries_of shared.old) packet.now.to ≡ false }
    ensures { HasDriven (act.Drop packet.now.number) shared.old shared.new result }
{
    let dropped = shared.drop_for(packet.to);
    shared.tell();
    drop_answer(dropped)
}
