// What refusals of a site and of the wire are to the run.
ghost use Rattle.std.specs.Prelude.{◌≡◌};
ghost use Rattle.e3_fleet.specs.crew.Turns.{given};
ghost use Rattle.e3_play.specs.declared.sites.RunFault.TheVariants.{HistoryFull};
ghost use Rattle.e3_wire.specs.declared.fault.WireFault.TheVariants as wire_fault;

use e3_node::InputFault;
use e3_play::RunFault;
use e3_wire::WireFault;

/// What an input, or a batch, is to a worker: of a batch that ended before its last packet the rest are pending as before.
pub(crate) fn given<T: Drop>(answer: Result<T, InputFault>) -> Result<(), RunFault>
    ensures { result ≡ given answer }
{
    match answer {
        Ok(_) => Ok(()),
        Err(fault) => match fault {
            InputFault::HistoryFull => Err(RunFault::HistoryFull),
            InputFault::NoMemory => Err(RunFault::NoMemory),
            InputFault::Down | InputFault::Fell { .. } => Ok(()),
        },
    }
}

/// What a refusal of the wire is to the run.
pub(crate) fn run_fault(fault: WireFault) -> RunFault
    ensures { result ≡ HistoryFull → fault ≡ wire_fault.HistoryFull }
{
    match fault {
        WireFault::HistoryFull => RunFault::HistoryFull,
        WireFault::NoMemory => RunFault::NoMemory,
    }
}
