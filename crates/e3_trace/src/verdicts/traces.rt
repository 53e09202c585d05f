// The law of traces: a legal history, printed, reads back as itself.
ghost use Rattle.e3_trace.specs.verdicts.Traces.{LegalAreTellable, LegalTracesReadBack};

use crate::traces_read_back;

/// Every legal history of a given scenario is tellable, and what a report prints of it behind a line `#trace` reads back as
/// that history: so a trace says all of a history. Values that a line cannot have are excepted, and texts that are too long.
pub fn legal_traces_read_back()
    ensures tellable { LegalAreTellable }
    ensures back { LegalTracesReadBack }
{
    traces_read_back();
}
