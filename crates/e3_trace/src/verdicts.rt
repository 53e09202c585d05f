//! A verdict on a printed history: bytes that have a scenario, a line `#trace` and the trace of a history are judged, whoever
//! wrote them. A legal history, printed, reads back as itself.
mod checking;
mod texts;
mod traces;

pub use checking::{Checked, Finding, check, legal_traces_pass};
pub use traces::legal_traces_read_back;
