// A net that stands for a history stands for it with one more entry too, once it was changed as the entry says.
ghost use Rattle.e3_net.specs.Claims.{DropKeeps, FallKeeps, FirstIsTaken, FreshStands, LineKeeps, NothingPending, PartsKeep, PendingAre, QuietKeeps, StepKeeps, TakenIsLeast, TakenIsPending};

/// A new net stands for the history without entries. For each kind of entry: a net that stands for a history, changed as
/// that entry says, stands for the history with the entry.
pub fn each_entry_keeps_the_net()
    ensures fresh { FreshStands }
    ensures quiet { QuietKeeps }
    ensures line { LineKeeps }
    ensures parts { PartsKeep }
    ensures step { StepKeeps }
    ensures fall { FallKeeps }
    ensures dropped { DropKeeps }
{}

/// The packets that wait in a net which stands for a history are those that are pending in it. What is taken for a site is
/// pending to it and has the least number there, and where nothing is taken nothing is. What is taken for the receiver of
/// the least packet of all is that one.
pub fn net_shows_what_is_pending()
    ensures all { PendingAre }
    ensures first { FirstIsTaken }
    ensures taken { TakenIsPending }
    ensures least { TakenIsLeast }
    ensures none { NothingPending }
{}
