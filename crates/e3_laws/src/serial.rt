//! One order over every legal history, waits that never form a cycle, and logs that are orderly.
ghost use Rattle.e3_laws.specs.serial.Claims.{LegalSerial, LegalTables, LegalVotes, LogsAreOrdered, OrderedTables, OrderedVotes};
ghost use Rattle.e3_laws.specs.serial.InLine.{in_line, middle_one, oldest_one, youngest_one};
ghost use Rattle.e3_laws.specs.serial.Waiters.{WaitsAt};
ghost use Rattle.e3_laws.specs.serial.Waits.{NoCycle, OlderWaits};
ghost use Rattle.e3_laws.specs.serial.Orderly.{IncarnationsCountUp, LogsAreOrderly, TailsAreLogs, TailsAreOrderly};
ghost use Rattle.e3_laws.specs.serial.Turns.{RecordsComeInTurn};

use crate::agreement::histories_agree;
use crate::steps::{records_suit_their_site, trails_are_sound};

/// Where each log's records follow one another as votes and decisions do, no two decisions of a transaction differ, and a
/// commit stands behind all votes, there is one order, that of the last votes: the committed transactions run one after the
/// other give each site's table, over those that its own log commits, and what each read in their votes found.
pub fn ordered_logs_replay()
    ensures tables { OrderedTables }
    ensures votes { OrderedVotes }
{}

/// In every legal history of a given scenario the logs are ordered: no vote conflicts with one that is undecided, the
/// operations of a vote ascend and are on keys of its site, and each transaction votes and decides at most once at a site.
pub fn logs_are_ordered()
    ensures { LogsAreOrdered }
{
    trails_are_sound();
    records_suit_their_site();
    histories_agree();
}

/// In every legal history of a given scenario there is one order of the committed transactions, that of their last votes:
/// run one after the other they give each site's table, over those that its log commits, and what their votes found.
pub fn legal_histories_replay()
    ensures tables { LegalTables }
    ensures votes { LegalVotes }
{
    logs_are_ordered();
    ordered_logs_replay();
}

/// In every legal history of a given scenario there is one order of the committed transactions, that of their last votes:
/// run one after the other they give each site's table, over those that its own log commits, and the answer to each of their
/// reads that was told to a client, however sites fall and rise and whatever is lost or comes twice.
pub fn one_order()
    ensures { LegalSerial }
{
    trails_are_sound();
    histories_agree();
    legal_histories_replay();
}

/// In every legal history of a given scenario everyone whom a waiter waits for is younger, so the waits over all sites form
/// no cycle: no transaction waits for itself, neither at once nor through others that wait at this site or at another.
pub fn waits_never_cycle()
    ensures older { OlderWaits }
    ensures none { NoCycle }
{
    trails_are_sound();
}

/// A waiter waits for those that hold the record, and for those ahead of it too: where one has written a record, and another
/// asked to write it, an older one that asks to read it waits for both.
pub fn waiters_ahead_count()
    ensures first { WaitsAt 3 in_line middle_one youngest_one }
    ensures holder { WaitsAt 3 in_line oldest_one youngest_one }
    ensures ahead { WaitsAt 3 in_line oldest_one middle_one }
{}

/// In the log of each site the records of each transaction follow one another as a log has them: a vote comes first, the
/// numbers of joins rise, each attempt is of the last join, there is one decision, and a commit stands behind the vote.
pub fn records_come_in_turn()
    ensures { RecordsComeInTurn }
{}

/// The log of each site is orderly, also with what may or may not be on its disk behind it, which stands in the log of another
/// legal history. A log's order counts the votes of all its incarnations.
pub fn logs_are_orderly()
    ensures logs { LogsAreOrderly }
    ensures count { IncarnationsCountUp }
    ensures others { TailsAreLogs }
    ensures tails { TailsAreOrderly }
{
    trails_are_sound();
    logs_are_ordered();
}
