//! Bounded recovery: in a legal history a recovery round in which no member falls ends its transaction at all members in few
//! entries, or finds the group blocked. And the commit round: a step of one Commit that is not refused, at sites that are all
//! up and fit to vote yes, commits everywhere in few entries. Both are laws over histories, whoever made them.
ghost use Rattle.e3_laws.specs.rounds.Claims.{DeliveryIsForced, DeliveryShifts, GroupInOnePart, HistoriesAreCounted, QueueBegins, QueueIsPending};
ghost use Rattle.e3_laws.specs.rounds.Numbers.{NumbersStayLow};
ghost use Rattle.e3_laws.specs.rounds.Rounds.{RoundsEnd};
ghost use Rattle.e3_laws.specs.rounds.Commits.{CommitsEnd};

/// A recovery round that went on until nothing was pending, and in which no member fell: its elector, and nobody else, tells
/// one verdict on its transaction. It is Block exactly where the members are no quorum and none of them had decided at the
/// round's start; else all of them have decided at its end. For k members it has 1 + 7(k - 1) entries of its own at most. So
/// it is in every legal history of 2,000,000 entries at most, of every scenario that keeps the rules.
pub fn rounds_end()
    ensures { RoundsEnd }
{}

/// The packets of a recovery step are a queue: each has one copy, and a delivery takes the first and puts what its step sends
/// behind the others. It is empty where nothing is pending, in any step.
pub fn packets_queue()
    ensures counted { HistoriesAreCounted }
    ensures begins { QueueBegins }
    ensures pending { QueueIsPending }
    ensures shifts { DeliveryShifts }
{}

/// In a recovery step with packets pending the first of them is delivered next, where its receiver is up and nobody falls.
pub fn delivery_is_forced()
    ensures { DeliveryIsForced }
{}

/// The group of a recovery step lies in one part of the network.
pub fn group_in_one_part()
    ensures { GroupInOnePart }
{}

/// A site joins no number of an election above 1 and 18 for each entry of the history.
pub fn numbers_stay_low()
    ensures { NumbersStayLow }
{}

/// A step of one Commit that is not refused, where every site of the transaction is up and fit to vote yes by what its
/// coordinator expects, each packet of the transaction is delivered once, and none of its sites falls: the transaction is
/// committed at all its k sites at the step's end, and 1 + 5(k - 1) entries at most have it as their subject. So it is in
/// every legal history of every scenario that keeps the rules.
pub fn commits_end()
    ensures { CommitsEnd }
{}
