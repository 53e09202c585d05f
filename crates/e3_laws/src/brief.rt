//! The brief of a log, a short log that reads as the long one, also with more records behind both; and that a site which
//! rose with it does what the site of the log does.
ghost use Rattle.e3_laws.specs.brief.Laws.{BriefsAreBrief, BriefsGoOn, BriefsAreOrderly, BriefsReadAlike, SameBriefsReadAlike, AlikeHaveSameBrief, AlikeStandAlike, BriefsForget, BriefsAreNotEmpty};
ghost use Rattle.e3_laws.specs.brief.IncarnationLaws.{AlikeGoOn, AlikeTurned, LogsAreAlike, OpensAreAlike, OrdersAreAlike, RisesAreAlike, StepsAreAlike};
ghost use Rattle.e3_laws.specs.brief.Sets.{LoggedSitesAreSets};

/// The brief of a brief is that brief. Records that may stand behind an orderly log may stand behind its brief, and the brief
/// of both is the same.
pub fn briefs_go_on()
    ensures again { BriefsAreBrief }
    ensures more { BriefsGoOn }
    ensures orderly { BriefsAreOrderly }
    ensures some { BriefsAreNotEmpty }
{}

/// What a site's step reads of its log is the same for orderly logs with the same brief, but for two things: the operations
/// in the votes of decided transactions, which a brief leaves out, and the order in which locks of several transactions
/// stand on one name.
pub fn briefs_read_alike()
    ensures alike { BriefsReadAlike }
    ensures same { SameBriefsReadAlike }
    ensures back { AlikeHaveSameBrief }
    ensures stand { AlikeStandAlike }
    ensures forgotten { BriefsForget }
{}

/// Each input makes incarnations that are alike do the same: the same records, packets and events. And they have the same
/// open transactions.
pub fn alike_do_the_same()
    ensures steps { StepsAreAlike }
    ensures opens { OpensAreAlike }
{}

/// Incarnations that rise with orderly logs of the same brief are alike, each to the other; they stay so behind the same moves;
/// and then their logs read alike, and the one is in order where the other is.
pub fn alike_stay_alike()
    ensures rise { RisesAreAlike }
    ensures turned { AlikeTurned }
    ensures on { AlikeGoOn }
    ensures logs { LogsAreAlike }
    ensures orders { OrdersAreAlike }
{}

/// The sites of each transaction in the log of each site are a set, which its bits give back: each was begun by an item of the
/// scenario, which names a group.
pub fn logged_sites_are_sets()
    ensures { LoggedSitesAreSets }
{}
