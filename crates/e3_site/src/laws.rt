// A site that was made of the brief of a log stands for the site of the log.
ghost use Rattle.e3_site.specs.AlikeLaws.{ExactIsAlike, GoesOnAlike, ListsOpenAlike, PlansAlike, RisesAlike, StillAlike};

/// A site that stands for an incarnation that is alike to that of a history's site, whose log is in order, plans the step that
/// the history makes, and has the same open transactions.
pub fn alike_sites_do_the_same()
    ensures plans { PlansAlike }
    ensures opens { ListsOpenAlike }
{}

/// A site that stands for a history exactly stands for it so too; one that rose with records stands for each history in which
/// its last move is the rise with a log of the same brief; and it goes on so behind room that is made, entries of others, and
/// its own steps.
pub fn alike_sites_stay_alike()
    ensures exact { ExactIsAlike }
    ensures rises { RisesAlike }
    ensures still { StillAlike }
    ensures on { GoesOnAlike }
{}
