// Laws of nodes, and those of logs that their proofs use.
ghost use Rattle.e3_laws.specs.brief.Sets.{LoggedSitesAreSets};
ghost use Rattle.e3_laws.specs.serial.Orderly.{LogsAreOrderly};
ghost use Rattle.e3_laws.specs.steps.Begun.{BegunAreTransactions, RecordsMentionWhatStands};
ghost use Rattle.e3_laws.specs.steps.Trails.{TrailsAreSound, VotesAtTheirSite};
ghost use Rattle.e3_node.specs.Claims.{DisksKept, MovesStay, NodesDisks, NodesKept, NodesKeptByOthers, NodesStandBehindOthers, NodesUp};
ghost use Rattle.e3_node.specs.Told.{ReadingsAreTold, TailsAreTold};

use e3_disk::Disk;
use e3_laws::brief::logged_sites_are_sets;
use e3_laws::serial::logs_are_orderly;
use e3_laws::steps::{
    begun_are_transactions, legal_histories_mention_what_stands, records_suit_their_site,
    trails_are_sound,
};

/// A node that stands for a history, and a disk that stands for a site of it, stand for the history with an entry of
/// another owner: of another site, or of the driver.
pub fn other_entries_keep_nodes<D: Disk>()
    ensures nodes { NodesKept D.meaning }
    ensures disks { DisksKept D.meaning }
{}

/// A node that stands for a history stands for it with more entries of others, and so behind what others put while a pass
/// that speaks for its site rested. The moves of the site are the same there.
pub fn others_leave_nodes<D: Disk>()
    ensures nodes { NodesKeptByOthers D.meaning }
    ensures turns { NodesStandBehindOthers D.meaning }
    ensures moves { MovesStay }
{}

/// While a node stands for a history its disk does, so that it reads as a log with the brief of its site's; and the node is up
/// exactly where the history has its site up.
pub fn a_node_tells_of_its_disk<D: Disk>()
    ensures disks { NodesDisks D.meaning }
    ensures up { NodesUp D.meaning }
{}

/// In a legal history the log of a site with its open tail has another brief than the log alone. So bytes that read as the log
/// read as records with the brief of the log with the tail exactly where that is kept.
pub fn readings_tell_of_the_tail()
    ensures tails { TailsAreTold }
    ensures readings { ReadingsAreTold }
{
    logs_are_orderly();
}

/// What is known of each log in a legal history: it is orderly and its trail is sound, the sites of its transactions are sets, what
/// its records mention stands and was begun, and its votes are on keys of the site.
pub(crate) fn logs_are_sound()
    ensures orderly { LogsAreOrderly }
    ensures sets { LoggedSitesAreSets }
    ensures sound { TrailsAreSound }
    ensures mention { RecordsMentionWhatStands }
    ensures begun { BegunAreTransactions }
    ensures votes { VotesAtTheirSite }
{
    logs_are_orderly();
    logged_sites_are_sets();
    trails_are_sound();
    legal_histories_mention_what_stands();
    begun_are_transactions();
    records_suit_their_site();
}
