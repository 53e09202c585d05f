//! Laws of steps, and of what legal histories send, record, take and mention.
ghost use Rattle.e3_laws.specs.steps.Claims.{NumbersAreAll, OwnMessagesEnd, OwnRanksFall, PacketRanksFall, PrefixIsLegal, StepIsOwn, TakenNumberIsNothing};
ghost use Rattle.e3_laws.specs.steps.Sending.{StepsSendFew};
ghost use Rattle.e3_laws.specs.steps.Trails.{DoneNumbersAscend, DueInputsFit, InputsSuit, LogsAreOfTrails, NamesDiffer, OneWaits, OperationsComeInTurn, PacketsGoBetween, PendingWasSent, RecordsSuitTheirSite, SilentMovesEnd, TrailsAreSound, VotesAtTheirSite};
ghost use Rattle.e3_laws.specs.steps.Begun.{BegunAreTransactions, DueMentionsWhatStands, EntriesMentionWhatStands, PacketsAreTheirOwners, PacketsMentionWhatStands, RecordsMentionWhatStands, StepsMentionWhatStands};

/// A step's messages to its own site end: each that is handled makes only messages of lower rank wait, so that none is
/// left when the step is done.
pub fn own_messages_end()
    ensures ranks { OwnRanksFall }
    ensures ends { OwnMessagesEnd }
{}

/// A packet that is taken makes only packets of lower rank, but for the answer to an operation, which may doom its
/// transaction.
pub fn packets_fall_in_rank()
    ensures { PacketRanksFall }
{}

/// The packets of a step are hardly more than the steps of its incarnation, where each list of sites to which it may send has
/// at most 64.
pub fn steps_send_few()
    ensures { StepsSendFew }
{}

/// A step depends on the site's own entries alone, but for the numbers of its packets; and the number of the packet that
/// it takes is nothing to it.
pub fn steps_are_local()
    ensures entries { StepIsOwn }
    ensures numbers { NumbersAreAll }
    ensures taken { TakenNumberIsNothing }
{}

/// Every prefix of a legal history is legal.
pub fn prefix_is_legal()
    ensures { PrefixIsLegal }
{}

/// Each packet of a legal history goes from one site of its transaction to another, and a Do from the coordinator to the
/// site of its key; and what is pending was sent.
pub fn packets_go_between_sites()
    ensures between { PacketsGoBetween }
    ensures pending { PendingWasSent }
{}

/// Each record of a site's log, also one that may or may not be on its disk, is of a transaction of that site, and the
/// operations of a vote are on keys of that site.
pub fn records_suit_their_site()
    ensures records { RecordsSuitTheirSite }
    ensures votes { VotesAtTheirSite }
{}

/// What a legal history may give to a site is of a transaction of that site.
pub fn inputs_suit_their_site()
    ensures { InputsSuit }
{}

/// What is due at a site that is up fits the life of the site: an operation at its coordinator is not the 65th, and one
/// that is delivered comes in turn.
pub fn due_inputs_fit()
    ensures { DueInputsFit }
{}

/// The trail of a legal history is sound, and its logs are those of the history. A silent move of a site comes before a
/// silent move or a rise of that site, never before a step.
pub fn trails_are_sound()
    ensures sound { TrailsAreSound }
    ensures logs { LogsAreOfTrails }
    ensures silent { SilentMovesEnd }
{}

/// The transactions that a legal history tells as begun have different names: no two have the same site, incarnation and
/// number, whatever fell or was lost between them.
pub fn names_differ()
    ensures { NamesDiffer }
{}

/// The operations of a transaction go one by one at a site that is up: what is on its way to it comes in turn, what it has
/// done has ascending numbers, and one waits at most.
pub fn operations_go_one_by_one()
    ensures turns { OperationsComeInTurn }
    ensures ascending { DoneNumbersAscend }
    ensures waiting { OneWaits }
{}

/// Whatever a legal history mentions stands before it is mentioned: a transaction was told as begun by its coordinator, in
/// an earlier entry, and a value is one of the scenario.
pub fn legal_histories_mention_what_stands()
    ensures entries { EntriesMentionWhatStands }
    ensures due { DueMentionsWhatStands }
    ensures steps { StepsMentionWhatStands }
    ensures records { RecordsMentionWhatStands }
    ensures packets { PacketsMentionWhatStands }
{}

/// A transaction that a legal history tells as begun has numbers from 1 on, and its coordinator is one of its sites.
pub fn begun_are_transactions()
    ensures { BegunAreTransactions }
{}

/// The packets of an entry come from its owner.
pub fn packets_are_their_owners()
    ensures { PacketsAreTheirOwners }
{}
