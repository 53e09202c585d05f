//! In every legal history of many sites no two decisions of one transaction differ, each commit has every vote before it,
//! and what was told stands. It follows from the protocol of one transaction, whose rules the steps of sites keep.
ghost use Rattle.e3_laws.specs.agreement.Facts.{NumbersRise, ElectorsAreOne, ElectorsOfOwnReportNothing, ElectorsReportNothing, ReportsAreOnce, AskedHaveReported, AttemptsFollowJoins, AttemptsStayBelow, OneDirectionPerNumber, ReportsTellThePast, ReportsHold, QuorumBindsLater, PreCommitHasVotes, PreCommitBarsRefusals, CommitHasQuorum, AbortHasReason};
ghost use Rattle.e3_laws.specs.agreement.Claims.{HistoriesAgree, HistoriesTell, HistoriesToldStand, HistoriesVote, ItemsAreFit};
ghost use Rattle.e3_laws.specs.agreement.Asked.{AttemptsAreMade, DecisionsAreMade};
ghost use Rattle.e3_laws.specs.agreement.Guards.{AttemptsAreOpen, CommitsAreVoted, RoundsAreOpen};
ghost use Rattle.e3_laws.specs.agreement.Protocol.{DecisionsAgree, InvariantHolds, MajoritiesMeet, MarksAgree, MarksTell, MarksVote, OneDirection, QuorumBinds, VerdictsKeepRules, VotesComeFirst};
ghost use Rattle.e3_laws.specs.agreement.Examples.{CommitIsAllowed, RecoveryIsAllowed};
ghost use Rattle.e3_laws.specs.agreement.Refinement.{SoundTrailsAgree, SoundTrailsAreMade, SoundTrailsVote, StepsKeepRules, TrailsAgree, TrailsKeepRules, TrailsTell, TrailsVote};

/// No two decisions of one transaction differ, and each commit has every vote before it, in any legal history of a
/// scenario that keeps its rules: whatever is lost or comes twice, and however often the network is split and sites fall.
/// A decision that an event or a packet says stands in its site's log, from the step that says it on. What the items of
/// such a scenario ask of a site fits it.
pub fn histories_agree()
    ensures fit { ItemsAreFit }
    ensures agree { HistoriesAgree }
    ensures voted { HistoriesVote }
    ensures packets { HistoriesTell }
    ensures told { HistoriesToldStand }
{}

/// What makes a decision survive any recovery, in any legal history of a scenario that keeps its rules: a number is tried in
/// one direction, what a quorum tried binds each greater number, and a decision has a quorum that tried it, or, if it is an
/// abort, a site that refused or a coordinator that called off. It speaks of the logs, of the packets that were sent, and of
/// the decisions that steps said.
pub fn elections_bind()
    ensures numbers_rise { NumbersRise }
    ensures electors_report_nothing { ElectorsReportNothing }
    ensures electors_of_own_report_nothing { ElectorsOfOwnReportNothing }
    ensures reports_are_once { ReportsAreOnce }
    ensures electors_are_one { ElectorsAreOne }
    ensures asked_have_reported { AskedHaveReported }
    ensures attempts_follow_joins { AttemptsFollowJoins }
    ensures attempts_stay_below { AttemptsStayBelow }
    ensures one_direction { OneDirectionPerNumber }
    ensures reports_tell_the_past { ReportsTellThePast }
    ensures reports_hold { ReportsHold }
    ensures quorum_binds_later { QuorumBindsLater }
    ensures pre_commit_has_votes { PreCommitHasVotes }
    ensures pre_commit_bars_refusals { PreCommitBarsRefusals }
    ensures commit_has_quorum { CommitHasQuorum }
    ensures abort_has_reason { AbortHasReason }
{}

/// A step does what it is asked for, in any legal history of a scenario that keeps its rules. An attempt that the last yes, a
/// commit at the only site or an election's verdict asks for is recorded. A decision that another site, a quorum of
/// acknowledgements or an election's verdict asks for is in the log behind the step: recorded by it, or before.
pub fn steps_do_what_is_asked()
    ensures attempts { AttemptsAreMade }
    ensures decisions { DecisionsAreMade }
{}

/// The tests by which a step sees whether it may record an attempt of its own, or a decision, do not fail where the tables of the
/// protocol leave them out, in any legal history of a scenario that keeps its rules: who is asked for an attempt is undecided,
/// joined that number last and has not attempted it; whose round is in progress may decide; and who is asked to commit has voted.
pub fn guards_hold()
    ensures attempts { AttemptsAreOpen }
    ensures rounds { RoundsAreOpen }
    ensures commits { CommitsAreVoted }
{}

/// Two sites that have decided have decided the same. It follows from an invariant that each move keeps.
pub fn decisions_agree()
    ensures invariant { InvariantHolds }
    ensures agree { DecisionsAgree }
{}

/// Every member's vote stands before the first commit is written.
pub fn votes_come_first()
    ensures { VotesComeFirst }
{}

/// The attempts of one number, at whatever sites, have one direction.
pub fn one_direction()
    ensures { OneDirection }
{}

/// What a quorum attempted under one number, each greater number attempts.
pub fn quorum_binds()
    ensures { QuorumBinds }
{}

/// Two groups that each have more than half of the weight of a transaction's sites share a site.
pub fn majorities_meet()
    ensures { MajoritiesMeet }
{}

/// Lists of marks that may be made: no two sites decide differently, a commit has every vote, and a decision that a
/// letter says stands in its sender's log from then on.
pub fn marks_agree()
    ensures agree { MarksAgree }
    ensures voted { MarksVote }
    ensures told { MarksTell }
{}

/// The verdict over reports gives what the rules ask of one who leads an election.
pub fn verdicts_keep_rules()
    ensures { VerdictsKeepRules }
{}

/// The rules allow a commit of three sites, and, where the coordinator is lost behind its attempt, an election that
/// aborts.
pub fn examples_decide()
    ensures commit { CommitIsAllowed }
    ensures recovery { RecoveryIsAllowed }
{}

/// A whole step, with the messages that it has for its own site, writes and sends for each transaction only what the
/// rules of the protocol allow.
pub fn steps_keep_rules()
    ensures { StepsKeepRules }
{}

/// What the moves of all sites say of one transaction are marks that the protocol allows, however sites fall and rise, and
/// whatever is lost, comes twice or comes late.
pub fn trails_keep_rules()
    ensures { TrailsKeepRules }
{}

/// No two decisions of one transaction differ, at whatever sites they stand; each commit has every vote before it; and a
/// decision that a packet says stands in its sender's log.
pub fn trails_agree()
    ensures agree { TrailsAgree }
    ensures voted { TrailsVote }
    ensures told { TrailsTell }
{}

/// A sound trail is such a trail, so it agrees too, and its commits have every vote before them.
pub fn sound_trails_agree()
    ensures made { SoundTrailsAreMade }
    ensures agree { SoundTrailsAgree }
    ensures voted { SoundTrailsVote }
{}
