// What is said of every worked history: that it is one, and of those among the examples their texts, reports and traces.
ghost use Rattle.std.specs.Prelude.{◌≡◌, ◌++◌, ◌≤◌, true, false, Ok};
ghost use Rattle.e3_report.specs.Report.{report_of};
ghost use Rattle.e3_scenario.specs.Scenarios.{scenario_of};
ghost use Rattle.e3_world.specs.Legal.{IsWhole};
ghost use Rattle.e3_worked.specs.Worked.{IsWorked, nothing_at, outcome_of};
ghost use Rattle.e3_worked.specs.BusyCancelOver.{busy_cancel_over, busy_cancel_over_history, busy_cancel_over_text, busy_cancel_over_report, busy_cancel_over_trace};
ghost use Rattle.e3_worked.specs.CascadeAborts.{cascade_aborts, cascade_aborts_history, cascade_aborts_text, cascade_aborts_report};
ghost use Rattle.e3_worked.specs.CascadeCommits.{cascade_commits, cascade_commits_history, cascade_commits_outcome, cascade_commits_text, cascade_commits_report};
ghost use Rattle.e3_worked.specs.CommitRound.{commit_round, commit_round_history, commit_round_outcome};
ghost use Rattle.e3_worked.specs.DroppedPackets.{dropped_packets, dropped_packets_history};
ghost use Rattle.e3_worked.specs.ElectedSiteStaysSilent.{elected_site_stays_silent, elected_site_stays_silent_history, elected_site_stays_silent_text, elected_site_stays_silent_report};
ghost use Rattle.e3_worked.specs.EveryPacketLost.{every_packet_lost, every_packet_lost_history, every_packet_lost_text, every_packet_lost_report, every_packet_lost_trace};
ghost use Rattle.e3_worked.specs.FallenGroup.{fallen_group, fallen_group_history};
ghost use Rattle.e3_worked.specs.FullDisk.{full_disk_history};
ghost use Rattle.e3_worked.specs.MissedAndFailedRises.{missed_and_failed_rises, missed_and_failed_rises_history, failed_rise_lost, failed_rise_lost_history, missed_and_failed_rises_text, missed_and_failed_rises_report, missed_and_failed_rises_trace};
ghost use Rattle.e3_worked.specs.NoSteps.{no_steps, no_steps_history, no_steps_text, no_steps_report, no_steps_trace};
ghost use Rattle.e3_worked.specs.OlderWaitsYoungerDies.{older_waits_younger_dies, older_waits_younger_dies_history, older_waits_younger_dies_outcome, older_waits_younger_dies_text, older_waits_younger_dies_report};
ghost use Rattle.e3_worked.specs.OneSiteIsAQuorum.{one_site_is_a_quorum, one_site_is_a_quorum_history, one_site_is_a_quorum_outcome, one_site_is_a_quorum_text, one_site_is_a_quorum_report};
ghost use Rattle.e3_worked.specs.OneWrite.{one_write, one_write_history, one_write_outcome, one_write_text, one_write_report, one_write_trace};
ghost use Rattle.e3_worked.specs.RestartBeforeTheVote.{restart_before_the_vote, restart_before_the_vote_history, restart_before_the_vote_outcome, restart_before_the_vote_text, restart_before_the_vote_report, restart_before_the_vote_trace};
ghost use Rattle.e3_worked.specs.RestartDooms.{restart_dooms, restart_dooms_history, restart_dooms_outcome, restart_dooms_text, restart_dooms_report, restart_dooms_trace};
ghost use Rattle.e3_worked.specs.SixtyFourOperations.{sixty_four_operations, sixty_four_operations_history, sixty_four_operations_outcome, sixty_four_operations_text, sixty_four_operations_report};
ghost use Rattle.e3_worked.specs.SplitInHalves.{split_in_halves, split_in_halves_history, split_in_halves_text, split_in_halves_report, split_in_halves_trace};
ghost use Rattle.e3_worked.specs.ThreeSites.{three_sites, three_sites_history, three_sites_outcome, three_sites_text, three_sites_report, three_sites_trace};
ghost use Rattle.e3_worked.specs.ThreeSitesEveryPacketTwice.{three_sites_every_packet_twice, three_sites_every_packet_twice_history, three_sites_every_packet_twice_text};
ghost use Rattle.e3_worked.specs.TooLateKeptDown.{too_late_kept_down, too_late_kept_down_history, too_late_kept_down_text, too_late_kept_down_report, too_late_kept_down_trace};
ghost use Rattle.e3_worked.specs.TwoElectors.{two_electors, two_electors_history};
ghost use Rattle.e3_worked.specs.TwoSitesAtOnce.{two_sites_at_once, two_sites_at_once_history, two_sites_at_once_text, two_sites_at_once_report};
ghost use Rattle.e3_worked.specs.UpgradeWaits.{upgrade_waits, upgrade_waits_history, upgrade_waits_outcome, upgrade_waits_text, upgrade_waits_report, upgrade_waits_trace};
ghost use Rattle.e3_worked.specs.VoteStopped.{vote_stopped, vote_lost_history, vote_kept_history};

use e3_judge::checks_are_exact;
use e3_laws::steps::trails_are_sound;
use e3_types::Leave;

/// Each worked history is legal and whole, its scenario keeps the rules, its trail is sound, and it comes to the commits and
/// the tables that are named.
pub fn are_worked()
    ensures busy_cancel_over { IsWorked busy_cancel_over busy_cancel_over_history (nothing_at 2) }
    ensures cascade_aborts { IsWorked cascade_aborts cascade_aborts_history (nothing_at 3) }
    ensures cascade_commits { IsWorked cascade_commits cascade_commits_history cascade_commits_outcome }
    ensures commit_round { IsWorked commit_round commit_round_history commit_round_outcome }
    ensures dropped_packets { IsWorked dropped_packets dropped_packets_history (nothing_at 3) }
    ensures elected_site_stays_silent { IsWorked elected_site_stays_silent elected_site_stays_silent_history (nothing_at 3) }
    ensures every_packet_lost { IsWorked every_packet_lost every_packet_lost_history (nothing_at 2) }
    ensures fallen_group { IsWorked fallen_group fallen_group_history (nothing_at 3) }
    ensures full_disk { IsWorked one_write full_disk_history (nothing_at 1) }
    ensures missed_and_failed_rises { IsWorked missed_and_failed_rises missed_and_failed_rises_history (nothing_at 1) }
    ensures failed_rise_lost { IsWorked failed_rise_lost failed_rise_lost_history (nothing_at 1) }
    ensures no_steps { IsWorked no_steps no_steps_history (nothing_at 1) }
    ensures older_waits_younger_dies { IsWorked older_waits_younger_dies older_waits_younger_dies_history older_waits_younger_dies_outcome }
    ensures one_site_is_a_quorum { IsWorked one_site_is_a_quorum one_site_is_a_quorum_history one_site_is_a_quorum_outcome }
    ensures one_write { IsWorked one_write one_write_history one_write_outcome }
    ensures restart_before_the_vote { IsWorked restart_before_the_vote restart_before_the_vote_history restart_before_the_vote_outcome }
    ensures restart_dooms { IsWorked restart_dooms restart_dooms_history restart_dooms_outcome }
    ensures sixty_four_operations { IsWorked sixty_four_operations sixty_four_operations_history sixty_four_operations_outcome }
    ensures split_in_halves { IsWorked split_in_halves split_in_halves_history (nothing_at 4) }
    ensures three_sites { IsWorked three_sites three_sites_history three_sites_outcome }
    ensures three_sites_every_packet_twice { IsWorked three_sites_every_packet_twice three_sites_every_packet_twice_history three_sites_outcome }
    ensures too_late_kept_down { IsWorked too_late_kept_down too_late_kept_down_history (nothing_at 2) }
    ensures two_electors { IsWorked two_electors two_electors_history (nothing_at 3) }
    ensures two_sites_at_once { IsWorked two_sites_at_once two_sites_at_once_history (nothing_at 2) }
    ensures upgrade_waits { IsWorked upgrade_waits upgrade_waits_history upgrade_waits_outcome }
{
    checks_are_exact();
    trails_are_sound();
}

/// A disk stops in the frame of a vote, and the site restarts. It is legal for a stop of any count and leave that the vote is
/// lost, and that it is kept, since a history does not tell what a disk keeps; the scenario keeps the rules where the count
/// is at least 1. Over disks the vote is lost by a stop in the first two calls of the frame, which write it and sync it,
/// whatever it leaves, and by one in the last two, which open the gate and sync it, that leaves nothing, half, or the byte
/// 7; and it is kept by a stop in the last two that leaves all, or the byte 165, which is an open gate.
pub fn a_stopped_vote_is_lost_or_kept(count: u32, leave: Leave)
    ensures lost { IsWhole (vote_stopped count leave) vote_lost_history }
    ensures lost_outcome { outcome_of (vote_stopped count leave) vote_lost_history ≡ nothing_at 2 }
    ensures lost_is_worked { 1 ≤ count → IsWorked (vote_stopped count leave) vote_lost_history (nothing_at 2) }
    ensures kept { IsWhole (vote_stopped count leave) vote_kept_history }
    ensures kept_outcome { outcome_of (vote_stopped count leave) vote_kept_history ≡ nothing_at 2 }
    ensures kept_is_worked { 1 ≤ count → IsWorked (vote_stopped count leave) vote_kept_history (nothing_at 2) }
{
    checks_are_exact();
    trails_are_sound();
}

/// The text of each file in `examples` spells the scenario of its name.
pub fn are_spelled()
    ensures busy_cancel_over { scenario_of busy_cancel_over_text ≡ Ok busy_cancel_over }
    ensures cascade_aborts { scenario_of cascade_aborts_text ≡ Ok cascade_aborts }
    ensures cascade_commits { scenario_of cascade_commits_text ≡ Ok cascade_commits }
    ensures elected_site_stays_silent { scenario_of elected_site_stays_silent_text ≡ Ok elected_site_stays_silent }
    ensures every_packet_lost { scenario_of every_packet_lost_text ≡ Ok every_packet_lost }
    ensures missed_and_failed_rises { scenario_of missed_and_failed_rises_text ≡ Ok missed_and_failed_rises }
    ensures no_steps { scenario_of no_steps_text ≡ Ok no_steps }
    ensures older_waits_younger_dies { scenario_of older_waits_younger_dies_text ≡ Ok older_waits_younger_dies }
    ensures one_site_is_a_quorum { scenario_of one_site_is_a_quorum_text ≡ Ok one_site_is_a_quorum }
    ensures one_write { scenario_of one_write_text ≡ Ok one_write }
    ensures restart_before_the_vote { scenario_of restart_before_the_vote_text ≡ Ok restart_before_the_vote }
    ensures restart_dooms { scenario_of restart_dooms_text ≡ Ok restart_dooms }
    ensures sixty_four_operations { scenario_of sixty_four_operations_text ≡ Ok sixty_four_operations }
    ensures split_in_halves { scenario_of split_in_halves_text ≡ Ok split_in_halves }
    ensures three_sites { scenario_of three_sites_text ≡ Ok three_sites }
    ensures three_sites_every_packet_twice { scenario_of three_sites_every_packet_twice_text ≡ Ok three_sites_every_packet_twice }
    ensures too_late_kept_down { scenario_of too_late_kept_down_text ≡ Ok too_late_kept_down }
    ensures two_sites_at_once { scenario_of two_sites_at_once_text ≡ Ok two_sites_at_once }
    ensures upgrade_waits { scenario_of upgrade_waits_text ≡ Ok upgrade_waits }
{}

/// The report of each is to the byte the text that is written down. Where every packet comes twice it is that of three sites
/// whose packets come once.
pub fn are_reported()
    ensures busy_cancel_over { report_of busy_cancel_over busy_cancel_over_history false ≡ busy_cancel_over_report }
    ensures cascade_aborts { report_of cascade_aborts cascade_aborts_history false ≡ cascade_aborts_report }
    ensures cascade_commits { report_of cascade_commits cascade_commits_history false ≡ cascade_commits_report }
    ensures elected_site_stays_silent { report_of elected_site_stays_silent elected_site_stays_silent_history false ≡ elected_site_stays_silent_report }
    ensures every_packet_lost { report_of every_packet_lost every_packet_lost_history false ≡ every_packet_lost_report }
    ensures missed_and_failed_rises { report_of missed_and_failed_rises missed_and_failed_rises_history false ≡ missed_and_failed_rises_report }
    ensures no_steps { report_of no_steps no_steps_history false ≡ no_steps_report }
    ensures older_waits_younger_dies { report_of older_waits_younger_dies older_waits_younger_dies_history false ≡ older_waits_younger_dies_report }
    ensures one_site_is_a_quorum { report_of one_site_is_a_quorum one_site_is_a_quorum_history false ≡ one_site_is_a_quorum_report }
    ensures one_write { report_of one_write one_write_history false ≡ one_write_report }
    ensures restart_before_the_vote { report_of restart_before_the_vote restart_before_the_vote_history false ≡ restart_before_the_vote_report }
    ensures restart_dooms { report_of restart_dooms restart_dooms_history false ≡ restart_dooms_report }
    ensures sixty_four_operations { report_of sixty_four_operations sixty_four_operations_history false ≡ sixty_four_operations_report }
    ensures split_in_halves { report_of split_in_halves split_in_halves_history false ≡ split_in_halves_report }
    ensures three_sites { report_of three_sites three_sites_history false ≡ three_sites_report }
    ensures three_sites_every_packet_twice { report_of three_sites_every_packet_twice three_sites_every_packet_twice_history false ≡ three_sites_report }
    ensures too_late_kept_down { report_of too_late_kept_down too_late_kept_down_history false ≡ too_late_kept_down_report }
    ensures two_sites_at_once { report_of two_sites_at_once two_sites_at_once_history false ≡ two_sites_at_once_report }
    ensures upgrade_waits { report_of upgrade_waits upgrade_waits_history false ≡ upgrade_waits_report }
{}

/// So it is with the trace behind it.
pub fn are_traced()
    ensures busy_cancel_over { report_of busy_cancel_over busy_cancel_over_history true ≡ busy_cancel_over_report ++ busy_cancel_over_trace }
    ensures every_packet_lost { report_of every_packet_lost every_packet_lost_history true ≡ every_packet_lost_report ++ every_packet_lost_trace }
    ensures missed_and_failed_rises { report_of missed_and_failed_rises missed_and_failed_rises_history true ≡ missed_and_failed_rises_report ++ missed_and_failed_rises_trace }
    ensures no_steps { report_of no_steps no_steps_history true ≡ no_steps_report ++ no_steps_trace }
    ensures one_write { report_of one_write one_write_history true ≡ one_write_report ++ one_write_trace }
    ensures restart_before_the_vote { report_of restart_before_the_vote restart_before_the_vote_history true ≡ restart_before_the_vote_report ++ restart_before_the_vote_trace }
    ensures restart_dooms { report_of restart_dooms restart_dooms_history true ≡ restart_dooms_report ++ restart_dooms_trace }
    ensures split_in_halves { report_of split_in_halves split_in_halves_history true ≡ split_in_halves_report ++ split_in_halves_trace }
    ensures three_sites { report_of three_sites three_sites_history true ≡ three_sites_report ++ three_sites_trace }
    ensures too_late_kept_down { report_of too_late_kept_down too_late_kept_down_history true ≡ too_late_kept_down_report ++ too_late_kept_down_trace }
    ensures upgrade_waits { report_of upgrade_waits upgrade_waits_history true ≡ upgrade_waits_report ++ upgrade_waits_trace }
{}
