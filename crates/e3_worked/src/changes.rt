// What a change of a worked history makes of it: which changes are still legal, and which guard refuses the others.
ghost use Rattle.std.specs.Prelude.{◌≡◌, true, false, None};
ghost use Rattle.e3_judge.specs.Checks.{first_breach, is_whole};
ghost use Rattle.e3_judge.specs.declared.breach.Guard.TheVariants as guard;
ghost use Rattle.e3_worked.specs.AllowedChanges as allowed;
ghost use Rattle.e3_worked.specs.BusyCancelOver.{busy_cancel_over};
ghost use Rattle.e3_worked.specs.CascadeCommits.{cascade_commits};
ghost use Rattle.e3_worked.specs.Damage.{breach_at};
ghost use Rattle.e3_worked.specs.DroppedPackets.{dropped_packets};
ghost use Rattle.e3_worked.specs.FallenGroup.{fallen_group};
ghost use Rattle.e3_worked.specs.MissedAndFailedRises.{missed_and_failed_rises};
ghost use Rattle.e3_worked.specs.OlderWaitsYoungerDies.{older_waits_younger_dies};
ghost use Rattle.e3_worked.specs.OneWrite.{one_write};
ghost use Rattle.e3_worked.specs.RestartDooms.{restart_dooms};
ghost use Rattle.e3_worked.specs.SplitInHalves.{split_in_halves};
ghost use Rattle.e3_worked.specs.ThreeSites.{three_sites};
ghost use Rattle.e3_worked.specs.TooLateKeptDown.{too_late_kept_down};
ghost use Rattle.e3_worked.specs.TwoSitesAtOnce.{two_sites_at_once};
ghost use Rattle.e3_worked.specs.UpgradeWaits.{upgrade_waits};
ghost use Rattle.e3_worked.specs.WrongInputs as inputs;
ghost use Rattle.e3_worked.specs.WrongLines as lines;
ghost use Rattle.e3_worked.specs.WrongMakings as makings;
ghost use Rattle.e3_worked.specs.WrongOwners as owners;
ghost use Rattle.e3_worked.specs.WrongRises as rises;

/// Lines, parts and drops that a site enters, and other entries of the driver or of no site.
pub fn owner_is_broken()
    ensures line_by_a_site { first_breach one_write owners.line_by_a_site ≡ breach_at 1 guard.Owner }
    ensures step_by_the_driver { first_breach one_write owners.step_by_the_driver ≡ breach_at 2 guard.Owner }
    ensures step_of_no_site { first_breach one_write owners.step_of_no_site ≡ breach_at 2 guard.Owner }
    ensures rise_of_no_site { first_breach one_write owners.rise_of_no_site ≡ breach_at 1 guard.Owner }
    ensures parts_by_a_site { first_breach split_in_halves owners.parts_by_a_site ≡ breach_at 9 guard.Owner }
    ensures drop_by_a_site { first_breach dropped_packets owners.drop_by_a_site ≡ breach_at 12 guard.Owner }
    ensures fall_of_no_site { first_breach cascade_commits owners.fall_of_no_site ≡ breach_at 21 guard.Owner }
    ensures cut_by_the_driver { first_breach restart_dooms owners.cut_by_the_driver ≡ breach_at 9 guard.Owner }
    ensures miss_by_the_driver { first_breach missed_and_failed_rises owners.miss_by_the_driver ≡ breach_at 5 guard.Owner }
    ensures failed_rise_by_the_driver { first_breach missed_and_failed_rises owners.failed_rise_by_the_driver ≡ breach_at 8 guard.Owner }
{}

/// Steps, falls and cuts of a site that is down, and rises of one that is up.
pub fn up_is_broken()
    ensures rise_of_a_site_that_is_up { first_breach one_write owners.rise_of_a_site_that_is_up ≡ breach_at 1 guard.Up }
    ensures failed_rise_of_a_site_that_is_up { first_breach one_write owners.failed_rise_of_a_site_that_is_up ≡ breach_at 1 guard.Up }
    ensures missed_rise_of_a_site_that_is_up { first_breach one_write owners.missed_rise_of_a_site_that_is_up ≡ breach_at 1 guard.Up }
    ensures step_of_a_site_that_is_down { first_breach too_late_kept_down owners.step_of_a_site_that_is_down ≡ breach_at 17 guard.Up }
    ensures step_behind_a_fall { first_breach cascade_commits owners.step_behind_a_fall ≡ breach_at 22 guard.Up }
    ensures step_behind_a_cut { first_breach restart_dooms owners.step_behind_a_cut ≡ breach_at 10 guard.Up }
    ensures fall_of_a_site_that_is_down { first_breach cascade_commits owners.fall_of_a_site_that_is_down ≡ breach_at 22 guard.Up }
    ensures cut_of_a_site_that_is_down { first_breach restart_dooms owners.cut_of_a_site_that_is_down ≡ breach_at 10 guard.Up }
{}

/// Lines that are not the next one of the scenario.
pub fn line_is_broken_by_its_number()
    ensures line_left_out { first_breach cascade_commits lines.line_left_out ≡ breach_at 15 guard.Line }
    ensures line_twice { first_breach one_write lines.line_twice ≡ breach_at 2 guard.Line }
    ensures lines_swapped { first_breach cascade_commits lines.lines_swapped ≡ breach_at 15 guard.Line }
    ensures line_skipped { first_breach one_write lines.line_skipped ≡ breach_at 3 guard.Line }
    ensures line_zero { first_breach one_write lines.line_zero ≡ breach_at 1 guard.Line }
    ensures line_past_the_last { first_breach one_write lines.line_past_the_last ≡ breach_at 7 guard.Line }
{}

/// Lines that come before all is through.
pub fn line_is_broken_too_early()
    ensures line_before_a_rise { first_breach one_write lines.line_before_a_rise ≡ breach_at 0 guard.Line }
    ensures line_before_an_item { first_breach one_write lines.line_before_an_item ≡ breach_at 2 guard.Line }
    ensures line_with_a_packet_pending { first_breach split_in_halves lines.line_with_a_packet_pending ≡ breach_at 13 guard.Line }
    ensures line_before_the_drop { first_breach dropped_packets lines.line_before_the_drop ≡ breach_at 13 guard.Line }
    ensures line_before_the_parts { first_breach split_in_halves lines.line_before_the_parts ≡ breach_at 9 guard.Line }
    ensures line_before_the_round { first_breach split_in_halves lines.line_before_the_round ≡ breach_at 15 guard.Line }
    ensures line_before_the_cut { first_breach restart_dooms lines.line_before_the_cut ≡ breach_at 9 guard.Line }
    ensures line_before_the_restart { first_breach restart_dooms lines.line_before_the_restart ≡ breach_at 11 guard.Line }
{}

/// Parts that no split or merge asks for.
pub fn parts_are_broken()
    ensures parts_without_a_split { first_breach one_write lines.parts_without_a_split ≡ breach_at 2 guard.Parts }
    ensures parts_before_the_first_line { first_breach split_in_halves lines.parts_before_the_first_line ≡ breach_at 4 guard.Parts }
    ensures parts_of_another_split { first_breach split_in_halves lines.parts_of_another_split ≡ breach_at 9 guard.Parts }
    ensures parts_in_another_order { first_breach split_in_halves lines.parts_in_another_order ≡ breach_at 9 guard.Parts }
    ensures parts_twice { first_breach split_in_halves lines.parts_twice ≡ breach_at 10 guard.Parts }
    ensures parts_before_their_line { first_breach split_in_halves lines.parts_before_their_line ≡ breach_at 8 guard.Parts }
    ensures merge_into_halves { first_breach split_in_halves lines.merge_into_halves ≡ breach_at 22 guard.Parts }
{}

/// Drops of packets that are not pending, and of one whose receiver is up.
pub fn drop_is_broken()
    ensures drop_at_a_site_that_is_up { first_breach split_in_halves lines.drop_at_a_site_that_is_up ≡ breach_at 12 guard.Drop }
    ensures drop_of_a_split_packet { first_breach split_in_halves lines.drop_of_a_split_packet ≡ breach_at 12 guard.Drop }
    ensures drop_of_a_lost_packet { first_breach busy_cancel_over lines.drop_of_a_lost_packet ≡ breach_at 6 guard.Drop }
    ensures drop_twice { first_breach dropped_packets lines.drop_twice ≡ breach_at 13 guard.Drop }
    ensures drop_of_another_number { first_breach dropped_packets lines.drop_of_another_number ≡ breach_at 12 guard.Drop }
    ensures drop_before_it_is_sent { first_breach dropped_packets lines.drop_before_it_is_sent ≡ breach_at 10 guard.Drop }
    ensures drop_of_a_delivered_packet { first_breach cascade_commits lines.drop_of_a_delivered_packet ≡ breach_at 22 guard.Drop }
    ensures drop_out_of_order { first_breach fallen_group lines.drop_out_of_order ≡ breach_at 18 guard.Drop }
{}

/// Items that are not the next of their site.
pub fn input_is_broken_by_an_item()
    ensures item_without_its_line { first_breach one_write inputs.item_without_its_line ≡ breach_at 3 guard.Input }
    ensures item_twice { first_breach one_write inputs.item_twice ≡ breach_at 3 guard.Input }
    ensures item_of_another_site { first_breach older_waits_younger_dies inputs.item_of_another_site ≡ breach_at 3 guard.Input }
    ensures item_of_another_kind { first_breach one_write inputs.item_of_another_kind ≡ breach_at 4 guard.Input }
    ensures item_with_another_value { first_breach one_write inputs.item_with_another_value ≡ breach_at 4 guard.Input }
    ensures item_of_another_transaction { first_breach older_waits_younger_dies inputs.item_of_another_transaction ≡ breach_at 7 guard.Input }
    ensures begin_for_other_sites { first_breach older_waits_younger_dies inputs.begin_for_other_sites ≡ breach_at 3 guard.Input }
    ensures item_behind_a_delivery { first_breach two_sites_at_once inputs.item_behind_a_delivery ≡ breach_at 9 guard.Input }
{}

/// Elections of a recover step that are not due.
pub fn input_is_broken_by_an_election()
    ensures elect_of_another_group { first_breach split_in_halves inputs.elect_of_another_group ≡ breach_at 24 guard.Input }
    ensures elect_by_another_site { first_breach split_in_halves inputs.elect_by_another_site ≡ breach_at 15 guard.Input }
    ensures elect_twice { first_breach split_in_halves inputs.elect_twice ≡ breach_at 16 guard.Input }
    ensures elect_before_its_line { first_breach split_in_halves inputs.elect_before_its_line ≡ breach_at 14 guard.Input }
    ensures elect_of_the_second_transaction { first_breach fallen_group inputs.elect_of_the_second_transaction ≡ breach_at 10 guard.Input }
    ensures elect_with_a_packet_pending { first_breach fallen_group inputs.elect_with_a_packet_pending ≡ breach_at 16 guard.Input }
{}

/// Packets that are not pending, or not at this site, and packets out of their turn.
pub fn input_is_broken_by_a_packet()
    ensures delivery_twice { first_breach split_in_halves inputs.delivery_twice ≡ breach_at 13 guard.Input }
    ensures delivery_to_another_site { first_breach split_in_halves inputs.delivery_to_another_site ≡ breach_at 12 guard.Input }
    ensures delivery_of_a_split_packet { first_breach split_in_halves inputs.delivery_of_a_split_packet ≡ breach_at 13 guard.Input }
    ensures delivery_of_a_lost_packet { first_breach busy_cancel_over inputs.delivery_of_a_lost_packet ≡ breach_at 6 guard.Input }
    ensures delivery_before_it_is_sent { first_breach three_sites inputs.delivery_before_it_is_sent ≡ breach_at 8 guard.Input }
    ensures delivery_of_another_number { first_breach split_in_halves inputs.delivery_of_another_number ≡ breach_at 12 guard.Input }
    ensures delivery_of_another_election { first_breach split_in_halves inputs.delivery_of_another_election ≡ breach_at 18 guard.Input }
    ensures delivery_of_another_decision { first_breach three_sites inputs.delivery_of_another_decision ≡ breach_at 23 guard.Input }
    ensures delivery_before_all_items { first_breach two_sites_at_once inputs.delivery_before_all_items ≡ breach_at 7 guard.Input }
    ensures delivery_out_of_order { first_breach split_in_halves inputs.delivery_out_of_order ≡ breach_at 25 guard.Input }
{}

/// Falls over inputs that are not due, and a delivery that is too early for a drop.
pub fn input_is_broken_by_a_fall()
    ensures fall_over_a_delivered_packet { first_breach cascade_commits inputs.fall_over_a_delivered_packet ≡ breach_at 21 guard.Input }
    ensures fall_over_a_packet_twice { first_breach cascade_commits inputs.fall_over_a_packet_twice ≡ breach_at 21 guard.Input }
    ensures fall_over_another_input { first_breach cascade_commits inputs.fall_over_another_input ≡ breach_at 21 guard.Input }
    ensures delivery_before_the_drop { first_breach dropped_packets inputs.delivery_before_the_drop ≡ breach_at 30 guard.Input }
    ensures falls_out_of_order { first_breach fallen_group inputs.falls_out_of_order ≡ breach_at 15 guard.Input }
{}

/// Cuts outside their crash, and rises outside their turn.
pub fn step_is_broken()
    ensures cut_outside_its_crash { first_breach restart_dooms rises.cut_outside_its_crash ≡ breach_at 4 guard.Step }
    ensures cut_of_another_site { first_breach restart_dooms rises.cut_of_another_site ≡ breach_at 9 guard.Step }
    ensures rise_before_its_turn { first_breach restart_dooms rises.rise_before_its_turn ≡ breach_at 0 guard.Step }
    ensures rise_before_its_line { first_breach restart_dooms rises.rise_before_its_line ≡ breach_at 10 guard.Step }
    ensures rise_of_another_site { first_breach cascade_commits rises.rise_of_another_site ≡ breach_at 31 guard.Step }
    ensures missed_rise_twice { first_breach missed_and_failed_rises rises.missed_rise_twice ≡ breach_at 6 guard.Step }
    ensures missed_rise_before_its_line { first_breach missed_and_failed_rises rises.missed_rise_before_its_line ≡ breach_at 4 guard.Step }
    ensures failed_rise_before_its_line { first_breach missed_and_failed_rises rises.failed_rise_before_its_line ≡ breach_at 7 guard.Step }
    ensures rise_behind_a_missed_rise { first_breach missed_and_failed_rises rises.rise_behind_a_missed_rise ≡ breach_at 6 guard.Step }
{}

/// Tails that are kept, where none is open.
pub fn tail_is_broken()
    ensures kept_at_the_first_rise { first_breach one_write rises.kept_at_the_first_rise ≡ breach_at 0 guard.Tail }
    ensures kept_behind_a_cut { first_breach restart_dooms rises.kept_behind_a_cut ≡ breach_at 11 guard.Tail }
    ensures kept_at_a_failed_rise { first_breach missed_and_failed_rises rises.kept_at_a_failed_rise ≡ breach_at 8 guard.Tail }
    ensures kept_behind_a_full_disk { first_breach cascade_commits rises.kept_behind_a_full_disk ≡ breach_at 31 guard.Tail }
    ensures kept_behind_a_missed_rise { first_breach missed_and_failed_rises rises.kept_behind_a_missed_rise ≡ breach_at 10 guard.Tail }
{}

/// Incarnations that are not the next one of the log.
pub fn inc_is_broken()
    ensures inc_skipped { first_breach one_write rises.inc_skipped ≡ breach_at 0 guard.Inc }
    ensures inc_again { first_breach restart_dooms rises.inc_again ≡ breach_at 11 guard.Inc }
    ensures inc_of_a_failed_rise_skipped { first_breach missed_and_failed_rises rises.inc_of_a_failed_rise_skipped ≡ breach_at 8 guard.Inc }
    ensures inc_of_a_kept_tail_again { first_breach missed_and_failed_rises rises.inc_of_a_kept_tail_again ≡ breach_at 10 guard.Inc }
    ensures kept_left_off_a_tail_with_an_inc { first_breach missed_and_failed_rises rises.kept_left_off_a_tail_with_an_inc ≡ breach_at 10 guard.Inc }
{}

/// Records that the input does not make.
pub fn records_are_broken()
    ensures record_left_out { first_breach one_write makings.record_left_out ≡ breach_at 6 guard.Records }
    ensures records_in_another_order { first_breach one_write makings.records_in_another_order ≡ breach_at 6 guard.Records }
    ensures vote_with_an_operation_less { first_breach three_sites makings.vote_with_an_operation_less ≡ breach_at 18 guard.Records }
    ensures join_of_another_number { first_breach split_in_halves makings.join_of_another_number ≡ breach_at 17 guard.Records }
    ensures attempt_turned { first_breach split_in_halves makings.attempt_turned ≡ breach_at 36 guard.Records }
    ensures decision_turned { first_breach three_sites makings.decision_turned ≡ breach_at 23 guard.Records }
    ensures attempt_before_the_votes { first_breach cascade_commits makings.attempt_before_the_votes ≡ breach_at 20 guard.Records }
{}

/// Falls without records, with others, or behind a change that makes others due.
pub fn records_of_a_fall_are_broken()
    ensures fall_without_records { first_breach cascade_commits makings.fall_without_records ≡ breach_at 21 guard.Records }
    ensures fall_with_records_of_another_input { first_breach cascade_commits makings.fall_with_records_of_another_input ≡ breach_at 21 guard.Records }
    ensures fall_without_the_vote_before { first_breach cascade_commits makings.fall_without_the_vote_before ≡ breach_at 20 guard.Records }
    ensures kept_left_off { first_breach cascade_commits makings.kept_left_off ≡ breach_at 41 guard.Records }
{}

/// Packets that the input does not make.
pub fn outs_are_broken()
    ensures packet_left_out { first_breach split_in_halves makings.packet_left_out ≡ breach_at 11 guard.Outs }
    ensures packet_more { first_breach split_in_halves makings.packet_more ≡ breach_at 12 guard.Outs }
    ensures packet_where_none_is_due { first_breach one_write makings.packet_where_none_is_due ≡ breach_at 2 guard.Outs }
    ensures packet_of_another_number { first_breach split_in_halves makings.packet_of_another_number ≡ breach_at 12 guard.Outs }
    ensures packet_to_another_site { first_breach split_in_halves makings.packet_to_another_site ≡ breach_at 12 guard.Outs }
    ensures packet_from_another_site { first_breach split_in_halves makings.packet_from_another_site ≡ breach_at 12 guard.Outs }
    ensures vote_turned { first_breach split_in_halves makings.vote_turned ≡ breach_at 12 guard.Outs }
    ensures elected_number_changed { first_breach split_in_halves makings.elected_number_changed ≡ breach_at 16 guard.Outs }
    ensures read_sent_with_another_value { first_breach restart_dooms makings.read_sent_with_another_value ≡ breach_at 6 guard.Outs }
    ensures kept_put_on { first_breach cascade_commits makings.kept_put_on ≡ breach_at 40 guard.Outs }
{}

/// Events that the input does not make.
pub fn told_is_broken()
    ensures told_of_another_transaction { first_breach older_waits_younger_dies makings.told_of_another_transaction ≡ breach_at 5 guard.Told }
    ensures read_told_with_another_value { first_breach three_sites makings.read_told_with_another_value ≡ breach_at 6 guard.Told }
    ensures refusal_for_an_answer { first_breach one_write makings.refusal_for_an_answer ≡ breach_at 4 guard.Told }
    ensures another_refusal { first_breach restart_dooms makings.another_refusal ≡ breach_at 18 guard.Told }
    ensures told_left_out { first_breach one_write makings.told_left_out ≡ breach_at 6 guard.Told }
    ensures told_early { first_breach three_sites makings.told_early ≡ breach_at 20 guard.Told }
    ensures told_turned { first_breach one_write makings.told_turned ≡ breach_at 6 guard.Told }
    ensures told_by_another_site { first_breach split_in_halves makings.told_by_another_site ≡ breach_at 45 guard.Told }
    ensures verdict_changed { first_breach split_in_halves makings.verdict_changed ≡ breach_at 36 guard.Told }
    ensures events_in_another_order { first_breach upgrade_waits makings.events_in_another_order ≡ breach_at 12 guard.Told }
{}

/// Histories whose last entry is left out: they are legal, and not whole.
pub fn front_is_legal()
    ensures last_step_left_out { first_breach one_write allowed.last_step_left_out ≡ None }
    ensures last_step_is_missing { is_whole one_write allowed.last_step_left_out ≡ false }
    ensures last_line_left_out { first_breach missed_and_failed_rises allowed.last_line_left_out ≡ None }
    ensures last_line_is_missing { is_whole missed_and_failed_rises allowed.last_line_left_out ≡ false }
    ensures last_delivery_left_out { first_breach split_in_halves allowed.last_delivery_left_out ≡ None }
    ensures last_delivery_is_missing { is_whole split_in_halves allowed.last_delivery_left_out ≡ false }
    ensures last_drop_left_out { first_breach fallen_group allowed.last_drop_left_out ≡ None }
    ensures last_drop_is_missing { is_whole fallen_group allowed.last_drop_left_out ≡ false }
{}

/// Changes that the definitions leave open: the order in which sites take items and packets outside a recover step,
/// and the cause of a fall.
pub fn other_order_is_whole()
    ensures items_swapped { is_whole two_sites_at_once allowed.items_swapped ≡ true }
    ensures deliveries_swapped { is_whole two_sites_at_once allowed.deliveries_swapped ≡ true }
    ensures drop_behind_a_delivery { is_whole dropped_packets allowed.drop_behind_a_delivery ≡ true }
    ensures fall_for_another_cause { is_whole dropped_packets allowed.fall_for_another_cause ≡ true }
{}
