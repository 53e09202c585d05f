// What laws say of worked histories: recovery rounds, commits and waits.
ghost use Rattle.std.specs.Prelude.{◌≡◌, ◌++◌, ◌∷◌, None};
ghost use Rattle.e3_laws.specs.rounds.Commits.{CommitRoundsEnd, CommitStands};
ghost use Rattle.e3_laws.specs.rounds.Rounds.{AllStayUp, RoundStands, elect_entry};
ghost use Rattle.e3_laws.specs.serial.Waiters.{WaitsFor};
ghost use Rattle.e3_world.specs.Given.{IsGiven};
ghost use Rattle.e3_world.specs.Legal.{IsLegal};
ghost use Rattle.e3_world.specs.Moves.{open_tail};
ghost use Rattle.e3_worked.specs.CommitRound.{commit_round, commit_round_history};
ghost use Rattle.e3_worked.specs.CommitRound as round;
ghost use Rattle.e3_worked.specs.EveryPacketLost.{every_packet_lost, every_packet_lost_history, recovery_round};
ghost use Rattle.e3_worked.specs.FullDisk.{full_disk_history};
ghost use Rattle.e3_worked.specs.OlderWaitsYoungerDies.{older_waits_younger_dies, until_it_waits};
ghost use Rattle.e3_worked.specs.OlderWaitsYoungerDies as older;
ghost use Rattle.e3_worked.specs.OneWrite.{one_write};
ghost use Rattle.e3_worked.specs.WrongNo.{history_with_a_wrong_no};

use e3_judge::checks_are_exact;
use e3_laws::steps::prefix_is_legal;

/// A commit over two sites in which nothing fails is a step that the law of the commit round speaks of, with as many entries
/// as that law allows.
pub fn a_commit_stands()
    ensures { CommitStands commit_round commit_round_history round.t1_1_1 }
{}

/// A site that is fit to vote yes votes no. The law of the commit round speaks of this step, and does not hold of it: so a
/// body by which sites always vote no meets no clause that carries that law.
pub fn breaks_the_commit_round()
    ensures stands { CommitStands commit_round history_with_a_wrong_no round.t1_1_1 }
    ensures refused { ¬ CommitRoundsEnd commit_round history_with_a_wrong_no }
{}

/// The round of a recovery for which every packet was lost before is one that the law of bounded recovery speaks of: no member
/// falls in it.
pub fn a_round_stands()
    ensures { (s : RoundStands every_packet_lost every_packet_lost_history recovery_round)
        × AllStayUp every_packet_lost (s.start ++ elect_entry every_packet_lost s.start recovery_round ∷ s.more) recovery_round }
{}

/// The law that waits never form a cycle is not empty: the history, cut behind its thirteenth entry, is legal, and the older
/// of two transactions waits for the younger there.
pub fn an_older_one_waits()
    ensures given { IsGiven older_waits_younger_dies }
    ensures legal { IsLegal older_waits_younger_dies until_it_waits }
    ensures waits { WaitsFor older_waits_younger_dies until_it_waits older.t1_1_1 older.t2_1_1 }
{
    checks_are_exact();
    prefix_is_legal();
}

/// A site falls whose disk has not room for the frame of its commit: no tail is open.
pub fn no_tail_is_open()
    ensures { open_tail one_write full_disk_history 1 ≡ None }
{}
