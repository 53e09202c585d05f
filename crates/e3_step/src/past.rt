// What the rules of a step read of a site's past.
ghost use Rattle.std.specs.Prelude.{◌≡◌, ◌<◌, IfOk, count_by, length};
ghost use Rattle.std.specs.List.{list_any};
ghost use Rattle.e3_types.specs.Same.{same_txn};
ghost use Rattle.e3_world.specs.declared.lives.At.{At};
ghost use Rattle.e3_world.specs.Elections.{election_in_progress, next_call};
ghost use Rattle.e3_world.specs.Logs.{attempted, decision, has_voted, last_attempt, last_elected};
ghost use Rattle.e3_world.specs.Making.{grants_after, log_now};
ghost use Rattle.e3_world.specs.Operations.{answers, done, expected, issued, kept_reason, unanswered};
ghost use Rattle.e3_world.specs.Rounds.{round_in_progress};
ghost use Rattle.e3_world.specs.Steps.{is_begin};
ghost use Rattle.e3_step.specs.Asking.{is_waiting, lock_now, waits_now};
ghost use Rattle.e3_readings.specs.Gathering.{has_every_yes};
ghost use Rattle.e3_readings.specs.Awaiting.{first_of, is_awaited};
ghost use Rattle.e3_step.specs.Reading.{own_value, row_now};
ghost use Rattle.e3_step.specs.SoFar.{IsSoFar};

use e3_commit::Acks;
use e3_elect::Election;
use e3_types::{Answer, Call, Dir, Grant, Input, List, Name, NoMemory, Refusal, Txn};
use e3_world::{Asked, Expected, Made, Performed};
use std::alloc::Global;

/// What the rules of a step read of a site's past, each reading as the definitions have it at one place, which `at`
/// names: the site with its life before the step, and the input. Where a reading takes the step so far, its records and
/// answers count too; those of names ask that it be the step that is made at this place, as far as it is made. What the step
/// counts on has one more of 32 bits: the incarnation made fewer steps than that. Want of memory is the only error.
pub trait Past {
    /// The place where the step is made.
    ghost at: { Self → At };

    /// The allocator of what is read and of the step's own lists.
    fn alloc(&self) -> Global;

    /// The weights of all sites, that of site 1 first.
    fn weights(&self) -> &[u32]
        ensures { result.now ≡ (at self.now).weights };

    /// The number of the site.
    fn site(&self) -> u32
        ensures { result ≡ (at self.now).site };

    /// The number of the incarnation.
    fn inc(&self) -> u32
        ensures { result ≡ (at self.now).life.inc };

    /// The input of the step, a delivered packet without its number.
    fn input(&self) -> &Input
        ensures { result.now ≡ (at self.now).input };

    /// Last_Elected of the transaction by the log before the step.
    fn elected(&self, t: &Txn) -> u32
        ensures { result ≡ last_elected t.now (at self.now).life.log };

    /// Last_Attempt of the transaction by the log before the step.
    fn attempt(&self, t: &Txn) -> u32
        ensures { result ≡ last_attempt t.now (at self.now).life.log };

    /// The decision of the transaction in the log before the step, if there is one.
    fn decision(&self, t: &Txn) -> Option<Dir>
        ensures { result ≡ decision t.now (at self.now).life.log };

    /// The direction of the transaction's last attempt in the log before the step, if there is one.
    fn attempted(&self, t: &Txn) -> Option<Dir>
        ensures { result ≡ attempted t.now (at self.now).life.log };

    /// The log before the step has a vote of the transaction.
    fn voted(&self, t: &Txn) -> bool
        ensures { result ≡ has_voted t.now (at self.now).life.log };

    /// How many operations of the transaction the steps before this one issued.
    fn issued_count(&self, t: &Txn) -> Result<u64, NoMemory>
        ensures count { IfOk result (λ n. n ≡ length (issued t.now (at self.now).life.steps)) }
        ensures few { IfOk result (λ n. n < 4294967295) };

    /// The operation of the transaction that is unanswered behind the steps before this one, if it is undecided now.
    fn unanswered(&self, t: &Txn, made: &Made) -> Result<Option<u32>, NoMemory>
        ensures { IfOk result (λ n. n ≡ unanswered t.now (log_now (at self.now) made.now) (at self.now).life.steps) };

    /// Operation n of the transaction is its unanswered one, with the step so far, and its key is at site f.
    fn is_awaited(&self, f: u32, t: &Txn, n: u32, made: &Made) -> Result<bool, NoMemory>
        ensures { IfOk result (λ b. b ≡ is_awaited (at self.now) f t.now n made.now) };

    /// What is expected of a site for the transaction.
    fn expected(&self, t: &Txn, of: u32) -> Result<Expected, NoMemory>
        ensures { IfOk result (λ e. e ≡ expected (at self.now).site (at self.now).life.inc t.now (at self.now).life.steps of) };

    /// The reason that is kept for the end of the transaction, if there is one.
    fn kept_reason(&self, t: &Txn) -> Result<Option<Refusal>, NoMemory>
        ensures { IfOk result (λ why. why ≡ first_of (kept_reason t.now (at self.now).life.steps)) };

    /// The operations of the transaction that the site answered before the step, in the order of arrival.
    fn done(&self, t: &Txn) -> Result<List<Performed>, NoMemory>
        ensures { IfOk result (λ out. out ≡ done (at self.now).site t.now (at self.now).life.steps) };

    /// The value of the name for the transaction: what its last write of the name here gave it, with the step so far, or else
    /// what the table has, with the step's records.
    fn value(&self, t: &Txn, name: &Name, made: &Made) -> Result<Answer, NoMemory>
        requires { IsSoFar (at self.now) made.now }
        ensures { IfOk result (λ x. x ≡ own_value (at self.now) t.now name.now (row_now (at self.now) name.now made.now) made.now) };

    /// The first answer to this operation before the step, if it was answered.
    fn answer(&self, q: &Asked) -> Result<Option<Answer>, NoMemory>
        ensures { IfOk result (λ x. x ≡ first_of (answers q.now (at self.now).life.steps)) };

    /// The operation waited before the step, and its transaction is undecided now.
    fn is_waiting(&self, q: &Asked, made: &Made) -> Result<bool, NoMemory>
        ensures { IfOk result (λ b. b ≡ is_waiting (at self.now) q.now made.now) };

    /// An operation of the transaction waited before the step, and the transaction is undecided now.
    fn waits(&self, t: &Txn, made: &Made) -> Result<bool, NoMemory>
        ensures { IfOk result (λ b. b ≡ list_any (λ q. same_txn t.now q.txn) (waits_now (at self.now) made.now)) };

    /// What the lock rule answers to this request, with the step's records.
    fn lock(&self, q: &Asked, made: &Made) -> Result<Grant, NoMemory>
        requires { IsSoFar (at self.now) made.now }
        ensures { IfOk result (λ g. g ≡ lock_now (at self.now) q.now made.now) };

    /// The requests that are granted now, name by name, where a decision has freed locks.
    fn grants_after(&self, made: &Made) -> Result<List<Asked>, NoMemory>
        requires { IsSoFar (at self.now) made.now }
        ensures { IfOk result (λ out. out ≡ grants_after (at self.now) made.now) };

    /// The votes of the transaction are being gathered, and with the step so far the yes of every other site came.
    fn has_every_yes(&self, t: &Txn, made: &Made) -> Result<bool, NoMemory>
        ensures { IfOk result (λ b. b ≡ has_every_yes (at self.now) t.now made.now) };

    /// The election of the transaction that is in progress before the step, if there is one.
    fn election(&self, t: &Txn) -> Result<Option<Election>, NoMemory>
        ensures { IfOk result (λ e. e ≡ election_in_progress (at self.now).site (at self.now).life.inc t.now (at self.now).life.steps) };

    /// Who acknowledged the attempt of the transaction that is in progress before the step, if there is one.
    fn round(&self, t: &Txn) -> Option<Acks>
        ensures { result ≡ round_in_progress (at self.now).site t.now (at self.now).life.steps };

    /// How many transactions the incarnation began before the step.
    fn begins(&self) -> u32
        ensures count { result ≡ count_by is_begin (at self.now).life.steps }
        ensures few { result < 4294967295 };

    /// The call of an election that the step begins.
    fn next_call(&self) -> Call
        ensures { result ≡ next_call (at self.now).life.inc (at self.now).life.steps };
}
