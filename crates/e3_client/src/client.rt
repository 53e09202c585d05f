// A transaction's client side: what is issued, answered and refused.
ghost use Rattle.std.specs.Prelude.{◌≡◌, ◌==◌, ◌<◌, ◌≤◌, ◌-◌, slice_set, ◌++◌, ◌∷◌, ◌+◌, [], ℕ, suc, List as Items, IsTrue, IfOk, MatchResult, Some, None, length, true, false};
ghost use Rattle.e3_types.specs.declared.entries.Told.{Told};
ghost use Rattle.e3_types.specs.declared.entries.Told.TheVariants as told;
ghost use Rattle.e3_types.specs.declared.transactions.Answer.{Answer};
ghost use Rattle.e3_types.specs.declared.transactions.Op.{Op};
ghost use Rattle.e3_types.specs.Sets.{has_site};
ghost use Rattle.e3_world.specs.declared.lives.At.{At};
ghost use Rattle.e3_world.specs.declared.lives.Made.{Made};
ghost use Rattle.e3_world.specs.declared.lives.Moment.{Moment};
ghost use Rattle.e3_world.specs.Logs.{key_of};
ghost use Rattle.e3_world.specs.Operations.{expected as expected_at, issued as issued_at, issued_in, reason_in};
ghost use Rattle.e3_world.specs.Steps.{refuse as refuse_at};
ghost use Rattle.e3_client.specs.declared.client.Heard.TheVariants.{Taken};
ghost use Rattle.e3_client.specs.Rule.{IsKept, IsQuiet, StandsAt, and_told, brings};
ghost use Rattle.e3_client.specs.Clients.{unanswered, unanswered_from, expected, expected_with, is_issued_to, is_awaited_from, heard_of, with_answer, refuse, refuse_cancel, refuse_decided, or_kept, GoesUnless};

use crate::refusals::{kept_locks, refuse_attempted, refuse_open};
use e3_types::{Dir, NoMemory, Refusal, State, Txn};
use e3_world::Expected;
use std::alloc::Global;
use std::marker::Model;

/// An operation that was issued: its site, and the incarnation under which that answered it, if it did.
#[derive(Clone, Copy)]
pub struct Issued {
    pub site: u32,
    pub answered: Option<u32>,
}

/// What an answer comes to: it is the one that was awaited; or none that is; or its site answered before under another
/// incarnation, so that the locks of its earlier operations are gone.
#[derive(Clone, Copy)]
pub enum Heard {
    Taken,
    Stale,
    Doomed { site: u32, had: u32, now: u32 },
}

/// A transaction that its coordinator began: the operations that were issued, one at a time and 64 at most, and the reason
/// why it was ended, if there is one to be kept.
#[derive(Drop)]
pub struct Client {
    txn: Txn,
    ops: Vec<Issued>,
    why: Option<Refusal>,
}

impl Model for Client {
    ghost use Rattle.std.specs.Prelude.{◌≤◌, length, vec_len, vec_capacity};
    ghost use Rattle.e3_client.specs.Clients.{Kept};

    ghost Value = { Kept };

    ghost view = { λ a. record { txn = a.txn; ops = a.ops.items; why = a.why } };

    ghost invariant = { λ a. (vec_len a.ops ≤ 64) × (64 ≤ vec_capacity a.ops) };
}

// The number of the first of these that is unanswered, where the first has this number.
fn unanswered_from(first: u32, ops: &[Issued]) -> Option<u32>
    requires { first + length ops.now < 1000 }
    ensures { result ≡ unanswered_from first ops.now }
{
    match ops {
        [] => None,
        [op, rest @ ..] => {
            if op.answered.is_none() {
                Some(first)
            } else {
                unanswered_from(first + 1, rest)
            }
        }
    }
}

// What is expected of the site behind one more operation.
fn expected_with(site: u32, was: Expected, op: &Issued) -> Expected
    requires { was.count < 1000 }
    ensures { result ≡ expected_with site was op.now }
{
    if op.site != site {
        return was;
    }
    match op.answered {
        None => was,
        Some(inc) => Expected {
            inc,
            count: was.count + 1,
        },
    }
}

// A call goes unless there is a refusal.
fn unless_refused(refusal: Option<Refusal>) -> Result<(), Refusal>
    ensures { GoesUnless refusal result }
{
    match refusal {
        Some(why) => Err(why),
        None => Ok(()),
    }
}

impl Client {
    /// A transaction that begins now. Want of memory is the only error; no other call takes any.
    pub fn begin(alloc: Global, txn: Txn) -> Result<Client, NoMemory>
        ensures begun { IfOk result (λ client. client ≡ record { txn = txn; ops = []; why = None }) }
        ensures rule { IfOk result (λ client. (coordinator : ℕ) → IsKept coordinator [] client) }
    {
        match Vec::with_capacity(alloc, 64) {
            Ok(ops) => Ok(Client {
                txn,
                ops,
                why: None,
            }),
            Err(_) => Err(NoMemory),
        }
    }

    /// How many operations were issued.
    pub fn issued(&self) -> u32
        ensures { result ≡ length self.now.ops }
    {
        self.ops.len() as u32
    }

    // The number of the operation that is unanswered, if one is.
    fn unanswered(&self) -> Option<u32>
        ensures { result ≡ unanswered self.now.ops }
    {
        unanswered_from(1, &self.ops)
    }

    // The refusal of an operation or a commit.
    fn refuse(&self, state: State, attempt: u32) -> Option<Refusal>
        ensures { result ≡ refuse state attempt self.now }
    {
        match state {
            State::C => return Some(self.decided(Dir::Commit)),
            State::A => return Some(self.decided(Dir::Abort)),
            _ => {}
        }
        refuse_open(state, attempt, self.unanswered())
    }

    /// The number of the next operation. It is refused where the transaction is decided, an operation is unanswered, or it
    /// is too late: the first of these.
    pub fn next_op(&self, state: State, attempt: u32) -> Result<u32, Refusal>
        requires { length self.now.ops < 64 }
        ensures next { MatchResult result (λ n. (refuse state attempt self.now ≡ None) × (n ≡ length self.now.ops + 1))
            (λ why. refuse state attempt self.now ≡ Some why) }
        ensures rule { (a : At) (made : Made) → StandsAt a made self.now state attempt →
            MatchResult result (λ n. (refuse_at a self.now.txn false made ≡ None) × (n ≡ suc (length (issued_at self.now.txn a.life.steps))))
            (λ why. refuse_at a self.now.txn false made ≡ Some why) }
    {
        match self.refuse(state, attempt) {
            Some(why) => Err(why),
            None => Ok(self.issued() + 1),
        }
    }

    // One more operation.
    fn push(&mut self, op: Issued)
        requires { length self.old.ops < 64 }
        ensures { self.new ≡ record self.old { ops = self.old.ops ++ op ∷ [] } }
    {
        self.ops.push_reserved(op);
    }

    /// The next operation is issued, to this site.
    pub fn issue(&mut self, site: u32)
        requires free { unanswered self.old.ops ≡ None }
        requires few { length self.old.ops < 64 }
        requires within { IsTrue (has_site self.old.txn.sites site) }
        ensures issued { self.new ≡ record self.old { ops = self.old.ops ++ record { site = site; answered = None } ∷ [] } }
        ensures rule { (coordinator : ℕ) (steps : Items Moment) (m : Moment) (op : Op) → IsKept coordinator steps self.old → m.told ≡ [] →
            issued_in self.old.txn m.input [] ≡ op ∷ [] → (key_of op).site ≡ site → IsKept coordinator (steps ++ m ∷ []) self.new }
    {
        self.push(Issued {
            site,
            answered: None,
        });
    }

    /// What is expected of a site: the incarnation under which it answered, and the number of its answers; 0 and 0 where
    /// there are none.
    pub fn expected(&self, site: u32) -> (u32, u32)
        ensures inc { result.0 ≡ (expected site self.now.ops).inc }
        ensures count { result.1 ≡ (expected site self.now.ops).count }
        ensures rule { (coordinator inc : ℕ) (steps : Items Moment) → IsKept coordinator steps self.now → (coordinator == site) ≡ false →
            (result.0 ≡ (expected_at coordinator inc self.now.txn steps site).inc) × (result.1 ≡ (expected_at coordinator inc self.now.txn steps site).count) }
    {
        let mut so_far = Expected { inc: 0, count: 0 };
        for op in &self.ops {
            so_far = expected_with(site, so_far, op);
        }
        (so_far.inc, so_far.count)
    }

    // The operation of this number was issued to the site.
    fn is_issued_to(&self, site: u32, n: u32) -> bool
        ensures { result ≡ is_issued_to site n self.now.ops }
    {
        if n == 0 {
            return false;
        }
        match self.ops.get(n as usize - 1) {
            Some(op) => op.site == site,
            None => false,
        }
    }

    // The answer is one to the unanswered operation, by its site.
    fn is_awaited_from(&self, site: u32, n: u32) -> bool
        ensures { result ≡ is_awaited_from site n self.now.ops }
    {
        match self.unanswered() {
            Some(m) => n == m && self.is_issued_to(site, n),
            None => false,
        }
    }

    // The operation of this number is this one now.
    fn put(&mut self, n: u32, op: Issued)
        requires low { 1 ≤ n }
        requires high { n ≤ length self.old.ops }
        ensures { self.new ≡ record self.old { ops = slice_set self.old.ops (n - 1) op } }
    {
        self.ops[n as usize - 1] = op;
    }

    /// An answer of a site. It is stale exactly where that is not the unanswered operation, or was not issued to this site;
    /// it dooms the transaction exactly where the site answered before under another incarnation. Only an answer that is
    /// taken changes something: the operation is answered, under this incarnation.
    pub fn answer(&mut self, from: u32, n: u32, inc: u32) -> Heard
        ensures heard { result ≡ heard_of from n inc self.old.ops }
        ensures taken { result ≡ Taken → self.new ≡ record self.old { ops = with_answer from n inc self.old.ops } }
        ensures others { (result ≡ Taken → ⊥) → self.new ≡ self.old }
        ensures rule { (coordinator : ℕ) (steps : Items Moment) (m : Moment) (x : Answer) → result ≡ Taken → IsKept coordinator (steps ++ m ∷ []) self.old →
            brings coordinator from inc self.old.txn n m.input ≡ true → IsKept coordinator (steps ++ and_told m (told.Op self.old.txn n x) ∷ []) self.new }
    {
        if !self.is_awaited_from(from, n) {
            return Heard::Stale;
        }
        let (had, count) = self.expected(from);
        if !kept_locks(count, had, inc) {
            return Heard::Doomed {
                site: from,
                had,
                now: inc,
            };
        }
        self.put(
            n,
            Issued {
                site: from,
                answered: Some(inc),
            },
        );
        Heard::Taken
    }

    /// The transaction may commit. It is refused as an operation is.
    pub fn ready(&self, state: State, attempt: u32) -> Result<(), Refusal>
        ensures refused { GoesUnless (refuse state attempt self.now) result }
        ensures rule { (a : At) (made : Made) → StandsAt a made self.now state attempt → GoesUnless (refuse_at a self.now.txn false made) result }
    {
        unless_refused(self.refuse(state, attempt))
    }

    // The refusal of a cancel.
    fn refuse_cancel(&self, state: State, attempt: u32) -> Option<Refusal>
        ensures { result ≡ refuse_cancel state attempt self.now }
    {
        match state {
            State::C => Some(self.decided(Dir::Commit)),
            State::A => Some(self.decided(Dir::Abort)),
            _ => refuse_attempted(attempt),
        }
    }

    /// The transaction may be cancelled. It is refused where it is decided, or was attempted.
    pub fn may_cancel(&self, state: State, attempt: u32) -> Result<(), Refusal>
        ensures refused { GoesUnless (refuse_cancel state attempt self.now) result }
        ensures rule { (a : At) (made : Made) → StandsAt a made self.now state attempt → GoesUnless (refuse_at a self.now.txn true made) result }
    {
        unless_refused(self.refuse_cancel(state, attempt))
    }

    // The refusal of a call on this transaction, which was decided so.
    fn decided(&self, dir: Dir) -> Refusal
        ensures { refuse_decided dir self.now.why ≡ Some result }
    {
        match (dir, &self.why) {
            (Dir::Abort, Some(Refusal::Died { older })) => Refusal::Died { older: *older },
            (Dir::Abort, Some(Refusal::Doomed { site, had, now })) => Refusal::Doomed {
                site: *site,
                had: *had,
                now: *now,
            },
            _ => Refusal::Over { dir },
        }
    }

    // The reason that is kept, with a new one.
    fn keep(&mut self, why: Refusal)
        ensures { self.new ≡ record self.old { why = or_kept self.old.why why } }
    {
        if self.why.is_none() {
            self.why = Some(why);
        }
    }

    /// The transaction was ended for this reason, which is kept; an earlier one stays. Where it is aborted, calls are refused for
    /// a request that died and for its doom; any other reason says no more than that it is over.
    pub fn end(&mut self, why: Refusal)
        ensures ended { self.new ≡ record self.old { why = or_kept self.old.why why } }
        ensures rule { (coordinator : ℕ) (steps : Items Moment) (m : Moment) (e : Told) → IsKept coordinator (steps ++ m ∷ []) self.old →
            reason_in self.old.txn e ≡ why ∷ [] → IsKept coordinator (steps ++ and_told m e ∷ []) self.new }
    {
        self.keep(why);
    }
}

/// The law that a client stays what its coordinator's steps say, behind a step that issues no operation of its transaction and
/// tells none of its answers and no reason.
pub fn quiet_steps_pass(_client: &Client)
    ensures { (coordinator : ℕ) (steps : Items Moment) (m : Moment) → IsKept coordinator steps _client.now → IsQuiet _client.now.txn m → IsKept coordinator (steps ++ m ∷ []) _client.now }
{}
