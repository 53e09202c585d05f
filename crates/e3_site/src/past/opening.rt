// The transactions that are open at a site.
ghost use Rattle.std.specs.Prelude.{◌≡◌, ◌+◌, ◌≤◌, ◌++◌, ◌∷◌, [], ℕ, IfOk, MatchOption, OnOk, List as Items, length, vec_capacity};
ghost use Rattle.std.specs.List.{flat_map, list_any};
ghost use Rattle.e3_types.specs.declared.records.Record.{Record as SomeRecord};
ghost use Rattle.e3_types.specs.declared.transactions.Txn.{Txn as SomeTxn};
ghost use Rattle.e3_world.specs.declared.lives.At.{At};
ghost use Rattle.e3_world.specs.declared.lives.Life.{Life};
ghost use Rattle.e3_world.specs.Items.{began_in, txn_of_record};
ghost use Rattle.e3_world.specs.Lives.{life_by};
ghost use Rattle.e3_world.specs.Logs.{is_undecided};
ghost use Rattle.e3_cards.specs.Noting.{unstepped};
ghost use Rattle.e3_cards.specs.Tables.{AreCountable, CardsStand};
ghost use Rattle.e3_readings.specs.Opens.{open_in};
ghost use Rattle.e3_places.specs.Standing.{fresh_of};
ghost use Rattle.e3_world.specs.Making.{decides};
ghost use Rattle.e3_site.specs.past.Opening.{AreAdded, HaveRoom, OpensStand, fresh_txns, undecided_among};
ghost use Rattle.e3_site.specs.past.Standing.{TablesStand};

use crate::past::arriving::fresh;
use crate::past::tables::{Opens, Tables};
use e3_cards::Cards;
use e3_places::Standing;
use e3_readings::{in_order, is_decision, is_undecided, txn_of_record};
use e3_step::decides;
use e3_types::{List, NoMemory, Record, Told, Txn};
use e3_world::SiteStep;
use std::alloc::Global;

/// Nothing is open at a site with an empty log that made no step.
pub(crate) fn no_opens(alloc: Global) -> Opens
    ensures { (site inc : ℕ) → OpensStand site result (unstepped inc []) }
{
    Opens {
        logged: Vec::new(alloc),
        arrived: Vec::new(alloc),
        begun: Vec::new(alloc),
    }
}

fn push(t: &Txn, out: &mut Vec<Txn>) -> Result<(), NoMemory>
    ensures { OnOk result (out.new.items ≡ out.old.items ++ t.now ∷ []) }
{
    match out.push(*t) {
        Ok(()) => Ok(()),
        Err(_) => Err(NoMemory),
    }
}

// Adds the transaction, where the log leaves it undecided.
fn add_one(cards: &Cards, t: &Txn, out: &mut Vec<Txn>) -> Result<(), NoMemory>
    ensures { IfOk result (λ u. (a : At) → CardsStand a.site cards.now a.life → out.new.items ≡ out.old.items ++ undecided_among a.life.log (t.now ∷ [])) }
{
    if cards.seen(t).decision.is_none() {
        push(t, out)?;
    }
    Ok(())
}

// What makes a transaction known to a site: a record of it, an operation of it that came, or what tells its begin.
trait MakesKnown {
    ghost known: { Self → Items SomeTxn };

    fn txn(&self) -> Option<&Txn>
        ensures { MatchOption result (known self.now ≡ []) (λ t. known self.now ≡ t.now ∷ []) };
}

impl MakesKnown for Record {
    ghost known = { txn_of_record };

    fn txn(&self) -> Option<&Txn> {
        txn_of_record(self)
    }
}

impl MakesKnown for Told {
    ghost known = { began_in };

    fn txn(&self) -> Option<&Txn> {
        match self {
            Told::Began { txn } => Some(txn),
            _ => None,
        }
    }
}

impl MakesKnown for Option<Standing> {
    ghost known = { fresh_txns };

    fn txn(&self) -> Option<&Txn> {
        match self {
            Some(s) => Some(&s.asked.txn),
            None => None,
        }
    }
}

// Adds the transaction that it makes known, where the log leaves it undecided.
fn add_known<T: MakesKnown>(cards: &Cards, source: &T, out: &mut Vec<Txn>) -> Result<(), NoMemory>
    ensures { IfOk result (λ u. (a : At) → CardsStand a.site cards.now a.life → out.new.items ≡ out.old.items ++ undecided_among a.life.log (T.known source.now)) }
{
    match source.txn() {
        Some(t) => add_one(cards, t, out),
        None => Ok(()),
    }
}

// Adds the transactions that these make known and the log leaves undecided.
fn add_all_known<T: MakesKnown>(
    cards: &Cards,
    sources: &[T],
    out: &mut Vec<Txn>,
) -> Result<(), NoMemory>
    ensures { IfOk result (λ u. (a : At) → CardsStand a.site cards.now a.life → out.new.items ≡ out.old.items ++ undecided_among a.life.log (flat_map T.known sources.now)) }
{
    match sources {
        [] => Ok(()),
        [first, rest @ ..] => {
            add_known(cards, first, out)?;
            add_all_known(cards, rest, out)
        }
    }
}

// Adds the transaction of the operation that the step takes up, where it came for the first time and the log leaves it
// undecided.
fn add_arrived(
    alloc: Global,
    cards: &Cards,
    step: &SiteStep,
    out: &mut Vec<Txn>,
) -> Result<(), NoMemory>
    requires { AreCountable cards.now }
    ensures { IfOk result (λ u. (a : At) → CardsStand a.site cards.now a.life → out.new.items ≡ out.old.items ++ undecided_among a.life.log (fresh_txns (fresh_of a.site a.life step.now))) }
{
    let new = fresh(alloc, cards, &step.input, step.told.as_slice());
    add_known(cards, &new, out)
}

// A record among these decides a transaction.
fn have_decided(records: &[Record]) -> bool
    ensures { result ≡ list_any decides records.now }
{
    records.iter().any(|r| decides(r))
}

// Takes those out that the records decide.
fn sift_all(records: &[Record], txns: &mut Vec<Txn>)
    ensures { txns.new.items ≡ undecided_among records.now txns.old.items }
{
    txns.retain(|t| is_undecided(t, records));
}

// The same. Where no record decides a transaction it looks at none of them, so that most steps cost nothing for what is open.
fn sift(records: &[Record], txns: &mut Vec<Txn>)
    ensures { txns.new.items ≡ undecided_among records.now txns.old.items }
{
    if !have_decided(records) {
        return;
    }
    sift_all(records, txns);
}

fn is_left(t: &Txn, r: &Record) -> bool
    ensures { result ≡ is_undecided t.now (r.now ∷ []) }
{
    !is_decision(t, r)
}

// Takes those out that the record decides.
fn sift_all_by(r: &Record, txns: &mut Vec<Txn>)
    ensures { txns.new.items ≡ undecided_among (r.now ∷ []) txns.old.items }
{
    txns.retain(|t| is_left(t, r));
}

// The same, at no cost where the record is no decision.
fn sift_by(r: &Record, txns: &mut Vec<Txn>)
    ensures { txns.new.items ≡ undecided_among (r.now ∷ []) txns.old.items }
{
    if !decides(r) {
        return;
    }
    sift_all_by(r, txns);
}

// Adds the transactions that a step adds: what may be refused borrows them.
fn add_opens(
    alloc: Global,
    cards: &Cards,
    step: &SiteStep,
    more: &mut Opens,
) -> Result<(), NoMemory>
    requires countable { AreCountable cards.now }
    requires none { (site inc : ℕ) → OpensStand site more.old (unstepped inc []) }
    ensures { IfOk result (λ u. (a : At) → CardsStand a.site cards.now a.life → AreAdded a.site a.life step.now more.new) }
{
    add_all_known(cards, step.records.as_slice(), &mut more.logged)?;
    add_arrived(alloc, cards, step, &mut more.arrived)?;
    add_all_known(cards, step.told.as_slice(), &mut more.begun)?;
    Ok(())
}

/// The transactions that a step adds to those that are open, by the cards before it. Want of memory is the only error.
pub(crate) fn added(alloc: Global, cards: &Cards, step: &SiteStep) -> Result<Opens, NoMemory>
    requires { AreCountable cards.now }
    ensures { IfOk result (λ more. (a : At) → CardsStand a.site cards.now a.life → AreAdded a.site a.life step.now more) }
{
    let mut more = no_opens(alloc);
    add_opens(alloc, cards, step, &mut more)?;
    Ok(more)
}

fn reserve(txns: &mut Vec<Txn>, more: &[Txn]) -> Result<(), NoMemory>
    ensures same { txns.new.items ≡ txns.old.items }
    ensures ok { OnOk result (length txns.new.items + length more.now ≤ vec_capacity txns.new) }
{
    match txns.try_reserve(more.len()) {
        Ok(()) => Ok(()),
        Err(_) => Err(NoMemory),
    }
}

/// Makes room for the transactions that a step adds. What is open stays, also where memory wants.
pub(crate) fn ready_opens(opens: &mut Opens, more: &Opens) -> Result<(), NoMemory>
    ensures stand { (site : ℕ) (life : Life) → OpensStand site opens.old life → OpensStand site opens.new life }
    ensures ok { OnOk result (HaveRoom opens.new more.now) }
{
    reserve(&mut opens.logged, more.logged.as_slice())?;
    reserve(&mut opens.arrived, more.arrived.as_slice())?;
    reserve(&mut opens.begun, more.begun.as_slice())
}

// Puts these behind those that are open, and takes those out that the records decide.
fn add_all(records: &[Record], more: &[Txn], txns: &mut Vec<Txn>)
    requires { length txns.old.items + length more.now ≤ vec_capacity txns.old }
    ensures { txns.new.items ≡ undecided_among records.now (txns.old.items ++ more.now) }
{
    let _ = txns.extend_from_slice(more);
    sift(records, txns);
}

/// What is open behind a step, with the transactions that it adds and without those that it decides. It takes no memory.
pub(crate) fn apply_opens(opens: &mut Opens, step: &SiteStep, more: Opens)
    requires { HaveRoom opens.old more }
    ensures { (site : ℕ) (life : Life) → OpensStand site opens.old life → AreAdded site life step.now more → OpensStand site opens.new (life_by life step.now) }
{
    let records = step.records.as_slice();
    add_all(records, more.logged.as_slice(), &mut opens.logged);
    add_all(records, more.arrived.as_slice(), &mut opens.arrived);
    add_all(records, more.begun.as_slice(), &mut opens.begun);
}

/// The open transactions of a log with one more record, at a site that made no step, by the cards of the log before it. Want
/// of memory is the only error; what they are then is left open.
pub(crate) fn note_opens(cards: &Cards, opens: &mut Opens, r: &Record) -> Result<(), NoMemory>
    ensures { IfOk result (λ u. (site inc : ℕ) → (log : Items SomeRecord) → CardsStand site cards.now (unstepped inc log) → OpensStand site opens.old (unstepped inc log)
        → OpensStand site opens.new (unstepped inc (log ++ r.now ∷ []))) }
{
    add_known(cards, r, &mut opens.logged)?;
    sift_by(r, &mut opens.logged);
    Ok(())
}

// All of them, those of the log first and those that the site began last.
fn all_of(alloc: Global, opens: &Opens) -> Result<List<Txn>, NoMemory>
    ensures { IfOk result (λ txns. txns ≡ (opens.now.logged.items ++ opens.now.arrived.items) ++ opens.now.begun.items) }
{
    let mut txns = List::new(alloc);
    txns.extend(opens.logged.as_slice())?;
    txns.extend(opens.arrived.as_slice())?;
    txns.extend(opens.begun.as_slice())?;
    Ok(txns)
}

/// The undecided transactions that a site knows for whose life the tables stand, each once and ascending. It costs what the
/// operations and the records of open transactions are. Want of memory is the only error.
pub fn open_with(alloc: Global, tables: &Tables) -> Result<List<Txn>, NoMemory>
    ensures { IfOk result (λ txns. (site : ℕ) (life : Life) → TablesStand site life tables.now → txns ≡ open_in site life) }
{
    let txns = all_of(alloc, &tables.opens)?;
    in_order(alloc, txns.as_slice())
}
