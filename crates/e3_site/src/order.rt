// Whether a record may stand behind others in the log of a site. Nothing here takes memory.
ghost use Rattle.std.specs.Prelude.{◌≡◌, ◌&&◌, nat_le, List};
ghost use Rattle.std.specs.List.{list_all};
ghost use Rattle.e3_types.specs.declared.records.Record.{Record as SomeRecord};
ghost use Rattle.e3_types.specs.declared.transactions.Txn.{Txn as SomeTxn};
ghost use Rattle.e3_types.specs.declared.transactions.State.TheVariants.{Q};
ghost use Rattle.e3_types.specs.Same.{same_state};
ghost use Rattle.e3_world.specs.Logs.{state_of};
ghost use Rattle.e3_world.specs.Orderly.{is_among, is_free, is_known, names_ascend, ops_ascend};
ghost use Rattle.e3_cards.specs.Seeing.{seen_of};
ghost use Rattle.e3_site.specs.Orderly.{are_numbered, are_weights, is_birth, is_first_decision, is_first_vote, is_next_attempt, is_next_inc, is_next_join, is_orderly_next, is_weighed};

use crate::before::Before;
use e3_cards::{Seen, seen_state};
use e3_types::{Dir, NumOp, Record, Row, SiteSet, State, Txn};
use std::cmp::Ordering;

fn is_weighed(weights: &[u32], site: u32) -> bool
    ensures { result ≡ is_weighed weights.now site }
{
    1 <= site && site as usize <= weights.len()
}

fn are_in_range(weights: &[u32]) -> bool
    ensures { result ≡ list_all (λ w. nat_le 1 w && nat_le w 1000) weights.now }
{
    weights.iter().all(|w| 1 <= *w && *w <= 1000)
}

fn are_weights(weights: &[u32]) -> bool
    ensures { result ≡ are_weights weights.now }
{
    weights.len() <= 16 && are_in_range(weights)
}

fn names_ascend(rows: &[Row]) -> bool
    ensures { result ≡ names_ascend rows.now }
{
    for i in 1..rows.len() {
        if rows[i - 1].name.bytes().cmp(rows[i].name.bytes()) != Ordering::Less {
            return false;
        }
    }
    true
}

fn is_birth<B: Before>(
    before: &B,
    site: u32,
    format: u32,
    number: u32,
    weights: &[u32],
    rows: &[Row],
) -> bool
    ensures { result ≡ is_birth site (B.log before.now) format number weights.now rows.now }
{
    before.is_empty()
        && format == 1
        && number == site
        && is_weighed(weights, site)
        && are_weights(weights)
        && names_ascend(rows)
}

fn is_next_inc<B: Before>(before: &B, inc: u32) -> bool
    ensures { result ≡ is_next_inc (B.log before.now) inc }
{
    !before.is_empty() && inc > 0 && (before.inc() == 0 || inc - 1 == before.inc())
}

fn are_weighed(weights: &[u32], sites: SiteSet) -> bool
    ensures { result ≡ list_all (is_weighed weights.now) sites }
{
    for s in sites.iter() {
        if !is_weighed(weights, s) {
            return false;
        }
    }
    true
}

fn is_among(site: u32, weights: &[u32], sites: SiteSet) -> bool
    ensures { result ≡ is_among site weights.now sites }
{
    sites.has(site) && are_weighed(weights, sites)
}

fn is_known<B: Before>(site: u32, before: &B, t: &Txn) -> bool
    ensures { result ≡ is_known site (B.log before.now) t.now }
{
    1 <= before.inc() && is_among(site, before.weights(), t.sites)
}

fn are_ascending(ops: &[NumOp]) -> bool
    ensures { result ≡ ops_ascend 0 ops.now }
{
    let mut last = 0;
    for o in ops {
        if o.n <= last {
            return false;
        }
        last = o.n;
    }
    true
}

fn are_few(ops: &[NumOp]) -> bool
    ensures { result ≡ list_all (λ o. nat_le o.n 64) ops.now }
{
    ops.iter().all(|o| o.n <= 64)
}

fn are_numbered(ops: &[NumOp]) -> bool
    ensures { result ≡ are_numbered ops.now }
{
    are_ascending(ops) && are_few(ops)
}

fn are_free<B: Before>(t: &Txn, before: &B, ops: &[NumOp]) -> bool
    ensures { result ≡ list_all (is_free t.now (B.log before.now)) ops.now }
{
    ops.iter().all(|o| before.is_free(t, o))
}

// The transaction is in q.
fn is_quiet(seen: &Seen) -> bool
    ensures { (t : SomeTxn) (log : List SomeRecord) → seen.now ≡ seen_of t log → result ≡ same_state (state_of t log) Q }
{
    seen_state(seen).is_same(State::Q)
}

fn is_first_vote<B: Before>(site: u32, before: &B, t: &Txn, ops: &[NumOp]) -> bool
    ensures { result ≡ is_first_vote site (B.log before.now) t.now ops.now }
{
    let seen = before.seen(t);
    is_known(site, before, t)
        && is_quiet(&seen)
        && seen.elected == 1
        && are_numbered(ops)
        && are_free(t, before, ops)
}

fn is_next_join<B: Before>(site: u32, before: &B, t: &Txn, n: u32) -> bool
    ensures { result ≡ is_next_join site (B.log before.now) t.now n }
{
    is_known(site, before, t) && before.seen(t).elected < n
}

fn is_next_attempt<B: Before>(site: u32, before: &B, t: &Txn, n: u32, dir: Dir) -> bool
    ensures { result ≡ is_next_attempt site (B.log before.now) t.now n dir }
{
    let seen = before.seen(t);
    is_known(site, before, t)
        && seen.decision.is_none()
        && n == seen.elected
        && seen.attempt < n
        && (n != 1 || (seen.voted && dir.is_same(Dir::Commit)))
}

fn is_first_decision<B: Before>(site: u32, before: &B, t: &Txn, dir: Dir) -> bool
    ensures { result ≡ is_first_decision site (B.log before.now) t.now dir }
{
    let seen = before.seen(t);
    is_known(site, before, t)
        && seen.decision.is_none()
        && (!dir.is_same(Dir::Commit) || seen.voted)
}

/// The record may stand behind those before it in the log of this site.
pub(crate) fn is_orderly_next<B: Before>(site: u32, before: &B, r: &Record) -> bool
    ensures { result ≡ is_orderly_next site (B.log before.now) r.now }
{
    match r {
        Record::Birth {
            format,
            site: number,
            weights,
            rows,
        } => is_birth(
            before,
            site,
            *format,
            *number,
            weights.as_slice(),
            rows.as_slice(),
        ),
        Record::Inc { inc } => is_next_inc(before, *inc),
        Record::Vote { txn, ops } => is_first_vote(site, before, txn, ops.as_slice()),
        Record::Join { txn, n } => is_next_join(site, before, txn, *n),
        Record::Attempt { txn, n, dir } => is_next_attempt(site, before, txn, *n, *dir),
        Record::Decision { txn, dir } => is_first_decision(site, before, txn, *dir),
    }
}
