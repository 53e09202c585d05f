// What a brief has of one transaction.
ghost use Rattle.std.specs.Prelude.{◌≡◌, ◌++◌, IfOk};
ghost use Rattle.e3_world.specs.Brief.{attempt_in, decision_in, join_in, noted, open_ops, vote_in};
ghost use Rattle.e3_site.specs.TableBrief.{seen_notes};

use e3_cards::Seen;
use e3_readings::{
    attempted, decision, has_voted, is_undecided, last_attempt, last_elected, voted_ops,
};
use e3_types::{Dir, List, NoMemory, NumOp, Record, Txn};
use std::alloc::Global;

// The operations of the transaction's vote, while it is undecided.
fn open_ops(alloc: Global, t: &Txn, records: &[Record]) -> Result<List<NumOp>, NoMemory>
    ensures { IfOk result (λ ops. ops ≡ open_ops t.now records.now) }
{
    if is_undecided(t, records) {
        voted_ops(alloc, t, records)
    } else {
        Ok(List::new(alloc))
    }
}

fn add_vote(t: &Txn, voted: bool, ops: List<NumOp>, out: &mut List<Record>) -> Result<(), NoMemory>
    ensures { IfOk result (λ u. out.new ≡ out.old ++ vote_in t.now voted ops) }
{
    if voted {
        out.push(Record::Vote { txn: *t, ops })
    } else {
        Ok(())
    }
}

// The attempt, behind the join that it has its number of.
fn add_numbered(t: &Txn, dir: Dir, n: u32, out: &mut List<Record>) -> Result<(), NoMemory>
    ensures { IfOk result (λ u. out.new ≡ out.old ++ attempt_in t.now (Some dir) n) }
{
    if 1 < n {
        out.push(Record::Join { txn: *t, n })?;
    }
    out.push(Record::Attempt { txn: *t, n, dir })
}

fn add_attempt(
    t: &Txn,
    attempted: Option<Dir>,
    n: u32,
    out: &mut List<Record>,
) -> Result<(), NoMemory>
    ensures { IfOk result (λ u. out.new ≡ out.old ++ attempt_in t.now attempted n) }
{
    match attempted {
        Some(dir) => add_numbered(t, dir, n, out),
        None => Ok(()),
    }
}

fn add_join(t: &Txn, attempt: u32, elected: u32, out: &mut List<Record>) -> Result<(), NoMemory>
    ensures { IfOk result (λ u. out.new ≡ out.old ++ join_in t.now attempt elected) }
{
    if attempt.max(1) < elected {
        out.push(Record::Join {
            txn: *t,
            n: elected,
        })
    } else {
        Ok(())
    }
}

fn add_decision(t: &Txn, decided: Option<Dir>, out: &mut List<Record>) -> Result<(), NoMemory>
    ensures { IfOk result (λ u. out.new ≡ out.old ++ decision_in t.now decided) }
{
    match decided {
        Some(dir) => out.push(Record::Decision { txn: *t, dir }),
        None => Ok(()),
    }
}

/// Adds what a brief has of a transaction of which the log says this, and which has these operations open.
pub(crate) fn add_seen(
    t: &Txn,
    seen: &Seen,
    ops: List<NumOp>,
    out: &mut List<Record>,
) -> Result<(), NoMemory>
    ensures { IfOk result (λ u. out.new ≡ out.old ++ seen_notes t.now seen.now ops) }
{
    add_vote(t, seen.voted, ops, out)?;
    add_attempt(t, seen.attempted, seen.attempt, out)?;
    add_join(t, seen.attempt, seen.elected, out)?;
    add_decision(t, seen.decision, out)
}

/// Adds what the brief of these records has of the transaction.
pub(crate) fn add_noted(
    alloc: Global,
    t: &Txn,
    records: &[Record],
    out: &mut List<Record>,
) -> Result<(), NoMemory>
    ensures { IfOk result (λ u. out.new ≡ out.old ++ noted records.now t.now) }
{
    let ops = open_ops(alloc, t, records)?;
    let seen = Seen {
        elected: last_elected(t, records),
        attempt: last_attempt(t, records),
        decision: decision(t, records),
        attempted: attempted(t, records),
        voted: has_voted(t, records),
    };
    add_seen(t, &seen, ops, out)
}
