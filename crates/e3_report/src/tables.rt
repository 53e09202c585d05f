// The table of a log: rows by their names, and the operations of the votes by their transactions.
ghost use Rattle.std.specs.Prelude.{◌≡◌, [], List, ℕ, true, false, fold, IfOk, IfSome, OnOk};
ghost use Rattle.std.specs.BTreeMap.{is_at};
ghost use Rattle.std.specs.Cmp.Lexicographic.{slice_cmp};
ghost use Rattle.std.specs.Ordering.{nat_cmp};
ghost use Rattle.e3_world.specs.Logs.{set_row, install_op, table_of};
ghost use Rattle.e3_world.specs.Moves.{rows_at};
ghost use Rattle.e3_report.specs.Tables.{ops_at, ops_in, ops_with, ops_by, entered};

use e3_order::TxnKey;
use e3_readings::table_of as plain_table_of;
use e3_tables::write_of;
use e3_types::{Dir, KeyRow, List, Name, NoMemory, NumOp, Record, Row, Txn, Val};
use std::alloc::Global;
use std::collections::BTreeMap;
use std::marker::Model;

/// Whether the rows are the same, one by one.
#[tactic(auto, using(crate::proofs::Tabling::same_rows_one))]
fn same_rows(some: &[Row], others: &[Row]) -> bool
    ensures { result ≡ true → some.now ≡ others.now }
{
    if some.len() != others.len() {
        return false;
    }
    for at in 0..some.len() {
        if !some[at].name.is_same(&others[at].name) || !some[at].val.is_same(&others[at].val) {
            return false;
        }
    }
    true
}

/// A table, seen as the list of its rows in byte order of their names.
#[derive(Drop)]
struct Table {
    rows: BTreeMap<Name, Val>,
}

impl Model for Table {
    ghost use Rattle.std.specs.Prelude.{List};
    ghost use Rattle.e3_types.specs.declared.transactions.Row.{Row};
    ghost use Rattle.e3_report.specs.Tables.{rows_of};

    ghost Value = { List Row };

    ghost view = { λ a. rows_of a.rows.entries };
}

impl Table {
    fn new(alloc: Global) -> Table
        ensures { result ≡ [] }
    {
        Table {
            rows: BTreeMap::new(alloc),
        }
    }

    #[tactic(auto, using(crate::proofs::Tabling::row_inserted))]
    fn set(&mut self, name: &Name, val: &Val) -> Result<(), NoMemory>
        ensures { OnOk result (self.new ≡ set_row (record { name = name.now; val = val.now }) self.old) }
    {
        match self.rows.insert(name.copy(), val.copy()) {
            Ok(_) => Ok(()),
            Err(_) => Err(NoMemory),
        }
    }

    fn list(&self, alloc: Global) -> Result<List<Row>, NoMemory>
        ensures { IfOk result (λ rows. rows ≡ self.now) }
    {
        let mut out = List::new(alloc);
        for (name, val) in &self.rows {
            out.push(Row {
                name: name.copy(),
                val: val.copy(),
            })?;
        }
        Ok(out)
    }

    fn set_all(&mut self, rows: &[Row]) -> Result<(), NoMemory> {
        for row in rows {
            self.set(&row.name, &row.val)?;
        }
        Ok(())
    }

    /// The table of these rows. None where they are not in byte order of their names, each name once.
    fn of(alloc: Global, rows: &[Row]) -> Result<Option<Table>, NoMemory>
        ensures { IfOk result (λ table. IfSome table (λ t. t ≡ rows.now)) }
    {
        let mut table = Table::new(alloc);
        table.set_all(rows)?;
        let list = table.list(alloc)?;
        if same_rows(list.as_slice(), rows) {
            Ok(Some(table))
        } else {
            Ok(None)
        }
    }

    fn install_op(&mut self, op: &NumOp) -> Result<(), NoMemory>
        ensures { OnOk result (self.new ≡ install_op self.old op.now) }
    {
        match write_of(&op.op) {
            Some((key, val)) => self.set(&key.name, val),
            None => Ok(()),
        }
    }

    fn install(&mut self, ops: &[NumOp]) -> Result<(), NoMemory>
        ensures { OnOk result (self.new ≡ fold install_op self.old ops.now) }
    {
        for op in ops {
            self.install_op(op)?;
        }
        Ok(())
    }

    /// One more record of the log. False where it is a birth whose rows are not in their order.
    fn enter(&mut self, alloc: Global, votes: &Votes, r: &Record) -> Result<bool, NoMemory>
        ensures { IfOk result (λ fits. fits ≡ true → self.new ≡ entered (ops_in votes.now) self.old r.now) }
    {
        match r {
            Record::Birth { rows, .. } => match Table::of(alloc, rows.as_slice())? {
                Some(table) => {
                    *self = table;
                    Ok(true)
                }
                None => Ok(false),
            },
            Record::Decision {
                txn,
                dir: Dir::Commit,
            } => {
                self.install(votes.ops_of(txn))?;
                Ok(true)
            }
            _ => Ok(true),
        }
    }
}

/// The operations of the votes of a log, by their transactions.
#[derive(Drop)]
struct Votes {
    ops: BTreeMap<TxnKey, List<NumOp>>,
}

impl Model for Votes {
    ghost use Rattle.std.specs.Prelude.{ℕ, List};
    ghost use Rattle.e3_types.specs.declared.transactions.NumOp.{NumOp};

    ghost Value = { List (List ℕ × List NumOp) };

    ghost view = { λ a. a.ops.entries };
}

impl Votes {
    fn new(alloc: Global) -> Votes
        ensures { result ≡ [] }
    {
        Votes {
            ops: BTreeMap::new(alloc),
        }
    }

    /// The operations of all votes of a transaction.
    fn ops_of(&self, txn: &Txn) -> &[NumOp]
        ensures { result.now ≡ ops_in self.now txn.now }
    {
        let key = TxnKey::of(txn);
        match self.ops.get(&key) {
            Some(ops) => ops.as_slice(),
            None => &[],
        }
    }

    /// Takes the operations of a transaction out.
    fn take(&mut self, alloc: Global, key: &TxnKey) -> List<NumOp>
        ensures taken { result ≡ ops_at self.old key.now }
        ensures others { (other : List ℕ) → is_at (slice_cmp nat_cmp key.now) other ≡ false → ops_at self.new other ≡ ops_at self.old other }
    {
        match self.ops.remove(key) {
            Some(ops) => ops,
            None => List::new(alloc),
        }
    }

    /// One more vote.
    fn vote(&mut self, alloc: Global, txn: &Txn, ops: &[NumOp]) -> Result<(), NoMemory>
        ensures { OnOk result ((key : List ℕ) → ops_at self.new key ≡ ops_with txn.now ops.now key (ops_at self.old key)) }
    {
        let key = TxnKey::of(txn);
        let mut all = self.take(alloc, &key);
        all.add_copies(alloc, ops)?;
        match self.ops.insert(key, all) {
            Ok(_) => Ok(()),
            Err(_) => Err(NoMemory),
        }
    }

    /// One more record, which may be a vote.
    fn enter(&mut self, alloc: Global, r: &Record) -> Result<(), NoMemory>
        ensures { OnOk result ((key : List ℕ) → ops_at self.new key ≡ ops_by key (ops_at self.old key) r.now) }
    {
        match r {
            Record::Vote { txn, ops } => self.vote(alloc, txn, ops.as_slice()),
            _ => Ok(()),
        }
    }
}

/// The votes of a log.
fn votes_of(alloc: Global, log: &[Record]) -> Result<Votes, NoMemory>
    ensures { IfOk result (λ votes. (key : List ℕ) → ops_at votes key ≡ fold (ops_by key) [] log.now) }
{
    let mut votes = Votes::new(alloc);
    for r in log {
        votes.enter(alloc, r)?;
    }
    Ok(votes)
}

/// The table of a log, with the operations of its votes. None where a birth has rows that are not in their order.
fn entered(alloc: Global, votes: &Votes, log: &[Record]) -> Result<Option<Table>, NoMemory>
    ensures { IfOk result (λ found. IfSome found (λ table. table ≡ fold (entered (ops_in votes.now)) [] log.now)) }
{
    let mut table = Table::new(alloc);
    for r in log {
        if !table.enter(alloc, votes, r)? {
            return Ok(None);
        }
    }
    Ok(Some(table))
}

/// The table of a log: the rows of its birth, with the writes of what it commits, in the order of its decisions.
pub(crate) fn table_of(alloc: Global, log: &[Record]) -> Result<List<Row>, NoMemory>
    ensures { IfOk result (λ out. out ≡ table_of log.now) }
{
    let votes = votes_of(alloc, log)?;
    match entered(alloc, &votes, log)? {
        Some(table) => Ok(table.list(alloc)?),
        None => plain_table_of(alloc, log),
    }
}

/// The first rows of a site among those of all sites. Where a name comes twice, its first row stands.
pub(crate) fn rows_at(alloc: Global, site: u32, rows: &[KeyRow]) -> Result<List<Row>, NoMemory>
    ensures { IfOk result (λ out. out ≡ rows_at site rows.now) }
{
    let mut table = Table::new(alloc);
    for i in (0..rows.len()).rev() {
        if rows[i].key.site == site {
            table.set(&rows[i].key.name, &rows[i].val)?;
        }
    }
    table.list(alloc)
}
