// The rows of a site.
ghost use Rattle.std.specs.Prelude.{◌≡◌, ◌≤◌, ◌<◌, ◌+◌, ◌-◌, ◌++◌, true, ℕ, List as Items, length, take, drop, MatchOption, OnOk, OnErr, vec_len, vec_capacity};
ghost use Rattle.e3_types.specs.declared.transactions.Answer.TheVariants.{Absent, Value};
ghost use Rattle.e3_types.specs.declared.transactions.NumOp.{NumOp};
ghost use Rattle.e3_types.specs.declared.transactions.Row.{Row};
ghost use Rattle.e3_world.specs.Logs.{set_row, install_op, row_value};
ghost use Rattle.e3_types.specs.Sorted.{IsAscending};
ghost use Rattle.e3_tables.specs.Work.{names_differ, in_order, installed, read_behind};

use crate::Workspace;
use crate::writes::row_written;
use e3_types::{List, Name, NoMemory, NumOp, Row, Val, place_of};
use std::marker::Model;

/// The records of a site, in byte order of their names.
#[derive(Drop)]
pub struct Tables {
    rows: Vec<Row>,
}

impl Model for Tables {
    ghost use Rattle.std.specs.Prelude.{◌-◌, vec_len, vec_capacity};
    ghost use Rattle.e3_types.specs.Sorted.{IsAscending};
    ghost use Rattle.e3_tables.specs.Work.{TableRows};

    ghost Value = { TableRows };

    ghost view = { λ a. record { rows = a.rows.items; room = vec_capacity a.rows - vec_len a.rows } };

    ghost invariant = { λ a. IsAscending (λ row. row.name) a.rows.items };
}

// Sets a row among the first so many, which are in byte order. The other rows stay behind them.
fn put_row(rows: &mut Vec<Row>, count: usize, row: Row)
    requires count { count ≤ vec_len rows.old }
    requires ordered { IsAscending (λ r. r.name) (take count rows.old.items) }
    requires room { length (set_row row (take count rows.old.items)) + (vec_len rows.old - count) ≤ vec_capacity rows.old }
    ensures items { rows.new.items ≡ set_row row (take count rows.old.items) ++ drop count rows.old.items }
    ensures room { vec_capacity rows.old ≤ vec_capacity rows.new }
{
    match place_of(&rows[..count], &row.name) {
        Ok(at) => rows[at] = row,
        Err(at) => {
            let _ = rows.insert(at, row);
        }
    }
}

// Brings rows into byte order of their names.
fn sort_rows(rows: &mut Vec<Row>)
    ensures items { rows.new.items ≡ in_order rows.old.items }
    ensures ordered { IsAscending (λ row. row.name) rows.new.items }
{
    let total = rows.len();
    let mut taken = 0;
    let mut count = 0;
    'rows: while taken < total {
        let row = rows.remove(count);
        put_row(rows, count, row);
        taken += 1;
        count = rows.len() - (total - taken);
    }
}

// Installs what one operation writes.
fn install_op(rows: &mut Vec<Row>, op: &NumOp)
    requires ordered { IsAscending (λ row. row.name) rows.old.items }
    requires room { length (install_op rows.old.items op.now) ≤ vec_capacity rows.old }
    ensures items { rows.new.items ≡ install_op rows.old.items op.now }
    ensures ordered { IsAscending (λ row. row.name) rows.new.items }
    ensures room { vec_capacity rows.old ≤ vec_capacity rows.new }
{
    match row_written(op) {
        None => {}
        Some(row) => {
            let count = rows.len();
            put_row(rows, count, row);
        }
    }
}

// Installs what these operations write, one after the other.
fn install_all(rows: &mut Vec<Row>, ops: &[NumOp])
    requires ordered { IsAscending (λ row. row.name) rows.old.items }
    requires room { length (installed ops.now rows.old.items) ≤ vec_capacity rows.old }
    ensures items { rows.new.items ≡ installed ops.now rows.old.items }
    ensures ordered { IsAscending (λ row. row.name) rows.new.items }
    ensures room { vec_capacity rows.old ≤ vec_capacity rows.new }
{
    for op in ops {
        install_op(rows, op);
    }
}

impl Tables {
    /// A table of these rows. Of rows with one name the last one counts.
    pub fn new(rows: List<Row>) -> Tables
        ensures rows { result.rows ≡ in_order rows }
        ensures values { names_differ rows ≡ true → (n : Items ℕ) → row_value n result.rows ≡ row_value n rows }
    {
        let mut rows = rows.into_vec();
        sort_rows(&mut rows);
        Tables { rows }
    }

    /// The value of a record. None exactly where there is none of this name.
    pub fn value(&self, name: &Name) -> Option<&Val>
        ensures { MatchOption result (row_value name.now self.now.rows ≡ Absent) (λ val. row_value name.now self.now.rows ≡ Value val.now) }
    {
        match place_of(&self.rows, name) {
            Ok(at) => Some(&self.rows[at].val),
            Err(_) => None,
        }
    }

    /// Makes room for so many names more, and changes no row. Want of memory is the only error. A workspace of at most so
    /// many operations can then be installed.
    pub fn reserve(&mut self, more: u32) -> Result<(), NoMemory>
        ensures rows { self.new.rows ≡ self.old.rows }
        ensures kept { self.old.room ≤ self.new.room }
        ensures room { OnOk result (more ≤ self.new.room) }
        ensures installs { OnOk result ((ops : Items NumOp) → length ops ≤ more
            → length (installed ops self.new.rows) ≤ length self.new.rows + self.new.room) }
    {
        match self.rows.reserve(more as usize) {
            Ok(()) => {}
            Err(_) => return Err(NoMemory),
        }
        Ok(())
    }

    /// The writes of a workspace, one after the other. What a name reads then is what it read in the workspace; where that
    /// writes nothing, the row stays. It takes no memory: there has to be room for the names that are new.
    pub fn install(&mut self, work: Workspace)
        requires { length (installed work.ops self.old.rows) ≤ length self.old.rows + self.old.room }
        ensures rows { self.new.rows ≡ installed work.ops self.old.rows }
        ensures values { (n : Items ℕ) → row_value n self.new.rows ≡ read_behind n work.ops self.old.rows }
        ensures room { length self.old.rows + self.old.room ≤ length self.new.rows + self.new.room }
    {
        install_all(&mut self.rows, work.ops());
    }
}
