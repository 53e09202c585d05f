// Copies of values that hold lists.
ghost use Rattle.std.specs.Prelude.{◌≡◌, ◌++◌, ℕ, take, IfOk, OnErr};

use crate::{
    Act, Entry, Input, Item, KeyRow, List, NoMemory, NumOp, Packet, Record, Row, Scenario, SiteSet,
    Told,
};
use std::alloc::Global;

/// A value of which an equal one can be made, given memory.
pub trait Copied: Sized {
    /// An equal value. Want of memory is the only error.
    fn copied(&self, alloc: Global) -> Result<Self, NoMemory>
        ensures { IfOk result (λ x. x ≡ self.now) };
}

impl Copied for u32 {
    fn copied(&self, _alloc: Global) -> Result<u32, NoMemory> {
        Ok(*self)
    }
}

impl Copied for SiteSet {
    fn copied(&self, _alloc: Global) -> Result<SiteSet, NoMemory> {
        Ok(*self)
    }
}

impl Copied for Row {
    fn copied(&self, _alloc: Global) -> Result<Row, NoMemory> {
        Ok(self.copy())
    }
}

impl Copied for NumOp {
    fn copied(&self, _alloc: Global) -> Result<NumOp, NoMemory> {
        Ok(self.copy())
    }
}

impl Copied for Packet {
    fn copied(&self, _alloc: Global) -> Result<Packet, NoMemory> {
        Ok(self.copy())
    }
}

impl Copied for Told {
    fn copied(&self, _alloc: Global) -> Result<Told, NoMemory> {
        Ok(self.copy())
    }
}

impl Copied for Input {
    fn copied(&self, _alloc: Global) -> Result<Input, NoMemory> {
        Ok(self.copy())
    }
}

impl Copied for KeyRow {
    fn copied(&self, _alloc: Global) -> Result<KeyRow, NoMemory> {
        Ok(self.copy())
    }
}

impl<T: Copied + Drop> List<T> {
    /// A list of equal items. Want of memory is the only error.
    pub fn of_copies(alloc: Global, items: &[T]) -> Result<List<T>, NoMemory>
        ensures { IfOk result (λ list. list ≡ items.now) }
    {
        let Ok(room) = Vec::with_capacity(alloc, items.len()) else {
            return Err(NoMemory);
        };
        let mut list = List::from_vec(room);
        list.add_copies(alloc, items)?;
        Ok(list)
    }

    /// Adds equal items at the end. Want of memory is the only error; the first few may stand there then.
    pub fn add_copies(&mut self, alloc: Global, items: &[T]) -> Result<(), NoMemory>
        ensures ok { IfOk result (λ u. self.new ≡ self.old ++ items.now) }
        ensures err { OnErr result ((few : ℕ) × (self.new ≡ self.old ++ take few items.now)) }
    {
        for item in items {
            self.push(item.copied(alloc)?)?;
        }
        Ok(())
    }
}

impl<T: Copied + Drop> Copied for List<T> {
    fn copied(&self, alloc: Global) -> Result<List<T>, NoMemory> {
        List::of_copies(alloc, self.as_slice())
    }
}

impl Copied for Record {
    fn copied(&self, alloc: Global) -> Result<Record, NoMemory> {
        Ok(match *self {
            Record::Birth {
                format,
                site,
                ref weights,
                ref rows,
            } => Record::Birth {
                format,
                site,
                weights: weights.copied(alloc)?,
                rows: rows.copied(alloc)?,
            },
            Record::Inc { inc } => Record::Inc { inc },
            Record::Vote { txn, ref ops } => Record::Vote {
                txn,
                ops: ops.copied(alloc)?,
            },
            Record::Join { txn, n } => Record::Join { txn, n },
            Record::Attempt { txn, n, dir } => Record::Attempt { txn, n, dir },
            Record::Decision { txn, dir } => Record::Decision { txn, dir },
        })
    }
}

impl Copied for Act {
    fn copied(&self, alloc: Global) -> Result<Act, NoMemory> {
        Ok(match *self {
            Act::Step {
                ref input,
                ref records,
                ref outs,
                ref told,
            } => Act::Step {
                input: input.copy(),
                records: records.copied(alloc)?,
                outs: outs.copied(alloc)?,
                told: told.copied(alloc)?,
            },
            Act::Fall {
                ref inputs,
                ref records,
                why,
            } => Act::Fall {
                inputs: inputs.copied(alloc)?,
                records: records.copied(alloc)?,
                why,
            },
            Act::Rise { kept, inc } => Act::Rise { kept, inc },
            Act::RiseFall { kept, inc, why } => Act::RiseFall { kept, inc, why },
            Act::Miss => Act::Miss,
            Act::Cut => Act::Cut,
            Act::Drop { packet } => Act::Drop { packet },
            Act::Parts { ref parts } => Act::Parts {
                parts: parts.copied(alloc)?,
            },
            Act::Line { number } => Act::Line { number },
        })
    }
}

impl Copied for Entry {
    fn copied(&self, alloc: Global) -> Result<Entry, NoMemory> {
        Ok(Entry {
            owner: self.owner,
            act: self.act.copied(alloc)?,
        })
    }
}

impl Copied for Item {
    fn copied(&self, alloc: Global) -> Result<Item, NoMemory> {
        Ok(match *self {
            Item::Begin {
                ref name,
                site,
                sites,
            } => Item::Begin {
                name: name.copy(),
                site,
                sites,
            },
            Item::Read { ref name, ref key } => Item::Read {
                name: name.copy(),
                key: key.copy(),
            },
            Item::Write {
                ref name,
                ref key,
                ref val,
            } => Item::Write {
                name: name.copy(),
                key: key.copy(),
                val: val.copy(),
            },
            Item::Commit { ref name } => Item::Commit { name: name.copy() },
            Item::Cancel { ref name } => Item::Cancel { name: name.copy() },
            Item::Expire { site, ref name } => Item::Expire {
                site,
                name: name.copy(),
            },
            Item::Elect {
                site,
                ref name,
                sites,
            } => Item::Elect {
                site,
                name: name.copy(),
                sites,
            },
            Item::Recover { sites } => Item::Recover { sites },
            Item::Split { ref parts } => Item::Split {
                parts: parts.copied(alloc)?,
            },
            Item::Merge => Item::Merge,
            Item::Crash { site } => Item::Crash { site },
            Item::Restart { site } => Item::Restart { site },
            Item::Stop { site, count, leave } => Item::Stop { site, count, leave },
        })
    }
}

impl Copied for Scenario {
    fn copied(&self, alloc: Global) -> Result<Scenario, NoMemory> {
        Ok(Scenario {
            weights: self.weights.copied(alloc)?,
            rows: self.rows.copied(alloc)?,
            loss: self.loss,
            repeat: self.repeat,
            luck: self.luck,
            steps: self.steps.copied(alloc)?,
        })
    }
}
