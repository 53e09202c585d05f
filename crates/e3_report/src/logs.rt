// The records of all logs, gathered in one walk over a history.
ghost use Rattle.std.specs.Prelude.{◌≡◌, [], OnOk, IfOk};
ghost use Rattle.e3_world.specs.Moves.{birth};
ghost use Rattle.e3_report.specs.Walk.{no_walk, tail_in, log_in, rise_in, doubtful, with_born, and_records, and_tail, and_kept, and_rise, and_failed, walk_act, walk_of};

use crate::tables::rows_at;
use e3_readings::{SiteRecord, add_placed};
use e3_types::{Act, Copied, Entry, List, NoMemory, Record, Scenario, Why};
use std::alloc::Global;
use std::collections::{BTreeMap, BTreeSet};
use std::marker::Model;

/// The records of all logs in the order of their places, the records that are in doubt at the sites, and the sites whose
/// logs have records.
#[derive(Drop)]
pub(crate) struct Walk {
    placed: List<SiteRecord>,
    tails: BTreeMap<u32, List<Record>>,
    born: BTreeSet<u32>,
}

impl Model for Walk {
    ghost use Rattle.e3_report.specs.Walk.{Walked};

    ghost Value = { Walked };

    ghost view = { λ a. record { placed = a.placed; tails = a.tails.entries; born = a.born.keys } };
}

/// The first record of a site's log.
fn birth(alloc: Global, scenario: &Scenario, site: u32) -> Result<Record, NoMemory>
    ensures { IfOk result (λ r. r ≡ birth scenario.now site) }
{
    Ok(Record::Birth {
        format: 1,
        site,
        weights: scenario.weights.copied(alloc)?,
        rows: rows_at(alloc, site, scenario.rows.as_slice())?,
    })
}

/// The records of a rise, where the site's log has records or none.
fn rise_in(
    alloc: Global,
    scenario: &Scenario,
    site: u32,
    inc: u32,
    born: bool,
) -> Result<List<Record>, NoMemory>
    ensures { IfOk result (λ records. records ≡ rise_in scenario.now site inc born) }
{
    let mut out = List::new(alloc);
    if !born {
        let first = birth(alloc, scenario, site)?;
        out.push(first)?;
    }
    out.push(Record::Inc { inc })?;
    Ok(out)
}

fn add_born(born: &mut BTreeSet<u32>, site: u32, records: &[Record]) -> Result<(), NoMemory>
    ensures { OnOk result (born.new.keys ≡ with_born site records.now born.old.keys) }
{
    if records.is_empty() {
        return Ok(());
    }
    match born.insert(site) {
        Ok(_) => Ok(()),
        Err(_) => Err(NoMemory),
    }
}

/// What is in doubt behind a fall or a failed rise.
fn doubtful(alloc: Global, why: Why, records: &[Record]) -> Result<List<Record>, NoMemory>
    ensures { IfOk result (λ out. out ≡ doubtful why records.now) }
{
    match why {
        Why::Fault => List::of_copies(alloc, records),
        Why::Full { .. } => Ok(List::new(alloc)),
    }
}

impl Walk {
    fn new(alloc: Global) -> Walk
        ensures { result ≡ no_walk }
    {
        Walk {
            placed: List::new(alloc),
            tails: BTreeMap::new(alloc),
            born: BTreeSet::new(alloc),
        }
    }

    /// The records of all logs, in the order of their places.
    pub(crate) fn placed(&self) -> &[SiteRecord]
        ensures { result.now ≡ self.now.placed }
    {
        self.placed.as_slice()
    }

    fn tail(&self, site: u32) -> &[Record]
        ensures { result.now ≡ tail_in site self.now.tails }
    {
        match self.tails.get(&site) {
            Some(records) => records.as_slice(),
            None => &[],
        }
    }

    fn and_records(&mut self, alloc: Global, site: u32, records: &[Record]) -> Result<(), NoMemory>
        ensures { OnOk result (self.new ≡ and_records site records.now self.old) }
    {
        add_placed(alloc, &mut self.placed, site, records)?;
        add_born(&mut self.born, site, records)
    }

    fn and_tail(&mut self, site: u32, records: List<Record>) -> Result<(), NoMemory>
        ensures { OnOk result (self.new ≡ and_tail site records self.old) }
    {
        match self.tails.insert(site, records) {
            Ok(_) => Ok(()),
            Err(_) => Err(NoMemory),
        }
    }

    fn and_kept(&mut self, alloc: Global, site: u32, kept: bool) -> Result<(), NoMemory>
        ensures { OnOk result (self.new ≡ and_kept site kept self.old) }
    {
        if !kept {
            return Ok(());
        }
        let records = List::of_copies(alloc, self.tail(site))?;
        self.and_records(alloc, site, records.as_slice())
    }

    fn and_rise(
        &mut self,
        alloc: Global,
        scenario: &Scenario,
        site: u32,
        inc: u32,
    ) -> Result<(), NoMemory>
        ensures { OnOk result (self.new ≡ and_rise scenario.now site inc self.old) }
    {
        let born = self.born.contains(&site);
        let records = rise_in(alloc, scenario, site, inc, born)?;
        self.and_records(alloc, site, records.as_slice())?;
        self.and_tail(site, List::new(alloc))
    }

    fn and_failed(
        &mut self,
        alloc: Global,
        scenario: &Scenario,
        site: u32,
        inc: u32,
        why: Why,
    ) -> Result<(), NoMemory>
        ensures { OnOk result (self.new ≡ and_failed scenario.now site inc why self.old) }
    {
        let born = self.born.contains(&site);
        let records = rise_in(alloc, scenario, site, inc, born)?;
        self.and_tail(site, doubtful(alloc, why, records.as_slice())?)
    }

    /// One more act of a site.
    fn act(
        &mut self,
        alloc: Global,
        scenario: &Scenario,
        site: u32,
        act: &Act,
    ) -> Result<(), NoMemory>
        ensures { OnOk result (self.new ≡ walk_act scenario.now site self.old act.now) }
    {
        match act {
            Act::Step { records, .. } => self.and_records(alloc, site, records.as_slice()),
            Act::Fall { records, why, .. } => self.and_tail(
                site,
                doubtful(alloc, *why, records.as_slice())?,
            ),
            Act::Rise { kept, inc } => {
                self.and_kept(alloc, site, *kept)?;
                self.and_rise(alloc, scenario, site, *inc)
            }
            Act::RiseFall { kept, inc, why } => {
                self.and_kept(alloc, site, *kept)?;
                self.and_failed(alloc, scenario, site, *inc, *why)
            }
            _ => Ok(()),
        }
    }
}

/// Walks over a history.
pub(crate) fn walk_of(
    alloc: Global,
    scenario: &Scenario,
    history: &[Entry],
) -> Result<Walk, NoMemory>
    ensures { IfOk result (λ walk. walk ≡ walk_of scenario.now history.now) }
{
    let mut walk = Walk::new(alloc);
    for e in history {
        walk.act(alloc, scenario, e.owner, &e.act)?;
    }
    Ok(walk)
}

/// The log of a site among the records of all logs.
pub(crate) fn log_in(
    alloc: Global,
    site: u64,
    placed: &[SiteRecord],
) -> Result<List<Record>, NoMemory>
    ensures { IfOk result (λ log. log ≡ log_in site placed.now) }
{
    let mut out = List::new(alloc);
    for p in placed {
        if p.site() as u64 == site {
            let record = p.entered().copied(alloc)?;
            out.push(record)?;
        }
    }
    Ok(out)
}
