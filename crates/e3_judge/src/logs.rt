// The decisions in the logs of all owners of a history.
ghost use Rattle.std.specs.Prelude.{◌≡◌, ◌++◌, ◌∷◌, [], fold, IfOk};
ghost use Rattle.std.specs.List.{flat_map};
ghost use Rattle.e3_types.specs.Sets.{has_site};
ghost use Rattle.e3_world.specs.Moves.{own_entries};
ghost use Rattle.e3_judge.specs.Clashes.{with_owner, owners, decisions_in, nothing_yet, with_step, with_fall, risen, decided_by, decided_at, decisions};

use e3_types::{Act, Copied, Entry, List, NoMemory, Record, Why};
use std::alloc::Global;

/// The decisions of a log so far, and those that may or may not be on the disk.
#[derive(Drop)]
pub struct Decided {
    pub sure: List<Record>,
    pub doubted: List<Record>,
}

// Adds a record if it is a decision.
fn add_decision(alloc: Global, r: &Record, out: &mut List<Record>) -> Result<(), NoMemory>
    ensures { IfOk result (λ u. out.new ≡ out.old ++ decisions_in r.now) }
{
    if let Record::Decision { .. } = r {
        out.push(r.copied(alloc)?)?;
    }
    Ok(())
}

// Adds the decisions among these records.
fn add_decisions(alloc: Global, records: &[Record], out: &mut List<Record>) -> Result<(), NoMemory>
    ensures { IfOk result (λ u. out.new ≡ out.old ++ flat_map decisions_in records.now) }
{
    for r in records {
        add_decision(alloc, r, out)?;
    }
    Ok(())
}

// A step's decisions are sure.
fn with_step(alloc: Global, was: Decided, records: &[Record]) -> Result<Decided, NoMemory>
    ensures { IfOk result (λ more. more ≡ with_step was records.now) }
{
    let mut sure = was.sure;
    add_decisions(alloc, records, &mut sure)?;
    Ok(Decided {
        sure,
        doubted: was.doubted,
    })
}

// A fall leaves its decisions in doubt, unless its frame did not fit.
fn with_fall(
    alloc: Global,
    was: Decided,
    records: &[Record],
    why: &Why,
) -> Result<Decided, NoMemory>
    ensures { IfOk result (λ more. more ≡ with_fall was records.now why.now) }
{
    let mut doubted = List::new(alloc);
    if let Why::Fault = why {
        add_decisions(alloc, records, &mut doubted)?;
    }
    Ok(Decided {
        sure: was.sure,
        doubted,
    })
}

// What is in doubt is kept or lost where the site rises.
fn risen(alloc: Global, was: Decided, kept: bool) -> Result<Decided, NoMemory>
    ensures { IfOk result (λ more. more ≡ risen was kept) }
{
    let mut sure = was.sure;
    if kept {
        sure.add_copies(alloc, was.doubted.as_slice())?;
    }
    Ok(Decided {
        sure,
        doubted: List::new(alloc),
    })
}

// The decisions with those of one more act.
fn decided_by(alloc: Global, was: Decided, act: &Act) -> Result<Decided, NoMemory>
    ensures { IfOk result (λ more. more ≡ decided_by was act.now) }
{
    match act {
        Act::Step { records, .. } => with_step(alloc, was, records.as_slice()),
        Act::Fall { records, why, .. } => with_fall(alloc, was, records.as_slice(), why),
        Act::Rise { kept, .. } | Act::RiseFall { kept, .. } => risen(alloc, was, *kept),
        _ => Ok(was),
    }
}

// The decisions of a site's log.
fn decided_at(alloc: Global, history: &[Entry], site: u32) -> Result<List<Record>, NoMemory>
    ensures { IfOk result (λ all. all ≡ decided_at history.now site) }
{
    let mut was = Decided {
        sure: List::new(alloc),
        doubted: List::new(alloc),
    };
    for e in history {
        if e.owner == site {
            was = decided_by(alloc, was, &e.act)?;
        }
    }
    Ok(was.sure)
}

fn is_known(sites: &[u32], site: u32) -> bool
    ensures { result ≡ has_site sites.now site }
{
    sites.iter().any(|x| *x == site)
}

// The owners with one more, each once.
fn with_owner(was: List<u32>, e: &Entry) -> Result<List<u32>, NoMemory>
    ensures { IfOk result (λ all. all ≡ with_owner was e.now) }
{
    let mut all = was;
    if !is_known(all.as_slice(), e.owner) {
        all.push(e.owner)?;
    }
    Ok(all)
}

// The owners of these entries, each once.
fn owners(alloc: Global, history: &[Entry]) -> Result<List<u32>, NoMemory>
    ensures { IfOk result (λ all. all ≡ owners history.now) }
{
    let mut all = List::new(alloc);
    for e in history {
        all = with_owner(all, e)?;
    }
    Ok(all)
}

/// The decisions in the logs of all owners, each log once, in the order of the owners' first entries.
pub fn decisions(alloc: Global, history: &[Entry]) -> Result<List<Record>, NoMemory>
    ensures { IfOk result (λ out. out ≡ decisions history.now) }
{
    let sites = owners(alloc, history)?;
    let mut out = List::new(alloc);
    for s in sites.as_slice() {
        let log = decided_at(alloc, history, *s)?;
        out.add_copies(alloc, log.as_slice())?;
    }
    Ok(out)
}
