// A walk over a history, entry by entry.
ghost use Rattle.std.specs.Prelude.{◌≡◌, ◌≤◌, ◌<◌, ◌+◌, ◌++◌, ◌∷◌, [], true, length, take, IfOk};
ghost use Rattle.e3_judge.specs.audit.Seats.{Stands};
ghost use Rattle.e3_judge.specs.audit.Walks.{IsWalked};
ghost use Rattle.e3_readings.specs.Bindings.{bound_behind, nothing_bound};

use crate::Prefix;
use crate::audit::auditor::Auditor;
use crate::audit::stepping::SeenStep;
use e3_readings::{BoundNames, bind, nothing_bound};
use e3_types::{Act, Entry, NoMemory, Scenario};
use std::alloc::Global;

/// How many entries were passed, which are legal; and whether that is all of them, and all before the next line is through.
/// What is not passed, or not through, may be so all the same.
#[derive(Clone, Copy)]
pub(crate) struct Walked {
    pub passed: usize,
    pub through: bool,
}

impl Auditor {
    // Goes on over an entry of the driver, where it is seen to be legal.
    fn enter_by_driver(
        &mut self,
        prefix: &Prefix<'_>,
        binding: &BoundNames,
        entry: &Entry,
    ) -> Result<bool, NoMemory>
        requires stands { Stands prefix.now.scenario.now prefix.now.entries.now self.old }
        requires driver { entry.now.owner ≡ 0 }
        requires bound { binding.now ≡ bound_behind prefix.now.scenario.now prefix.now.entries.now }
        ensures { IfOk result (λ on. on ≡ true → Stands prefix.now.scenario.now (prefix.now.entries.now ++ entry.now ∷ []) self.new) }
    {
        match &entry.act {
            Act::Line { number } => self.line(prefix, binding, *number),
            Act::Drop { packet } => Ok(self.lose(prefix, *packet)),
            Act::Parts { .. } => self.part(prefix, entry),
            _ => Ok(false),
        }
    }

    // Goes on over an entry of a site of the scenario, where it is seen to be legal.
    fn enter_by_site(
        &mut self,
        prefix: &Prefix<'_>,
        entry: &Entry,
        after: &[Entry],
    ) -> Result<bool, NoMemory>
        requires stands { Stands prefix.now.scenario.now prefix.now.entries.now self.old }
        requires some { 1 ≤ entry.now.owner }
        requires exists { entry.now.owner ≤ length prefix.now.scenario.now.weights }
        requires after { after.now ≡ prefix.now.entries.now ++ entry.now ∷ [] }
        ensures { IfOk result (λ on. on ≡ true → Stands prefix.now.scenario.now (prefix.now.entries.now ++ entry.now ∷ []) self.new) }
    {
        let site = entry.owner;
        let sent = self.net.sent();
        match &entry.act {
            Act::Step {
                input,
                records,
                outs,
                told,
            } => self.step(
                prefix,
                &SeenStep {
                    site,
                    sent,
                    input,
                    records: records.as_slice(),
                    outs: outs.as_slice(),
                    told: told.as_slice(),
                },
            ),
            Act::Fall {
                inputs,
                records,
                why,
            } => self.fall(
                prefix,
                entry,
                site,
                inputs.as_slice(),
                records.as_slice(),
                *why,
            ),
            Act::Line { .. } | Act::Drop { .. } | Act::Parts { .. } => Ok(false),
            _ => self.turn(prefix, after, entry),
        }
    }

    // Goes on over an entry, where it is seen to be legal.
    fn enter(
        &mut self,
        prefix: &Prefix<'_>,
        after: &[Entry],
        binding: &BoundNames,
        entry: &Entry,
    ) -> Result<bool, NoMemory>
        requires stands { Stands prefix.now.scenario.now prefix.now.entries.now self.old }
        requires after { after.now ≡ prefix.now.entries.now ++ entry.now ∷ [] }
        requires bound { binding.now ≡ bound_behind prefix.now.scenario.now prefix.now.entries.now }
        ensures { IfOk result (λ on. on ≡ true → Stands prefix.now.scenario.now (prefix.now.entries.now ++ entry.now ∷ []) self.new) }
    {
        if entry.owner == 0 {
            return self.enter_by_driver(prefix, binding, entry);
        }
        if entry.owner as u64 > prefix.scenario.weights.len() {
            return Ok(false);
        }
        self.enter_by_site(prefix, entry, after)
    }
}

// Goes on over the entry at this place and over the names that it binds, where the entry is seen to be legal.
fn pass(
    auditor: &mut Auditor,
    binding: &mut BoundNames,
    alloc: Global,
    scenario: &Scenario,
    history: &[Entry],
    at: usize,
) -> Result<bool, NoMemory>
    requires within { at < length history.now }
    requires stands { Stands scenario.now (take at history.now) auditor.old }
    requires bound { binding.old ≡ bound_behind scenario.now (take at history.now) }
    ensures stands { IfOk result (λ on. on ≡ true → Stands scenario.now (take (at + 1) history.now) auditor.new) }
    ensures bound { IfOk result (λ on. on ≡ true → binding.new ≡ bound_behind scenario.now (take (at + 1) history.now)) }
{
    let after = &history[..at + 1];
    let prefix = Prefix::of(alloc, scenario, &history[..at]);
    if !auditor.enter(&prefix, after, binding, &history[at])? {
        return Ok(false);
    }
    bind(alloc, scenario, &history[at..at + 1], binding)?;
    Ok(true)
}

// Walks over a history with what is kept of it and with the names that it binds, up to the first entry that is not seen to be
// legal.
fn walk_with(
    auditor: &mut Auditor,
    binding: &mut BoundNames,
    alloc: Global,
    scenario: &Scenario,
    history: &[Entry],
) -> Result<Walked, NoMemory>
    requires stands { Stands scenario.now [] auditor.old }
    requires bound { binding.old ≡ nothing_bound }
    ensures { IfOk result (IsWalked scenario.now history.now) }
{
    for at in 0..history.len() {
        if !pass(auditor, binding, alloc, scenario, history, at)? {
            return Ok(Walked {
                passed: at,
                through: false,
            });
        }
    }
    let through = auditor.is_through(&Prefix::of(alloc, scenario, history))?;
    Ok(Walked {
        passed: history.len(),
        through,
    })
}

/// Walks over a history with what is kept of it, up to the first entry that is not seen to be legal.
pub(crate) fn walk(
    alloc: Global,
    scenario: &Scenario,
    history: &[Entry],
) -> Result<Walked, NoMemory>
    ensures { IfOk result (IsWalked scenario.now history.now) }
{
    match Auditor::start(alloc, scenario)? {
        Some(mut auditor) => {
            let mut binding = nothing_bound(alloc);
            let walked = walk_with(&mut auditor, &mut binding, alloc, scenario, history);
            // (handed to `drop`, each is given back by one call)
            drop(binding);
            drop(auditor);
            walked
        }
        None => Ok(Walked {
            passed: 0,
            through: false,
        }),
    }
}
