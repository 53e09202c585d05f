// How a turn lock goes from thread to thread. Crews of one, two, four and sixteen threads put marks into one journal, each
// thread for an owner of its own. Printed is how many marks stand, and of how many owners all of them are there, in their
// order. Where it is asked, how many turns a second that were is printed in place of that, and how often the owner changed from
// one mark to the next.
ghost use Rattle.std.specs.Prelude.{◌≡◌, ℕ, ◌+◌, ◌<◌, length, IfOk, slice_index_or};
ghost use Rattle.e3_gate_runs.specs.declared.turns.worker.Worker.{Worker};

mod crew;
mod journal;
mod worker;

use crew::run;
use e3_report::Page;
use e3_types::NoMemory;
use journal::Mark;
use std::alloc::Global;
use std::rt::Clock;
use std::sync::Wait;
use std::thread::Threads;
use std::time::{Duration, Instant};
use worker::Worker;

const CREWS: [u32; 4] = [1, 2, 4, 16];

// How many marks each worker puts.
const COUNT: u64 = 1000;

const MOST_THREADS: usize = 16;

// How many turns a second a crew took, and how often the owner changed.
#[derive(Clone, Copy)]
struct Pace {
    turns: u64,
    changes: u64,
}

// Workers for the owners 1 to `size`.
fn crew_of(alloc: Global, size: u32) -> Result<Vec<Worker>, NoMemory>
    ensures size { IfOk result (λ v. length v.items ≡ size) }
    ensures owners { IfOk result (λ v. (i : ℕ) (d : Worker) → i < size → (slice_index_or v.items i d).owner ≡ i + 1) }
{
    let mut workers = Vec::new(alloc);
    for place in 0..size {
        let worker = Worker {
            owner: place + 1,
            count: COUNT,
            pass: None,
            done: false,
        };
        match workers.push(worker) {
            Ok(()) => {}
            Err(_) => return Err(NoMemory),
        }
    }
    Ok(workers)
}

// Whether the owner has this many marks, numbered from 0.
fn is_in_order(marks: &[Mark], owner: u32, count: u64) -> bool {
    let mut next: u64 = 0;
    for mark in marks.iter() {
        if mark.owner == owner {
            if mark.number != next {
                return false;
            }
            next = next.wrapping_add(1);
        }
    }
    next == count
}

// Adds what a crew of this size did.
fn push_crew<R: Wait + Threads + Sync>(
    rt: &R,
    alloc: Global,
    page: &mut Page,
    size: u32,
) -> Result<(), NoMemory> {
    let mut workers = crew_of(alloc, size)?;
    let marks = run(rt, alloc, &mut workers, MOST_THREADS)?;
    let in_order = workers
        .iter()
        .filter(|worker| worker.done && is_in_order(&marks, worker.owner, COUNT))
        .count();
    page.labelled("threads ", u64::from(size));
    page.labelled(": ", marks.len() as u64);
    page.labelled(" marks, of ", in_order as u64);
    page.text(" owners in order\n");
    Ok(())
}

/// Adds what each crew did.
pub fn push_lines<R: Wait + Threads + Sync>(rt: &R, alloc: Global, page: &mut Page) {
    page.text("== turns\n");
    for size in CREWS {
        if push_crew(rt, alloc, page, size).is_err() {
            page.lack();
        }
    }
}

// How often the owner changes from one mark to the next.
fn changes_in(marks: &[Mark]) -> u64 {
    let mut changes: u64 = 0;
    let mut before = None;
    for mark in marks.iter() {
        if before != Some(mark.owner) {
            changes = changes.wrapping_add(1);
        }
        before = Some(mark.owner);
    }
    changes
}

fn turns_a_second(marks: usize, elapsed: Duration) -> u64 {
    let rate = marks as u128 * 1_000_000 / elapsed.as_micros().max(1);
    u64::try_from(rate).unwrap_or(u64::MAX)
}

// How fast a crew of this size is; want of a clock counts as want of memory.
fn pace_of<R: Wait + Threads + Clock + Sync>(
    rt: &R,
    alloc: Global,
    size: u32,
) -> Result<Pace, NoMemory> {
    let mut workers = crew_of(alloc, size)?;
    let start = Instant::now(rt).map_err(|_| NoMemory)?;
    let marks = run(rt, alloc, &mut workers, MOST_THREADS)?;
    let elapsed = start.elapsed(rt).map_err(|_| NoMemory)?;
    Ok(Pace {
        turns: turns_a_second(marks.len(), elapsed),
        changes: changes_in(&marks),
    })
}

fn push_pace(page: &mut Page, size: u32, pace: Pace) {
    page.labelled("threads ", u64::from(size));
    page.labelled(": ", pace.turns);
    page.labelled(" turns a second, ", pace.changes);
    page.text(" changes of owner\n");
}

/// Adds how fast each crew is.
pub fn push_paces<R: Wait + Threads + Clock + Sync>(rt: &R, alloc: Global, page: &mut Page) {
    for size in CREWS {
        match pace_of(rt, alloc, size) {
            Ok(pace) => push_pace(page, size, pace),
            Err(NoMemory) => page.lack(),
        }
    }
}
