// All workers at once, each in a thread of its own.
ghost use Rattle.std.specs.Prelude.{◌≡◌, ℕ, ◌+◌, ◌<◌, ◌^◌, length, All, slice_index_or, [], IfOk, true};
ghost use Rattle.e3_turn.specs.Chronicles.{down_from};
ghost use Rattle.e3_turn.specs.Passes.{IsIdle, last_of, owners_of, seen_by};
ghost use Rattle.e3_gate_runs.specs.declared.turns.worker.Worker.{Worker};
ghost use Rattle.e3_gate_runs.specs.Marks.{IsNumbered, marks_of, numbered};
ghost use Rattle.e3_gate_runs.specs.Workers.{AllWorked, CanWork, Dealt, HasPass, IsPassFor, gathered, left_after, seen_of};

use crate::turns::journal::{Journal, Mark};
use crate::turns::worker::{Worker, work};
use e3_turn::{Pass, TurnLock};
use e3_types::NoMemory;
use std::alloc::Global;
use std::sync::Wait;
use std::thread;
use std::thread::Threads;

fn work_all<R: Wait + Threads + Sync>(
    rt: &R,
    lock: &TurnLock<Journal>,
    workers: &mut [Worker],
    threads: usize,
)
    requires threads { 0 < threads }
    requires ready { All (CanWork lock.now) workers.old }
    ensures { AllWorked lock.now workers.old workers.new }
{
    thread::for_each_mut(rt, workers, threads, &|_, worker| work(rt, lock, worker));
}

/// Gives each worker a pass for its owner.
fn deal(lock: &TurnLock<Journal>, workers: &mut [Worker], pass: &mut Pass<Journal>)
    requires idle { IsIdle lock.now pass.old }
    requires owners { (owners_of pass.old ≡ down_from (length workers.old)) × (last_of pass.old ≡ length workers.old) }
    requires seen { seen_by pass.old ≡ [] }
    requires numbered { (i : ℕ) (d : Worker) → i < length workers.old → (slice_index_or workers.old i d).owner ≡ i + 1 }
    ensures idle { IsIdle lock.now pass.new }
    ensures owners { (owners_of pass.new ≡ left_after (length workers.old) (length workers.old)) × (last_of pass.new ≡ last_of pass.old) }
    ensures seen { seen_by pass.new ≡ [] }
    ensures dealt { (i : ℕ) (d : Worker) → i < length workers.old → Dealt lock.now (slice_index_or workers.old i d) (slice_index_or workers.new i d) }
{
    for worker in workers.iter_mut() {
        worker.pass = Some(lock.split(pass, worker.owner));
    }
}

fn take_pass(worker: &mut Worker, lock: &TurnLock<Journal>) -> Pass<Journal>
    requires { HasPass lock.now worker.old }
    ensures pass { IsPassFor lock.now worker.old.owner result }
    ensures seen { seen_by result ≡ seen_of worker.old }
    ensures same { (worker.new.owner ≡ worker.old.owner) × (worker.new.count ≡ worker.old.count) × (worker.new.done ≡ worker.old.done) }
{
    let Some(pass) = worker.pass.take() else {
        unreachable!()
    };
    pass
}

/// Takes the passes back.
fn gather(lock: &TurnLock<Journal>, workers: &mut [Worker], pass: &mut Pass<Journal>)
    requires idle { IsIdle lock.now pass.old }
    requires owners { owners_of pass.old ≡ left_after (length workers.old) (length workers.old) }
    requires workers { (i : ℕ) (d : Worker) → i < length workers.old → HasPass lock.now (slice_index_or workers.old i d) × ((slice_index_or workers.old i d).owner ≡ i + 1) }
    ensures idle { IsIdle lock.now pass.new }
    ensures owners { (owners_of pass.new ≡ gathered (length workers.old) (length workers.old)) × (last_of pass.new ≡ last_of pass.old) }
    ensures marks { (i : ℕ) (d : Worker) → i < length workers.old → marks_of (i + 1) (seen_by pass.new) ≡ marks_of (i + 1) (seen_of (slice_index_or workers.old i d)) }
    ensures same { (i : ℕ) (d : Worker) → i < length workers.old → (slice_index_or workers.new i d).done ≡ (slice_index_or workers.old i d).done }
{
    for worker in workers.iter_mut() {
        let theirs = take_pass(worker, lock);
        lock.join(pass, theirs);
    }
}

/// Each worker puts its marks into one journal, in a thread of its own where there are as many. The marks of each owner
/// stand in their order, all of them where its worker is done.
pub fn run<R: Wait + Threads + Sync>(
    rt: &R,
    alloc: Global,
    workers: &mut [Worker],
    threads: usize,
) -> Result<Vec<Mark>, NoMemory>
    requires threads { 0 < threads }
    requires few { length workers.old < 2 ^ 32 }
    requires numbered { (i : ℕ) (d : Worker) → i < length workers.old → (slice_index_or workers.old i d).owner ≡ i + 1 }
    ensures numbered { IfOk result (λ v. IsNumbered v.items) }
    ensures marks { IfOk result (λ v. (i : ℕ) (d : Worker) → i < length workers.old → (n : ℕ) × (marks_of (i + 1) v.items ≡ numbered (i + 1) 0 n) × ((slice_index_or workers.new i d).done ≡ true → n ≡ (slice_index_or workers.old i d).count)) }
{
    let (lock, mut pass) = TurnLock::open(alloc, Journal::new(alloc), workers.len() as u32)?;
    deal(&lock, workers, &mut pass);
    work_all(rt, &lock, workers, threads);
    gather(&lock, workers, &mut pass);
    Ok(lock.close(pass).into_marks())
}
