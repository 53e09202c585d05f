// Two sites at work at the same time. Each takes a packet of the other's, and a gate holds it there until the other has
// come with its own: so both are in the midst of their turns at once. The program prints whether they met in each of its
// runs, and the report, which is the same in all. Behind that it prints how many calls of disks a group of commits makes, where
// workers take one packet in each turn of work, and where they take eight; and how many calls of its disk a node makes for one
// request for a vote, and for eight that it is given in one call.

mod batches;
mod meeting;
mod nodes;

use crate::given::{Given, Ran, played_behind};
use batches::push_batches;
use e3_outside::MemSink;
use e3_report::Page;
use meeting::Meeting;
use nodes::push_nodes;
use std::alloc::Global;
use std::sync::Wait;
use std::thread::Threads;

// How often it is run.
const RUNS: u32 = 20;

// Each site begins a transaction, and then writes at the other.
const SCENARIO: &str =
    "weights = [1, 1]\nsteps = [\n  [\"begin t 1 1,2\", \"begin u 2 1,2\"],\n  [\"write t 2.y a\", \"write u 1.x b\"],\n]\n";

// In how many runs the sites met, and how many reports are the first one.
#[derive(Clone, Copy)]
struct Tally {
    met: u64,
    same: u64,
}

// The report of a run behind this gate; none without memory.
fn reported<R: Wait + Threads + Sync>(rt: &R, alloc: Global, gate: &Meeting) -> Option<MemSink> {
    let Ran {
        ended,
        source,
        sink,
    } = played_behind(rt, alloc, &Given::of(SCENARIO.as_bytes()), gate)?;
    drop(ended);
    drop(source);
    Some(sink)
}

impl Tally {
    // Counts a run.
    fn count(&mut self, is_met: bool, is_same: bool) {
        if is_met {
            self.met = self.met.saturating_add(1);
        }
        if is_same {
            self.same = self.same.saturating_add(1);
        }
    }
}

// Runs it once more, and counts what that comes to beside the first report.
fn count_run<R: Wait + Threads + Sync>(
    rt: &R,
    alloc: Global,
    page: &mut Page,
    first: &[u8],
    tally: &mut Tally,
) {
    let gate = Meeting::new();
    match reported(rt, alloc, &gate) {
        Some(sink) => {
            tally.count(gate.is_met(), sink.written() == first);
            drop(sink);
        }
        None => page.lack(),
    }
}

// Adds what the runs come to beside the first report, and that report.
fn push_runs<R: Wait + Threads + Sync>(rt: &R, alloc: Global, page: &mut Page, first: &[u8]) {
    let mut tally = Tally { met: 0, same: 0 };
    for _ in 0..RUNS {
        count_run(rt, alloc, page, first, &mut tally);
    }
    page.labelled("runs in which they met: ", tally.met);
    page.labelled("\nreports that are this one: ", tally.same);
    page.text("\n");
    page.bytes(first);
}

/// Adds what the runs come to: in how many of them the sites met, and how many reports are the first one, which follows. Then
/// how many calls of disks a group of commits makes, and how many a node.
pub fn push_lines<R: Wait + Threads + Sync>(rt: &R, alloc: Global, page: &mut Page) {
    page.text("== at once\n");
    match reported(rt, alloc, &Meeting::new()) {
        Some(first) => push_runs(rt, alloc, page, first.written()),
        None => page.lack(),
    }
    push_batches(rt, alloc, page);
    push_nodes(rt, alloc, page);
}
