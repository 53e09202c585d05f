// How many calls of disks a group of commits makes: the packets that a site takes in one turn of work have one frame.
ghost use Rattle.std.specs.Prelude.{IfSome};
ghost use Rattle.e3_world.specs.Given.{IsGiven};

use crate::given::{Given, played};
use crate::playing::{CAPACITY, played_over};
use e3_disk::MemDisk;
use e3_fleet::Played;
use e3_outside::OpenGate;
use e3_report::Page;
use e3_scenario::read_scenario;
use e3_top::Ended;
use e3_types::Scenario;
use std::alloc::Global;
use std::sync::Wait;
use std::thread::Threads;

// In how many threads sites work.
const THREADS: usize = 4;

// Eight transactions of three sites begin at site 1, and write at site 2.
const THREE: &str =
    "weights = [1, 1, 1]\nsteps = [\n  [\"begin a 1 1,2,3\", \"begin b 1 1,2,3\", \"begin c 1 1,2,3\", \"begin d 1 1,2,3\", \"begin e 1 1,2,3\", \"begin f 1 1,2,3\", \"begin g 1 1,2,3\", \"begin h 1 1,2,3\"],\n";

// Eight transactions of two sites do so.
const TWO: &str =
    "weights = [1, 1]\nsteps = [\n  [\"begin a 1 1,2\", \"begin b 1 1,2\", \"begin c 1 1,2\", \"begin d 1 1,2\", \"begin e 1 1,2\", \"begin f 1 1,2\", \"begin g 1 1,2\", \"begin h 1 1,2\"],\n";

const WRITES: &str =
    "  [\"write a 2.a v\", \"write b 2.b v\", \"write c 2.c v\", \"write d 2.d v\", \"write e 2.e v\", \"write f 2.f v\", \"write g 2.g v\", \"write h 2.h v\"],\n";

const CRASH: &str = "  \"crash 3\",\n";

const COMMITS: &str =
    "  [\"commit a\", \"commit b\", \"commit c\", \"commit d\", \"commit e\", \"commit f\", \"commit g\", \"commit h\"],\n";

/// Steps that ask site 2 for its votes on eight transactions without operations.
pub const ASKED: [&str; 2] = [TWO, COMMITS];

// How many writes and syncs are asked of the disks of the sites 1 and 2.
#[derive(Clone, Copy)]
struct Calls {
    first: u64,
    second: u64,
}

// The calls of the first two of these disks.
fn calls_on(disks: &[MemDisk]) -> Option<Calls> {
    match disks {
        [first, second, ..] => Some(Calls {
            first: first.calls(),
            second: second.calls(),
        }),
        _ => None,
    }
}

// The calls of the disks that a play leaves; none where it did not come to its end.
fn calls_behind(played: &Played<MemDisk>) -> Option<Calls> {
    if played.ended.is_err() {
        return None;
    }
    calls_on(played.disks.as_slice())
}

// The calls by the end of a scenario; none without memory.
fn calls_at_end<R: Wait + Threads + Sync>(
    rt: &R,
    alloc: Global,
    scenario: &Scenario,
    packets: u32,
) -> Option<Calls>
    requires { IsGiven scenario.now }
{
    let played = played_over(rt, alloc, scenario, CAPACITY, &OpenGate, THREADS, packets)?;
    let calls = calls_behind(&played);
    drop(played);
    calls
}

// The text of the scenario of these steps.
fn text_of(alloc: Global, steps: &[&str]) -> Page {
    let mut text = Page::new(alloc);
    for step in steps {
        text.text(step);
    }
    text.text("]\n");
    text
}

/// The scenario of these steps; none without memory.
pub fn scenario_of(alloc: Global, steps: &[&str]) -> Option<Scenario>
    ensures { IfSome result IsGiven }
{
    let text = text_of(alloc, steps).done().ok()?;
    read_scenario(alloc, text.as_slice()).ok()
}

// The calls of the disks that a run leaves; none where it was refused.
fn calls_by(ended: &Ended<MemDisk>) -> Option<Calls> {
    if ended.status != 0 {
        return None;
    }
    calls_on(&ended.disks)
}

// The same by a run of the text of these steps, which says itself how many packets a worker takes.
fn calls_run<R: Wait + Threads + Sync>(rt: &R, alloc: Global, steps: &[&str]) -> Option<Calls> {
    let text = text_of(alloc, steps).done().ok()?;
    let ran = played(rt, alloc, &Given::of(text.as_slice()))?;
    let calls = calls_by(&ran.ended);
    drop(ran);
    calls
}

// The calls by the end of the scenario of these steps, with so many packets in one turn of work, or by a run where no number is
// given; none without memory.
fn calls_of<R: Wait + Threads + Sync>(
    rt: &R,
    alloc: Global,
    steps: &[&str],
    packets: Option<u32>,
) -> Option<Calls> {
    match packets {
        Some(packets) => {
            let scenario = scenario_of(alloc, steps)?;
            calls_at_end(rt, alloc, &scenario, packets)
        }
        None => calls_run(rt, alloc, steps),
    }
}

// The calls that came between these; none where any of them are missing.
fn between(before: Option<Calls>, behind: Option<Calls>) -> Option<Calls> {
    let (before, behind) = (before?, behind?);
    Some(Calls {
        first: behind.first.saturating_sub(before.first),
        second: behind.second.saturating_sub(before.second),
    })
}

// Adds the calls that were made with so many packets in one turn of work, or by a run.
fn push_calls(page: &mut Page, packets: Option<u32>, calls: Calls) {
    match packets {
        Some(packets) => page.labelled("packets in one turn of work: ", u64::from(packets)),
        None => page.text("by a run"),
    }
    page.labelled(", calls of the disk of site 1: ", calls.first);
    page.labelled(", of site 2: ", calls.second);
    page.text("\n");
}

// Adds the calls that the last of these steps makes, by one packet in each turn of work, by eight, and by a run.
fn push_made<R: Wait + Threads + Sync>(rt: &R, alloc: Global, page: &mut Page, steps: &[&str]) {
    let earlier = steps.get(..steps.len().saturating_sub(1)).unwrap_or(&[]);
    for packets in [Some(1u32), Some(8), None] {
        let before = calls_of(rt, alloc, earlier, packets);
        let behind = calls_of(rt, alloc, steps, packets);
        match between(before, behind) {
            Some(calls) => push_calls(page, packets, calls),
            None => page.lack(),
        }
    }
}

/// Adds how many calls of disks eight requests for votes make at a site, and a group of eight commits at its coordinator, where
/// workers take one packet or eight in each turn of work.
pub fn push_batches<R: Wait + Threads + Sync>(rt: &R, alloc: Global, page: &mut Page) {
    page.text("eight requests for votes at site 2, while site 3 is down\n");
    push_made(rt, alloc, page, &[THREE, WRITES, CRASH, COMMITS]);
    page.text("a group of eight commits at site 1\n");
    push_made(rt, alloc, page, &[TWO, WRITES, COMMITS]);
}
