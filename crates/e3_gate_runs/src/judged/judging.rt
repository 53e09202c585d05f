// What the judge says of runs.
use crate::given::{Asked, Given, Ran, played};
use crate::judged::standing::count_standing;
use crate::texts::{cut, without_space};
use e3_disk::MemDisk;
use e3_judge::{is_whole, judge};
use e3_outside::MemSink;
use e3_report::Page;
use e3_scenario::read_scenario;
use e3_top::Ended;
use e3_types::Scenario;
use e3_world::History;
use std::alloc::Global;
use std::sync::Wait;
use std::thread::Threads;

const SOUND: &str = "legal, whole";

// What the judge says of a legal history; none without memory.
fn verdict_of_legal(alloc: Global, scenario: &Scenario, history: &History) -> Option<&'static str> {
    match is_whole(alloc, scenario, history) {
        Ok(true) => Some(SOUND),
        Ok(false) => Some("legal, not whole"),
        Err(_) => None,
    }
}

// What the judge says of a history; none without memory.
fn verdict_of(alloc: Global, scenario: &Scenario, history: &History) -> Option<&'static str> {
    match judge(alloc, scenario, history) {
        Ok(None) => verdict_of_legal(alloc, scenario, history),
        Ok(Some(_)) => Some("not legal"),
        Err(_) => None,
    }
}

// Adds what the judge says of a history.
fn push_verdict(alloc: Global, page: &mut Page, scenario: &Scenario, history: &History) {
    match verdict_of(alloc, scenario, history) {
        Some(said) => page.text(said),
        None => page.lack(),
    }
}

// Adds what is said of a run.
fn push_end(alloc: Global, page: &mut Page, scenario: &Scenario, ended: Ended<MemDisk>) {
    let Ended { history, disks, .. } = ended;
    push_verdict(alloc, page, scenario, &history);
    let standing = count_standing(alloc, page, scenario, history.as_slice(), disks);
    page.labelled(", disks standing ", standing);
    page.labelled(" of ", scenario.weights.len());
}

// The line is an event: it begins with the number of a site.
fn is_event(line: &[u8]) -> bool {
    matches!(line, [b'0'..=b'9', b':', ..])
}

// Adds a line that is an event.
fn push_event(page: &mut Page, line: &[u8]) {
    if is_event(line) {
        page.text(", ");
        page.bytes(line);
    }
}

// Adds the events of a report behind its first stop.
fn push_events(page: &mut Page, report: &[u8]) {
    let mut is_behind = false;
    for line in report.split(|byte| *byte == b'\n') {
        if line.starts_with(b"order") {
            return;
        }
        if is_behind {
            push_event(page, line);
        }
        is_behind = is_behind || line.starts_with(b"> stop ");
    }
}

// The scenario that a text spells; none where it spells none, or without memory.
fn scenario_of(alloc: Global, text: &[u8]) -> Option<Scenario> {
    read_scenario(alloc, text).ok()
}

// Adds what is said of a run of this scenario; its sink, which has its report, comes back.
fn push_outcome(alloc: Global, page: &mut Page, scenario: &Scenario, ran: Ran) -> MemSink {
    let Ran { ended, sink, .. } = ran;
    page.labelled("status ", u64::from(ended.status));
    page.labelled(", written ", sink.written().len() as u64);
    page.text(", ");
    push_end(alloc, page, scenario, ended);
    sink
}

// The same of a run of what is given; none without memory, or where its text spells no scenario.
fn run_of<R: Wait + Threads + Sync>(
    rt: &R,
    alloc: Global,
    page: &mut Page,
    given: &Given,
) -> Option<MemSink> {
    let scenario = scenario_of(alloc, given.text())?;
    let ran = played(rt, alloc, given)?;
    Some(push_outcome(alloc, page, &scenario, ran))
}

/// Adds the line of what is said of a run of what is given.
pub fn push_run_line<R: Wait + Threads + Sync>(
    rt: &R,
    alloc: Global,
    page: &mut Page,
    given: &Given,
) {
    if run_of(rt, alloc, page, given).is_none() {
        page.lack();
    }
    page.text("\n");
}

/// The same, behind its name.
pub fn push_judged<R: Wait + Threads + Sync>(
    rt: &R,
    alloc: Global,
    page: &mut Page,
    asked: &Asked,
) {
    page.bytes(asked.name);
    page.text(": ");
    push_run_line(rt, alloc, page, &asked.given());
}

// The text with these words for its `@`.
fn text_with(alloc: Global, text: &[u8], words: &[u8]) -> Page {
    let (front, back) = cut(text, b'@');
    let mut whole = Page::new(alloc);
    whole.bytes(front);
    whole.bytes(words);
    whole.bytes(back);
    whole
}

// Adds what is said of a run with these settings, and the events behind its stop.
fn push_stopped<R: Wait + Threads + Sync>(
    rt: &R,
    alloc: Global,
    page: &mut Page,
    text: &Page,
    settings: &[u8],
) {
    if !text.is_whole() {
        page.lack();
    }
    match run_of(rt, alloc, page, &Given::with(text.as_slice(), settings)) {
        Some(sink) => push_events(page, sink.written()),
        None => page.lack(),
    }
}

/// Adds the line of a run whose text has words for its `@`: what is said of it, and the events behind its stop. Behind the words
/// and a comma stand its settings.
pub fn push_stop<R: Wait + Threads + Sync>(rt: &R, alloc: Global, page: &mut Page, asked: &Asked) {
    let (words, settings) = cut(without_space(asked.settings), b',');
    let text = text_with(alloc, asked.text, words);
    page.bytes(asked.name);
    page.text(" ");
    page.bytes(words);
    page.text(": ");
    push_stopped(rt, alloc, page, &text, settings);
    page.text("\n");
}

// Whether the history of a run of this scenario is legal and whole; none without memory.
fn is_sound<R: Wait + Threads + Sync>(
    rt: &R,
    alloc: Global,
    scenario: &Scenario,
    text: &[u8],
) -> Option<bool> {
    let ran = played(rt, alloc, &Given::of(text))?;
    let said = verdict_of(alloc, scenario, &ran.ended.history)?;
    Some(said == SOUND)
}

// How many of four runs of this scenario are legal and whole.
fn count_sound<R: Wait + Threads + Sync>(
    rt: &R,
    alloc: Global,
    page: &mut Page,
    scenario: &Scenario,
    text: &[u8],
) -> u64 {
    let mut sound = 0u64;
    for _time in 0..4u32 {
        match is_sound(rt, alloc, scenario, text) {
            Some(true) => sound = sound.saturating_add(1),
            Some(false) => {}
            None => page.lack(),
        }
    }
    sound
}

/// Adds how many of four runs of this scenario are legal and whole.
pub fn push_group<R: Wait + Threads + Sync>(rt: &R, alloc: Global, page: &mut Page, asked: &Asked) {
    page.bytes(asked.name);
    page.text(": ");
    page.text(SOUND);
    match scenario_of(alloc, asked.text) {
        Some(scenario) => {
            let sound = count_sound(rt, alloc, page, &scenario, asked.text);
            page.labelled(" ", sound);
        }
        None => page.lack(),
    }
    page.text(" of 4\n");
}
