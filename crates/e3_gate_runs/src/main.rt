//! What runs come to: the rounds of their recoveries, what both judges say of their histories, two sites at work at once, how the
//! turn lock goes from thread to thread, and how runs end, are judged, and stand on their disks. Each part stands behind a line
//! `== NAME`, in the standard input where it reads any, and in the file of this program's output.
//!
//! With a word the program prints no part: `--time` asks how fast the turn lock is, and `--judge` what is said of a run of the one
//! scenario in the standard input.
#![tactic(auto)]

mod at_once;
mod audits;
mod given;
mod judged;
mod playing;
mod rounds;
mod texts;
mod turns;

use e3_report::Page;
use std::alloc::Global;
use std::env;
use std::process::ExitCode;
use std::sync::Wait;
use std::thread::Threads;

/// Where memory is lacking for the words.
const NO_MEMORY: u8 = 5;

/// For words that ask for nothing.
const REFUSED: u8 = 1;

// What the words ask for.
#[derive(Clone, Copy)]
enum Wanted {
    Parts,
    TurnTimes,
    Judged,
}

// The words behind the program's name; none without memory.
fn words_of(rt: &HostRuntime, alloc: Global) -> Option<Vec<String>> {
    let mut words = Vec::new(alloc);
    for word in env::args(rt).ok()?.skip(1) {
        words.push(word).ok()?;
    }
    Some(words)
}

// What these words ask for; none for others.
fn read_words(words: &[String]) -> Option<Wanted> {
    match words {
        [] => Some(Wanted::Parts),
        [word] if word.as_str() == "--time" => Some(Wanted::TurnTimes),
        [word] if word.as_str() == "--judge" => Some(Wanted::Judged),
        _ => None,
    }
}

// Adds each part.
fn push_parts<R: Wait + Threads + Sync>(rt: &R, alloc: Global, page: &mut Page, given: &Page) {
    rounds::push_lines(rt, alloc, page);
    audits::push_lines(rt, alloc, page, given);
    at_once::push_lines(rt, alloc, page);
    turns::push_lines(rt, alloc, page);
    judged::push_lines(rt, alloc, page, given);
}

fn main(rt: HostRuntime) -> ExitCode {
    let alloc = rt.alloc();
    let Some(words) = words_of(&rt, alloc) else {
        return ExitCode::from(NO_MEMORY);
    };
    let Some(wanted) = read_words(&words) else {
        return ExitCode::from(REFUSED);
    };
    let mut page = Page::new(alloc);
    match wanted {
        Wanted::Parts => {
            let given = Page::read(alloc, rt.reader());
            push_parts(&rt, alloc, &mut page, &given);
        }
        Wanted::TurnTimes => turns::push_paces(&rt, alloc, &mut page),
        Wanted::Judged => {
            let given = Page::read(alloc, rt.reader());
            judged::push_one(&rt, alloc, &mut page, &given);
        }
    }
    page.print(&rt)
}
