// What a run is given, and the run.
use crate::texts::{cut, number, without_space};
use e3_disk::MemDisk;
use e3_fleet::memory_disks;
use e3_outside::{Gate, MemSink, MemSource, OpenGate};
use e3_top::{Ended, run_within};
use e3_types::List;
use std::alloc::Global;
use std::sync::Wait;
use std::thread::Threads;

// Room for each report.
const MOST_WRITTEN: u64 = 1_048_576;

/// What a run is given: the text of its source, and settings, as `read 7, take 11`, by the first letters of their names. These
/// are its words, the most bytes that a read gives and a take of the sink has, the capacity of its disks, the most entries of
/// its history; and the call of the source, of the sink, as `output`, and of the disk of site 1 that fails, counted from 1.
#[derive(Clone, Copy)]
pub struct Given<'a> {
    text: &'a [u8],
    settings: &'a [u8],
}

impl<'a> Given<'a> {
    /// The scenario of this text, with nothing in its way.
    pub fn of(text: &'a [u8]) -> Given<'a> {
        Given {
            text,
            settings: b"",
        }
    }

    /// With these settings.
    pub fn with(text: &'a [u8], settings: &'a [u8]) -> Given<'a> {
        Given { text, settings }
    }

    /// The text of its source.
    pub fn text(&self) -> &'a [u8] {
        self.text
    }

    // What is set by this letter.
    fn value(&self, letter: u8) -> Option<&'a [u8]> {
        for setting in self.settings.split(|byte| *byte == b',') {
            let (name, value) = cut(without_space(setting), b' ');
            if name.starts_with(&[letter]) {
                return Some(value);
            }
        }
        None
    }

    // The number that is set by this letter, or else this one.
    fn number(&self, letter: u8, other: u64) -> u64 {
        match self.value(letter) {
            Some(value) => number(value),
            None => other,
        }
    }
}

/// What is asked of a text: the name that is printed of it, the text, and settings.
#[derive(Clone, Copy)]
pub struct Asked<'a> {
    pub name: &'a [u8],
    pub text: &'a [u8],
    pub settings: &'a [u8],
}

impl<'a> Asked<'a> {
    /// What a run of it is given.
    pub fn given(&self) -> Given<'a> {
        Given::with(self.text, self.settings)
    }
}

/// What a run leaves.
#[derive(Drop)]
pub struct Ran {
    pub ended: Ended<MemDisk>,
    pub source: MemSource,
    pub sink: MemSink,
}

// A word as a text; none without memory.
fn word_of(alloc: Global, word: &[u8]) -> Option<String> {
    match str::from_utf8(word) {
        Ok(word) => String::from_str(alloc, word).ok(),
        Err(_) => None,
    }
}

fn words_of(alloc: Global, words: &[u8]) -> Option<Vec<String>> {
    let mut out = Vec::new(alloc);
    for word in words.split(|byte| *byte == b' ') {
        if !word.is_empty() {
            out.push(word_of(alloc, word)?).ok()?;
        }
    }
    Some(out)
}

// The calls that fail: the one that is set by this letter.
fn fails(alloc: Global, given: &Given, letter: u8) -> Option<List<u64>> {
    let mut calls = List::new(alloc);
    let call = given.number(letter, 0);
    if call > 0 && calls.push(call).is_err() {
        return None;
    }
    Some(calls)
}

fn source_of(alloc: Global, given: &Given) -> Option<MemSource> {
    let mut text = List::new(alloc);
    text.extend(given.text).ok()?;
    let fails = fails(alloc, given, b's')?;
    Some(MemSource::new(text, given.number(b'r', 4096).max(1), fails))
}

fn sink_of(alloc: Global, given: &Given) -> Option<MemSink> {
    let fails = fails(alloc, given, b'o')?;
    MemSink::new(alloc, MOST_WRITTEN, given.number(b't', 65536).max(1), fails).ok()
}

// The most entries that are set, of 2,000,000.
fn entries_of(given: &Given) -> u32 {
    let most = given.number(b'e', 2_000_000);
    if most <= 2_000_000 {
        most as u32
    } else {
        2_000_000
    }
}

// What a run reads and writes.
#[derive(Drop)]
struct Streams {
    source: MemSource,
    sink: MemSink,
}

fn streams_of(alloc: Global, given: &Given) -> Option<Streams> {
    let source = source_of(alloc, given)?;
    match sink_of(alloc, given) {
        Some(sink) => Some(Streams { source, sink }),
        None => {
            drop(source);
            None
        }
    }
}

fn left_by(ended: Ended<MemDisk>, streams: Streams) -> Ran {
    let Streams { source, sink } = streams;
    Ran {
        ended,
        source,
        sink,
    }
}

/// The run behind a gate; none without memory. (A value that owns much is handed to `drop`, here and in the other parts: so its proof
/// gives it back by one call.)
pub fn played_behind<G: Gate + Sync, R: Wait + Threads + Sync>(
    rt: &R,
    alloc: Global,
    given: &Given,
    gate: &G,
) -> Option<Ran> {
    let words = words_of(alloc, given.value(b'w').unwrap_or(b"run"))?;
    let fails = fails(alloc, given, b'd')?;
    let capacity = given.number(b'c', 65536).max(2).min(1_048_576);
    let mut streams = streams_of(alloc, given)?;
    match memory_disks(alloc, capacity, 1, fails) {
        Ok(disks) => {
            let (source, sink) = (&mut streams.source, &mut streams.sink);
            let most = entries_of(given).max(1).min(2_000_000);
            let ended = run_within(rt, alloc, &words, source, sink, disks, gate, most);
            Some(left_by(ended, streams))
        }
        Err(_) => {
            drop(streams);
            None
        }
    }
}

/// The run with no gate in its way; none without memory.
pub fn played<R: Wait + Threads + Sync>(rt: &R, alloc: Global, given: &Given) -> Option<Ran> {
    played_behind(rt, alloc, given, &OpenGate)
}
