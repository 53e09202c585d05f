//! The program: `e3pc run` runs the scenario on standard input over disks in memory and writes its report to standard output;
//! `e3pc check` judges the history that stands there behind its scenario. It ends with the status of the run.
#![tactic(auto)]

use e3_fleet::memory_disks;
use e3_outside::{OpenGate, StdSink, StdSource};
use e3_types::List;
use std::alloc::Global;
use std::process::ExitCode;
use std::{env, io};

// The status of a run that wants for memory.
const NO_MEMORY: u8 = 5;

/// The capacity of the disk of a site, in bytes.
const CAPACITY: u64 = 33_554_432;

// The words behind the program's name; none without memory. Where one of them is no text they ask for nothing, as no words do.
fn words_of(rt: &HostRuntime, alloc: Global) -> Option<Vec<String>> {
    let mut words = Vec::new(alloc);
    let args = match env::args(rt) {
        Ok(args) => args,
        Err(error) => {
            return if error.kind() == io::ErrorKind::InvalidData {
                Some(words)
            } else {
                None
            };
        }
    };
    for word in args.skip(1) {
        words.push(word).ok()?;
    }
    Some(words)
}

fn main(rt: HostRuntime) -> ExitCode {
    let alloc = rt.alloc();
    let Some(words) = words_of(&rt, alloc) else {
        return ExitCode::from(NO_MEMORY);
    };
    let Ok(disks) = memory_disks(alloc, CAPACITY, 0, List::new(alloc)) else {
        return ExitCode::from(NO_MEMORY);
    };
    let mut source = StdSource::new(rt.reader());
    let mut sink = StdSink::new(io::writer(&rt));
    let ended = e3_top::run(&rt, alloc, &words, &mut source, &mut sink, disks, &OpenGate);
    ExitCode::from(ended.status)
}
