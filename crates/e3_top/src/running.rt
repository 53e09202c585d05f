// The run.
ghost use Rattle.std.specs.Prelude.{◌≡◌, ◌≢◌, ◌≤◌, ◌<◌, ◌⊎◌, ℕ, length, take};
ghost use Rattle.std.specs.Io.KnownBytes.{Appends};
ghost use Rattle.e3_fleet.specs.Over.{AreBlank};
ghost use Rattle.e3_outside.specs.Faults.{HasFailed};
ghost use Rattle.e3_top.specs.Outcomes.{HasText};
ghost use Rattle.e3_top.specs.Ran.{HasRun};

use crate::preparing::{Prepared, Response, Stop};
use crate::stage::Stage;
use e3_disk::{Disk, Drill};
use e3_outside::{Failed, Gate, Sink, Source, write_all};
use e3_world::History;
use std::alloc::Global;
use std::sync::Wait;
use std::thread::Threads;

/// The most entries that the history of a run has.
const MOST_ENTRIES: u32 = 2_000_000;

/// How a run ended: its status, what happened in it, and its disks, that of site 1 first. 0: done. 1: refused words.
/// 2: a refused scenario. 3: the source failed. 4: the sink failed. 5: memory ran out. 6: the history is full. 8: a history that
/// is not legal. 9: no trace.
#[derive(Drop)]
pub struct Ended<D: Drop> {
    pub status: u8,
    pub history: History,
    pub disks: Vec<D>,
}

// Writes the text that is due.
fn finish<K: Sink, D: Drop>(
    due: Response,
    history: History,
    disks: Vec<D>,
    sink: &mut K,
) -> Ended<D>
    requires { HasText due.status }
    ensures history { result.history.entries ≡ history.entries }
    ensures disks { result.disks.items ≡ disks.items }
    ensures written { result.status ≢ 4 → (result.status ≡ due.status) × Appends (K.written sink.old) (K.written sink.new) due.text }
    ensures failed { result.status ≡ 4 → HasFailed (K.faults sink.old) (K.faults sink.new) × ((count : ℕ) × (count < length due.text)
        × Appends (K.written sink.old) (K.written sink.new) (take count due.text)) }
    ensures known { HasText result.status ⊎ (result.status ≡ 4) }
    ensures status { (result.status ≡ due.status) ⊎ (result.status ≡ 4) }
    ensures counts { K.faults sink.old ≤ K.faults sink.new }
{
    match write_all(sink, due.text.as_slice()) {
        Ok(()) => Ended {
            status: due.status,
            history,
            disks,
        },
        Err(Failed) => Ended {
            status: 4,
            history,
            disks,
        },
    }
}

/// Does what the words ask for: runs the scenario that the source has over these disks, and writes its report to the sink;
/// writes the generated scenario of a number; runs that one, and writes its summary; or judges the history that is printed
/// behind the source's scenario, and writes the verdict. A history that is played has at most so many entries.
///
/// The words are those of the command line behind the program's name. The order is: the words; for a run the source and the
/// scenario; for a run and a drill the play; for a verdict the source, the scenario, the trace and the judge; at last the sink.
/// Each text is whole before its first byte is written. Want of memory, status 5, may come at any time before. Site k has the
/// k-th disk; there are sixteen, each blank, powered and not armed, and they come back in their order. The sites work side by
/// side, in threads; each passes the gate before each turn of work, in which it takes one packet or a few.
pub fn run_within<
    S: Source,
    K: Sink,
    D: Disk + Drill + Drop + Send,
    G: Gate + Sync,
    R: Wait + Threads + Sync,
>(
    rt: &R,
    alloc: Global,
    words: &[String],
    source: &mut S,
    sink: &mut K,
    disks: Vec<D>,
    gate: &G,
    most: u32,
) -> Ended<D>
    requires sixteen { length disks.items ≡ 16 }
    requires blank { AreBlank D.meaning disks.items }
    requires least { 1 ≤ most }
    requires most { most ≤ 2000000 }
    ensures ran { HasRun D.meaning S.left S.faults K.written K.faults words.now most
        (record { disks = disks.items; source = source.old; sink = sink.old }) (record { disks = result.disks.items; source = source.new; sink = sink.new })
        result.status result.history.entries }
{
    let stage = Stage {
        rt,
        alloc,
        words,
        gate,
        most,
    };
    let Prepared {
        due,
        history,
        disks,
    } = stage.prepare(source, disks);
    match due {
        Ok(due) => finish(due, history, disks, sink),
        Err(Stop::SourceFailed) => Ended {
            status: 3,
            history,
            disks,
        },
        Err(Stop::NoMemory) => Ended {
            status: 5,
            history,
            disks,
        },
    }
}

/// Does what the words ask for: `run_within` with the most entries that a history has, 2,000,000.
pub fn run<
    S: Source,
    K: Sink,
    D: Disk + Drill + Drop + Send,
    G: Gate + Sync,
    R: Wait + Threads + Sync,
>(
    rt: &R,
    alloc: Global,
    words: &[String],
    source: &mut S,
    sink: &mut K,
    disks: Vec<D>,
    gate: &G,
) -> Ended<D>
    requires sixteen { length disks.items ≡ 16 }
    requires blank { AreBlank D.meaning disks.items }
    ensures ran { HasRun D.meaning S.left S.faults K.written K.faults words.now 2000000
        (record { disks = disks.items; source = source.old; sink = sink.old }) (record { disks = result.disks.items; source = source.new; sink = sink.new })
        result.status result.history.entries }
{
    run_within(rt, alloc, words, source, sink, disks, gate, MOST_ENTRIES)
}
