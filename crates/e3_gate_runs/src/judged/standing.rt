// What the disks of a run read as, beside the logs of its history.
use e3_codec::{RecordFault, put_records, read_records};
use e3_disk::{Drill, MemDisk};
use e3_judge::{Prefix, Tail};
use e3_log::{Frame, Log, OpenCause, OpenRefused};
use e3_report::Page;
use e3_site::brief;
use e3_types::{Entry, List, NoMemory, Record, Scenario};
use std::alloc::Global;

// Opens a log over a disk, to which it gives power.
fn open<D: Drill + Drop>(
    alloc: Global,
    mut disk: D,
) -> Result<(Log<D>, List<Frame>), OpenRefused<D>> {
    disk.power_on();
    Log::open(alloc, disk)
}

// The bodies of frames, one behind the other.
fn bodies(alloc: Global, frames: &[Frame]) -> Page {
    let mut bytes = Page::new(alloc);
    for frame in frames {
        bytes.bytes(frame.body.as_slice());
    }
    bytes
}

// What is read of a disk that is not opened: nothing, for want of memory or as it is no log.
fn refused(alloc: Global, cause: OpenCause) -> Option<Page> {
    match cause {
        OpenCause::NoMemory => {
            let mut page = Page::new(alloc);
            page.lack();
            Some(page)
        }
        _ => None,
    }
}

// The bodies of the frames of a disk whose arm is not left, one behind the other; none where it reads as no log.
fn bodies_again<D: Drill + Drop>(alloc: Global, disk: D) -> Option<Page> {
    match open(alloc, disk) {
        Ok((_log, frames)) => Some(bodies(alloc, frames.as_slice())),
        Err(other) => refused(alloc, other.cause),
    }
}

// The same of any disk: an arm that was left makes a first try fail, and power comes again behind it.
fn bodies_on<D: Drill + Drop>(alloc: Global, disk: D) -> Option<Page> {
    match open(alloc, disk) {
        Ok((_log, frames)) => Some(bodies(alloc, frames.as_slice())),
        Err(
            OpenRefused {
                disk,
                cause: OpenCause::Failed,
            },
        ) => bodies_again(alloc, disk),
        Err(other) => refused(alloc, other.cause),
    }
}

// The brief of records, as a log spells it.
fn brief_of(alloc: Global, records: &[Record]) -> Result<List<u8>, NoMemory> {
    let short = brief(alloc, records)?;
    put_records(alloc, short.as_slice())
}

// The brief of what bodies spell; none where they are no records of the site.
fn brief_read(alloc: Global, site: u32, bodies: &[u8]) -> Result<Option<List<u8>>, NoMemory> {
    match read_records(alloc, site, bodies) {
        Ok(records) => Ok(Some(brief_of(alloc, records.as_slice())?)),
        Err(RecordFault::Bad { .. }) => Ok(None),
        Err(RecordFault::NoMemory) => Err(NoMemory),
    }
}

// Adds what is in doubt at a site to its log.
fn add_tail(log: &mut List<Record>, tail: Option<Tail>) -> Result<(), NoMemory> {
    if let Some(tail) = tail {
        for r in tail.records.into_vec() {
            log.push(r)?;
        }
    }
    Ok(())
}

// The brief of the log of a site, and that of the log with what is in doubt.
fn briefs_at(
    alloc: Global,
    scenario: &Scenario,
    history: &[Entry],
    site: u32,
) -> Result<(List<u8>, List<u8>), NoMemory> {
    let all = Prefix::of(alloc, scenario, history);
    let mut log = all.log_at(site)?;
    let before = brief_of(alloc, log.as_slice())?;
    add_tail(&mut log, all.tail_at(site)?)?;
    Ok((before, brief_of(alloc, log.as_slice())?))
}

// Whether these bodies have the brief of the log of a site, with or without what is in doubt.
fn have_brief(
    alloc: Global,
    scenario: &Scenario,
    history: &[Entry],
    site: u32,
    bodies: &[u8],
) -> Result<bool, NoMemory> {
    let (before, with) = briefs_at(alloc, scenario, history, site)?;
    match brief_read(alloc, site, bodies)? {
        Some(read) => {
            Ok(read.as_slice() == before.as_slice() || read.as_slice() == with.as_slice())
        }
        None => Ok(false),
    }
}

// The same, where memory is wanting that is said.
fn are_log(
    alloc: Global,
    page: &mut Page,
    scenario: &Scenario,
    history: &[Entry],
    site: u32,
    bodies: &[u8],
) -> bool {
    match have_brief(alloc, scenario, history, site, bodies) {
        Ok(have) => have,
        Err(NoMemory) => {
            page.lack();
            false
        }
    }
}

// Whether a disk reads as the log of a site, with or without what is in doubt.
fn is_standing(
    alloc: Global,
    page: &mut Page,
    scenario: &Scenario,
    history: &[Entry],
    site: u32,
    disk: MemDisk,
) -> bool {
    let Some(bodies) = bodies_on(alloc, disk) else {
        return false;
    };
    if !bodies.is_whole() {
        page.lack();
    }
    are_log(alloc, page, scenario, history, site, bodies.as_slice())
}

/// At how many sites of a scenario the disk stands for the site. The first disk is that of site 1.
pub fn count_standing(
    alloc: Global,
    page: &mut Page,
    scenario: &Scenario,
    history: &[Entry],
    disks: Vec<MemDisk>,
) -> u64 {
    let sites = scenario.weights.len();
    let mut count = 0u64;
    let mut site = 0u32;
    for disk in disks {
        site = site.saturating_add(1);
        if u64::from(site) <= sites && is_standing(alloc, page, scenario, history, site, disk) {
            count = count.saturating_add(1);
        }
    }
    count
}
