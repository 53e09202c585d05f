// Records that are the log of a site, or are out of order.
use crate::texts::push_count;
use e3_judge::{since_line, to_line};
use e3_report::Page;
use e3_site::{RebuildFault, first_disorder, rebuild};
use e3_types::{Act, Copied, Entry, List, NoMemory, Record};
use std::alloc::Global;

fn records_of(entry: &Entry) -> &[Record] {
    match &entry.act {
        Act::Step { records, .. } => records.as_slice(),
        _ => &[],
    }
}

fn push_place(page: &mut Page, place: Option<u64>) {
    match place {
        Some(at) => page.labelled(" out of order at ", at),
        None => page.text(" in order"),
    }
}

// The first place of a log that is out of order, as a rise finds it, with tables; where there is none, the site is added.
fn rebuilt(alloc: Global, page: &mut Page, site: u32, log: &[Record]) -> Option<u64> {
    if log.is_empty() {
        return None;
    }
    match rebuild(alloc, site, log) {
        Ok(site) => {
            page.labelled(" site ", u64::from(site.site()));
            page.labelled(", incarnation ", u64::from(site.inc()));
            page.labelled(", inputs ", u64::from(site.inputs()));
            push_count(page, ", open ", site.open_txns());
            drop(site);
            None
        }
        Err(RebuildFault::Order { at }) => Some(at),
        Err(RebuildFault::NoMemory) => {
            page.lack();
            None
        }
    }
}

// Adds the site that is rebuilt from a log, and the first place that is out of order; and the place that a look at the records
// finds, should it be another.
fn push_log(alloc: Global, page: &mut Page, site: u32, log: &[Record]) {
    let at_rise = rebuilt(alloc, page, site, log);
    push_place(page, at_rise);
    let place = first_disorder(site, log);
    if place != at_rise {
        page.text(", but");
        push_place(page, place);
    }
}

// The log with an entry's records behind it.
fn log_with(alloc: Global, log: &List<Record>, entry: &Entry) -> Result<List<Record>, NoMemory> {
    let mut more = log.copied(alloc)?;
    more.add_copies(alloc, records_of(entry))?;
    Ok(more)
}

// Adds what comes of each entry's records behind this log, each alone.
fn push_behind(alloc: Global, page: &mut Page, site: u32, log: &List<Record>, history: &[Entry]) {
    for entry in history {
        page.text(";");
        match log_with(alloc, log, entry) {
            Ok(more) => push_log(alloc, page, site, more.as_slice()),
            Err(NoMemory) => page.lack(),
        }
    }
}

/// The records of entries.
pub fn log_of(alloc: Global, history: &[Entry]) -> Result<List<Record>, NoMemory> {
    let mut log = List::new(alloc);
    for entry in history {
        log.add_copies(alloc, records_of(entry))?;
    }
    Ok(log)
}

/// Adds what comes of the records up to the last line of the driver, and of each entry's behind them, each alone.
pub fn push_logs(alloc: Global, page: &mut Page, history: &[Entry], site: u32) {
    let Ok(log) = log_of(alloc, to_line(history)) else {
        return page.lack();
    };
    push_log(alloc, page, site, log.as_slice());
    push_behind(alloc, page, site, &log, since_line(history));
}
