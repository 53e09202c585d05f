//! Worked cases of the layers below a run, of its parts, and of sites: what is read off their logs and histories, and their
//! logs in two regions. Then texts that are read: scenarios and their faults, a report and a trace, verdicts on traces, and the
//! generated scenarios.
//! Each part stands behind a line `== NAME`, in the standard input where it reads any, and in the file of this program's output.
//! A case of the layers or of the parts is a line of pieces with bars between them, which `texts` tells; a case of the regions is a
//! disk's capacity and words, which `disks` tells. Each other file says how its lines are read.
#![tactic(auto)]

mod answers;
mod cases;
mod checks;
mod disks;
mod forms;
mod generated;
mod layers;
mod parts;
mod regions;
mod sites;
mod texts;

use e3_report::Page;
use std::process::ExitCode;

fn main(rt: HostRuntime) -> ExitCode {
    let given = Page::read(rt.alloc(), rt.reader());
    let mut page = Page::new(rt.alloc());
    layers::push_lines(rt.alloc(), &mut page, &given);
    parts::push_lines(rt.alloc(), &mut page, &given);
    sites::push_lines(rt.alloc(), &mut page, &given);
    regions::push_lines(rt.alloc(), &mut page, &given);
    forms::push_lines(rt.alloc(), &mut page, &given);
    checks::push_lines(rt.alloc(), &mut page, &given);
    generated::push_lines(rt.alloc(), &mut page);
    page.print(&rt)
}
