// Verdicts: each case of the rule of a decision, and what an elector concludes over the reports of its group.
//
// Lines of the input: `elector` with what the case shows, or `decision`, what the sites that report weigh, and what all sites
// do. The pieces are reports `SITE:STATE:ATTEMPT`. The rules come in their order, and by the reports of the greatest attempt
// those of a quorum.
use crate::texts::{cut, number, small, state_of, txn_of};
use e3_report::Page;
use e3_rule::{decide, verdict_of};
use e3_types::{List, SiteReport, SiteSet, State, Told, Verdict};
use std::alloc::Global;

/// What a site of this number reports.
pub fn report(site: u32, state: State, attempt: u32) -> SiteReport {
    SiteReport {
        site,
        state,
        attempt,
    }
}

// The reports of these pieces.
fn reports_of(alloc: Global, page: &mut Page, pieces: &[&[u8]]) -> List<SiteReport> {
    let mut reports = List::new(alloc);
    for piece in pieces {
        let (site, rest) = cut(piece, b':');
        let (state, attempt) = cut(rest, b':');
        let told = report(small(site), state_of(state), small(attempt));
        if reports.push(told).is_err() {
            page.lack();
        }
    }
    reports
}

// The sites of the transaction that is judged.
fn sites() -> SiteSet {
    SiteSet::one(1).with(2).with(3)
}

// Adds a verdict, as it is told of an election.
fn push_verdict(page: &mut Page, verdict: Verdict) {
    let txn = txn_of(1, sites());
    page.text(": ");
    page.told(&Told::Verdict { txn, n: 2, verdict });
    page.text("\n");
}

// Adds the verdict of a case over reports.
fn push_over(page: &mut Page, letter: u8, words: &[u8], reports: &[SiteReport]) {
    if letter == b'e' {
        page.text("verdict, ");
        page.bytes(words);
        push_verdict(page, verdict_of(&[1, 1, 1], sites(), reports));
    } else if !reports.is_empty() {
        let (have, total) = cut(words, b' ');
        page.text("rule");
        push_verdict(page, decide(reports, number(have), number(total)));
    }
}

/// Adds the verdict of a case over reports: by its letter what an elector concludes where sites of one weight report so, behind
/// what the case shows, or the verdict by the rule, where they weigh so much.
pub fn push_judged(alloc: Global, page: &mut Page, letter: u8, words: &[u8], pieces: &[&[u8]]) {
    let reports = reports_of(alloc, page, pieces);
    push_over(page, letter, words, reports.as_slice());
}
