// What a verdict reads as.
use e3_report::Page;
use e3_types::Verdict;

fn push_verdict(page: &mut Page, verdict: Verdict) {
    match verdict {
        Verdict::Abort => page.text("abort"),
        Verdict::Commit => page.text("commit"),
        Verdict::PreCommit => page.text("pre-commit"),
        Verdict::PreAbort => page.text("pre-abort"),
        Verdict::Block { have, total } => {
            page.labelled("block ", have);
            page.labelled(" of ", total);
        }
    }
}

/// Adds a verdict, or that there is none.
pub fn push_verdict_or_none(page: &mut Page, verdict: Option<Verdict>) {
    match verdict {
        Some(verdict) => push_verdict(page, verdict),
        None => page.text("no verdict"),
    }
}
