// The lines of what happens at a site.
ghost use Rattle.std.specs.Prelude.{◌≡◌, ◌++◌, codes};
ghost use Rattle.std.specs.Fmt.{decimal};
ghost use Rattle.std.specs.List.{flat_map};
ghost use Rattle.e3_report.specs.Pages.{Adds};
ghost use Rattle.e3_report.specs.lines.Events.{answer_text, ended_text, doom_text, refusal_text, refused_text, verdict_text, op_text, election_text, told_of, of_txn, told_text, told_line, why_text, at_site, rise_line, failure_text, failed_rise_line, fall_line, word_line, act_lines, entry_lines};

use crate::Page;
use crate::lines::texts::{
    push_kept, push_word_and_bytes, push_word_and_dir, push_word_and_sites, push_word_and_state,
    push_word_and_txn,
};
use e3_types::{Act, Answer, Dir, Entry, Refusal, Told, Txn, Verdict, Why};

impl Page {
    /// Adds the answer to an operation.
    #[tactic(auto, unfolding(crate::specs::lines::Events::answer_text))]
    pub fn answer(&mut self, answer: &Answer)
        ensures { Adds self.old self.new (answer_text answer.now) }
    {
        match answer {
            Answer::Written => self.text("written"),
            Answer::Absent => self.text("absent"),
            Answer::Value(val) => push_word_and_bytes(self, "value ", val.bytes()),
        }
    }

    /// Adds the transaction, and what is told of it.
    #[tactic(auto, unfolding(crate::specs::lines::Events::told_text))]
    pub fn told(&mut self, told: &Told)
        ensures { Adds self.old self.new (told_text told.now) }
    {
        self.txn(of_txn(told));
        self.text(" ");
        push_told_of(self, told);
    }
}

#[tactic(auto, unfolding(crate::specs::lines::Events::ended_text))]
fn push_ended(page: &mut Page, dir: Dir)
    ensures { Adds page.old page.new (ended_text dir) }
{
    match dir {
        Dir::Commit => page.text("committed"),
        Dir::Abort => page.text("aborted"),
    }
}

#[tactic(auto, unfolding(crate::specs::lines::Events::doom_text))]
fn push_doom(page: &mut Page, site: u32, had: u32, now: u32)
    ensures { Adds page.old page.new (doom_text site had now) }
{
    page.labelled("doomed ", site as u64);
    page.labelled(" ", had as u64);
    page.labelled(" ", now as u64);
}

#[tactic(auto, unfolding(crate::specs::lines::Events::refusal_text))]
fn push_refusal(page: &mut Page, refusal: Refusal)
    ensures { Adds page.old page.new (refusal_text refusal) }
{
    match refusal {
        Refusal::NoTxn => page.text("no-transaction"),
        Refusal::Busy { op } => page.labelled("busy ", op as u64),
        Refusal::Over { dir } => push_word_and_dir(page, "over ", dir),
        Refusal::Died { older } => push_word_and_txn(page, "died ", &older),
        Refusal::Doomed { site, had, now } => push_doom(page, site, had, now),
        Refusal::TooLate { attempt } => page.labelled("too-late ", attempt as u64),
    }
}

#[tactic(auto, unfolding(crate::specs::lines::Events::refused_text))]
fn push_refused(page: &mut Page, refusal: Refusal)
    ensures { Adds page.old page.new (refused_text refusal) }
{
    page.text("refused ");
    push_refusal(page, refusal);
}

// Adds a word, and how much there is of how much behind it.
fn push_part_of_whole(page: &mut Page, word: &str, part: u64, whole: u64)
    ensures { Adds page.old page.new (word.now ++ decimal part ++ codes " of " ++ decimal whole) }
{
    page.labelled(word, part);
    page.labelled(" of ", whole);
}

#[tactic(auto, unfolding(crate::specs::lines::Events::verdict_text, crate::specs::lines::Events::block_text))]
fn push_verdict(page: &mut Page, verdict: Verdict)
    ensures { Adds page.old page.new (verdict_text verdict) }
{
    match verdict {
        Verdict::Abort => page.text("abort"),
        Verdict::Commit => page.text("commit"),
        Verdict::PreCommit => page.text("pre-commit"),
        Verdict::PreAbort => page.text("pre-abort"),
        Verdict::Block { have, total } => push_part_of_whole(page, "block ", have, total),
    }
}

#[tactic(auto, unfolding(crate::specs::lines::Events::op_text))]
fn push_op(page: &mut Page, n: u32, answer: &Answer)
    ensures { Adds page.old page.new (op_text n answer.now) }
{
    page.labelled("op ", n as u64);
    page.text(" ");
    page.answer(answer);
}

#[tactic(auto, unfolding(crate::specs::lines::Events::election_text))]
fn push_election(page: &mut Page, n: u32, verdict: Verdict)
    ensures { Adds page.old page.new (election_text n verdict) }
{
    page.labelled("election ", n as u64);
    page.text(" ");
    push_verdict(page, verdict);
}

#[tactic(auto, unfolding(crate::specs::lines::Events::told_of, crate::specs::lines::Events::began_text, crate::specs::lines::Events::died_text, crate::specs::lines::Events::kept_state_text))]
fn push_told_of(page: &mut Page, told: &Told)
    ensures { Adds page.old page.new (told_of told.now) }
{
    match told {
        Told::Began { txn } => push_word_and_sites(page, "began ", txn.sites),
        Told::Op { n, answer, .. } => push_op(page, *n, answer),
        Told::Ended { dir, .. } => push_ended(page, *dir),
        Told::Died { older, .. } => push_word_and_txn(page, "died for ", older),
        Told::Doomed { site, had, now, .. } => push_doom(page, *site, *had, *now),
        Told::Refused { refusal, .. } => push_refused(page, *refusal),
        Told::Kept { state, .. } => push_word_and_state(page, "kept ", *state),
        Told::Verdict { n, verdict, .. } => push_election(page, *n, *verdict),
    }
}

/// The transaction of which an event tells.
fn of_txn(told: &Told) -> &Txn
    ensures { result.now ≡ of_txn told.now }
{
    match told {
        Told::Began { txn }
        | Told::Op { txn, .. }
        | Told::Ended { txn, .. }
        | Told::Died { txn, .. }
        | Told::Doomed { txn, .. }
        | Told::Refused { txn, .. }
        | Told::Kept { txn, .. }
        | Told::Verdict { txn, .. } => txn,
    }
}

#[tactic(auto, unfolding(crate::specs::lines::Events::at_site))]
fn push_at_site(page: &mut Page, site: u32)
    ensures { Adds page.old page.new (at_site site) }
{
    page.number(site as u64);
    page.text(": ");
}

#[tactic(auto, unfolding(crate::specs::lines::Events::told_line))]
fn push_told(page: &mut Page, site: u32, told: &Told)
    ensures { Adds page.old page.new (told_line site told.now) }
{
    push_at_site(page, site);
    page.told(told);
    page.line_end();
}

fn push_all_told(page: &mut Page, site: u32, events: &[Told])
    ensures { Adds page.old page.new (flat_map (told_line site) events.now) }
{
    for told in events {
        push_told(page, site, told);
    }
}

#[tactic(auto, unfolding(crate::specs::lines::Events::why_text))]
fn push_why(page: &mut Page, why: Why)
    ensures { Adds page.old page.new (why_text why) }
{
    match why {
        Why::Fault => page.text("fault"),
        Why::Full { need, room } => push_part_of_whole(page, "full ", need, room),
    }
}

/// Adds a word, and why a site fell behind it.
pub(crate) fn push_word_and_why(page: &mut Page, word: &str, why: Why)
    ensures { Adds page.old page.new (word.now ++ why_text why) }
{
    page.text(word);
    push_why(page, why);
}

#[tactic(auto, unfolding(crate::specs::lines::Events::rise_line))]
fn push_rise(page: &mut Page, site: u32, inc: u32, kept: bool)
    ensures { Adds page.old page.new (rise_line site inc kept) }
{
    push_at_site(page, site);
    page.labelled("rose ", inc as u64);
    push_kept(page, kept);
    page.line_end();
}

#[tactic(auto, unfolding(crate::specs::lines::Events::failure_text))]
fn push_failure(page: &mut Page, inc: u32, why: Why)
    ensures { Adds page.old page.new (failure_text inc why) }
{
    page.labelled("rise failed ", inc as u64);
    push_word_and_why(page, " ", why);
}

#[tactic(auto, unfolding(crate::specs::lines::Events::failed_rise_line))]
fn push_failed_rise(page: &mut Page, site: u32, inc: u32, why: Why, kept: bool)
    ensures { Adds page.old page.new (failed_rise_line site inc why kept) }
{
    push_at_site(page, site);
    push_failure(page, inc, why);
    push_kept(page, kept);
    page.line_end();
}

#[tactic(auto, unfolding(crate::specs::lines::Events::fall_line))]
fn push_fall(page: &mut Page, site: u32, why: Why)
    ensures { Adds page.old page.new (fall_line site why) }
{
    push_at_site(page, site);
    push_word_and_why(page, "fell ", why);
    page.line_end();
}

/// Adds a line of a site that has one word.
#[tactic(auto, unfolding(crate::specs::lines::Events::word_line))]
pub(crate) fn push_word_line(page: &mut Page, site: u32, word: &str)
    ensures { Adds page.old page.new (word_line site word.now) }
{
    push_at_site(page, site);
    page.line(word);
}

/// Adds the lines of an entry.
#[tactic(auto, unfolding(crate::specs::lines::Events::act_lines))]
pub(crate) fn push_entry(page: &mut Page, entry: &Entry)
    ensures { Adds page.old page.new (entry_lines entry.now) }
{
    let site = entry.owner;
    match &entry.act {
        Act::Step { told, .. } => push_all_told(page, site, told.as_slice()),
        Act::Fall { why, .. } => push_fall(page, site, *why),
        Act::Rise { kept, inc } => push_rise(page, site, *inc, *kept),
        Act::RiseFall { kept, inc, why } => push_failed_rise(page, site, *inc, *why, *kept),
        Act::Miss => push_word_line(page, site, "missed"),
        Act::Cut => push_word_line(page, site, "cut"),
        _ => {}
    }
}
