// The words of which the lines of a report are made. Each function adds to a page.
ghost use Rattle.std.specs.Prelude.{◌++◌};
ghost use Rattle.std.specs.List.{flat_map};
ghost use Rattle.e3_report.specs.Pages.{Adds};
ghost use Rattle.e3_report.specs.lines.Texts.{after_comma, commas, sites_text, after_bar, parts_text, txn_text, key_text, dir_text, state_text, leave_text, kept_text};

use crate::Page;
use e3_types::{Dir, Key, Leave, SiteSet, State, Txn};

#[tactic(auto, unfolding(crate::specs::lines::Texts::after_comma))]
fn push_after_comma(page: &mut Page, number: u32)
    ensures { Adds page.old page.new (after_comma number) }
{
    page.labelled(",", number as u64);
}

/// Adds numbers with commas between them.
pub(crate) fn push_commas(page: &mut Page, numbers: &[u32])
    ensures { Adds page.old page.new (commas numbers.now) }
{
    if let [first, more @ ..] = numbers {
        page.number(*first as u64);
        for number in more {
            push_after_comma(page, *number);
        }
    }
}

fn push_more_sites(page: &mut Page, sites: SiteSet)
    ensures { Adds page.old page.new (flat_map after_comma sites) }
{
    for site in sites.iter() {
        push_after_comma(page, site);
    }
}

impl Page {
    /// Adds the sites of a set in ascending order, with commas between them.
    #[tactic(auto, unfolding(crate::specs::lines::Texts::sites_text))]
    pub fn sites(&mut self, sites: SiteSet)
        ensures { Adds self.old self.new (sites_text sites) }
    {
        match sites.split_first() {
            Some((first, more)) => {
                self.number(first as u64);
                push_more_sites(self, more);
            }
            None => {}
        }
    }

    /// Adds a transaction's name.
    #[tactic(auto, unfolding(crate::specs::lines::Texts::txn_text))]
    pub fn txn(&mut self, txn: &Txn)
        ensures { Adds self.old self.new (txn_text txn.now) }
    {
        self.number(txn.site as u64);
        self.labelled(".", txn.inc as u64);
        self.labelled(".", txn.seq as u64);
    }

    /// Adds a key.
    #[tactic(auto, unfolding(crate::specs::lines::Texts::key_text))]
    pub fn key(&mut self, key: &Key)
        ensures { Adds self.old self.new (key_text key.now) }
    {
        self.number(key.site as u64);
        push_word_and_bytes(self, ".", key.name.bytes());
    }

    /// Adds a direction.
    #[tactic(auto, unfolding(crate::specs::lines::Texts::dir_text))]
    pub fn dir(&mut self, dir: Dir)
        ensures { Adds self.old self.new (dir_text dir) }
    {
        match dir {
            Dir::Abort => self.text("abort"),
            Dir::Commit => self.text("commit"),
        }
    }

    /// Adds a state.
    #[tactic(auto, unfolding(crate::specs::lines::Texts::state_text))]
    pub fn state(&mut self, state: State)
        ensures { Adds self.old self.new (state_text state) }
    {
        match state {
            State::Q => self.text("q"),
            State::W => self.text("w"),
            State::Pc => self.text("pc"),
            State::Pa => self.text("pa"),
            State::C => self.text("c"),
            State::A => self.text("a"),
        }
    }
}

/// Adds a word and the sites of a set behind it.
pub(crate) fn push_word_and_sites(page: &mut Page, word: &str, sites: SiteSet)
    ensures { Adds page.old page.new (word.now ++ sites_text sites) }
{
    page.text(word);
    page.sites(sites);
}

#[tactic(auto, unfolding(crate::specs::lines::Texts::after_bar))]
fn push_after_bar(page: &mut Page, part: SiteSet)
    ensures { Adds page.old page.new (after_bar part) }
{
    push_word_and_sites(page, "|", part);
}

/// Adds the parts of the network with bars between them.
fn push_parts(page: &mut Page, parts: &[SiteSet])
    ensures { Adds page.old page.new (parts_text parts.now) }
{
    if let [first, more @ ..] = parts {
        page.sites(*first);
        for part in more {
            push_after_bar(page, *part);
        }
    }
}

/// Adds a word and the parts of the network behind it.
pub(crate) fn push_word_and_parts(page: &mut Page, word: &str, parts: &[SiteSet])
    ensures { Adds page.old page.new (word.now ++ parts_text parts.now) }
{
    page.text(word);
    push_parts(page, parts);
}

/// Adds a word and a transaction's name behind it.
pub(crate) fn push_word_and_txn(page: &mut Page, word: &str, txn: &Txn)
    ensures { Adds page.old page.new (word.now ++ txn_text txn.now) }
{
    page.text(word);
    page.txn(txn);
}

/// Adds a word and some bytes behind it.
pub(crate) fn push_word_and_bytes(page: &mut Page, word: &str, bytes: &[u8])
    ensures { Adds page.old page.new (word.now ++ bytes.now) }
{
    page.text(word);
    page.bytes(bytes);
}

/// Adds a word and a key behind it.
pub(crate) fn push_word_and_key(page: &mut Page, word: &str, key: &Key)
    ensures { Adds page.old page.new (word.now ++ key_text key.now) }
{
    page.text(word);
    page.key(key);
}

/// Adds a word and a direction behind it.
pub(crate) fn push_word_and_dir(page: &mut Page, word: &str, dir: Dir)
    ensures { Adds page.old page.new (word.now ++ dir_text dir) }
{
    page.text(word);
    page.dir(dir);
}

/// Adds a word and a state behind it.
pub(crate) fn push_word_and_state(page: &mut Page, word: &str, state: State)
    ensures { Adds page.old page.new (word.now ++ state_text state) }
{
    page.text(word);
    page.state(state);
}

/// Adds what a stop leaves.
#[tactic(auto, unfolding(crate::specs::lines::Texts::leave_text))]
pub(crate) fn push_leave(page: &mut Page, leave: Leave)
    ensures { Adds page.old page.new (leave_text leave) }
{
    match leave {
        Leave::None => page.text("none"),
        Leave::Half => page.text("half"),
        Leave::All => page.text("all"),
        Leave::Junk(byte) => page.labelled("junk ", byte as u64),
    }
}

/// Adds ` kept` where it is so.
#[tactic(auto, unfolding(crate::specs::lines::Texts::kept_text))]
pub(crate) fn push_kept(page: &mut Page, kept: bool)
    ensures { Adds page.old page.new (kept_text kept) }
{
    if kept {
        page.text(" kept");
    }
}
