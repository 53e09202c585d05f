// The lines of a step's items, spelled as in the scenario.
ghost use Rattle.std.specs.Prelude.{◌++◌, codes};
ghost use Rattle.std.specs.Fmt.{decimal};
ghost use Rattle.std.specs.List.{flat_map};
ghost use Rattle.e3_report.specs.Pages.{Adds};
ghost use Rattle.e3_report.specs.lines.Texts.{key_text};
ghost use Rattle.e3_report.specs.lines.Items.{begin_text, write_text, elect_text, stop_text, item_text, item_line};

use crate::Page;
use crate::lines::listed::{Marked, push_marked_lines};
use crate::lines::texts::{
    push_leave, push_word_and_bytes, push_word_and_key, push_word_and_parts, push_word_and_sites,
};
use e3_types::{Item, Key, Leave, SiteSet};

// Adds a word, and a name and a key behind it.
fn push_name_and_key(page: &mut Page, word: &str, name: &[u8], key: &Key)
    ensures { Adds page.old page.new (word.now ++ name.now ++ codes " " ++ key_text key.now) }
{
    push_word_and_bytes(page, word, name);
    push_word_and_key(page, " ", key);
}

// Adds a word, and a site and a name behind it.
fn push_site_and_name(page: &mut Page, word: &str, site: u32, name: &[u8])
    ensures { Adds page.old page.new (word.now ++ decimal site ++ codes " " ++ name.now) }
{
    page.labelled(word, site as u64);
    push_word_and_bytes(page, " ", name);
}

#[tactic(auto, unfolding(crate::specs::lines::Items::begin_text))]
fn push_begin(page: &mut Page, name: &[u8], site: u32, sites: SiteSet)
    ensures { Adds page.old page.new (begin_text name.now site sites) }
{
    push_word_and_bytes(page, "begin ", name);
    page.labelled(" ", site as u64);
    push_word_and_sites(page, " ", sites);
}

#[tactic(auto, unfolding(crate::specs::lines::Items::write_text))]
fn push_write(page: &mut Page, name: &[u8], key: &Key, val: &[u8])
    ensures { Adds page.old page.new (write_text name.now key.now val.now) }
{
    push_name_and_key(page, "write ", name, key);
    push_word_and_bytes(page, " ", val);
}

#[tactic(auto, unfolding(crate::specs::lines::Items::elect_text))]
fn push_elect(page: &mut Page, site: u32, name: &[u8], sites: SiteSet)
    ensures { Adds page.old page.new (elect_text site name.now sites) }
{
    push_site_and_name(page, "elect ", site, name);
    push_word_and_sites(page, " ", sites);
}

#[tactic(auto, unfolding(crate::specs::lines::Items::stop_text))]
fn push_stop(page: &mut Page, site: u32, count: u32, leave: Leave)
    ensures { Adds page.old page.new (stop_text site count leave) }
{
    page.labelled("stop ", site as u64);
    page.labelled(" ", count as u64);
    page.text(" ");
    push_leave(page, leave);
}

impl Page {
    /// Adds an item, in the scenario's own words.
    #[tactic(auto, unfolding(crate::specs::lines::Items::item_text, crate::specs::lines::Items::read_text, crate::specs::lines::Items::expire_text, crate::specs::lines::Items::recover_text, crate::specs::lines::Items::split_text))]
    pub fn item(&mut self, item: &Item)
        ensures { Adds self.old self.new (item_text item.now) }
    {
        match item {
            Item::Begin { name, site, sites } => push_begin(self, name.bytes(), *site, *sites),
            Item::Read { name, key } => push_name_and_key(self, "read ", name.bytes(), key),
            Item::Write { name, key, val } => push_write(self, name.bytes(), key, val.bytes()),
            Item::Commit { name } => push_word_and_bytes(self, "commit ", name.bytes()),
            Item::Cancel { name } => push_word_and_bytes(self, "cancel ", name.bytes()),
            Item::Expire { site, name } => push_site_and_name(self, "expire ", *site, name.bytes()),
            Item::Elect { site, name, sites } => push_elect(self, *site, name.bytes(), *sites),
            Item::Recover { sites } => push_word_and_sites(self, "recover ", *sites),
            Item::Split { parts } => push_word_and_parts(self, "split ", parts.as_slice()),
            Item::Merge => self.text("merge"),
            Item::Crash { site } => self.labelled("crash ", *site as u64),
            Item::Restart { site } => self.labelled("restart ", *site as u64),
            Item::Stop { site, count, leave } => push_stop(self, *site, *count, *leave),
        }
    }

    /// Adds a line for each item.
    #[tactic(auto, unfolding(crate::specs::lines::Items::item_line))]
    pub fn items(&mut self, items: &[Item])
        ensures { Adds self.old self.new (flat_map item_line items.now) }
    {
        push_marked_lines(self, "> ", items);
    }
}

impl Marked for Item {
    ghost words = { item_text };

    fn push_words(&self, page: &mut Page) {
        page.item(self);
    }
}
