// Whether all before the next line is through.
ghost use Rattle.std.specs.Prelude.{◌≡◌, ◌≢◌, true, IfOk};
ghost use Rattle.std.specs.List.{list_all};
ghost use Rattle.e3_judge.specs.audit.Seats.{Stands, is_alone_made};
ghost use Rattle.e3_world.specs.Given.{is_groupable};
ghost use Rattle.e3_world.specs.Legal.{is_made, is_through};

use crate::audit::auditor::Auditor;
use crate::audit::seat::{are_done, have_risen};
use crate::{Prefix, begins_with_parts, is_up_at, may_rise, since_line};
use e3_readings::step_items;
use e3_types::{Item, NoMemory};
use e3_world::is_groupable;

// The items are those of a group.
fn are_groupable(items: &[Item]) -> bool
    ensures { result ≡ list_all is_groupable items.now }
{
    items.iter().all(|item| is_groupable(item))
}

// The one item of a step that is no group had its entry, or is skipped; a recovery made all its rounds. Such steps are few,
// and read anew.
fn is_alone_made(prefix: &Prefix<'_>, item: &Item) -> Result<bool, NoMemory>
    ensures { IfOk result (λ b. b ≡ is_alone_made prefix.now.scenario.now prefix.now.entries.now item.now) }
{
    match item {
        Item::Recover { .. } => Ok(prefix.due_round()?.is_none()),
        Item::Split { .. } | Item::Merge => Ok(begins_with_parts(since_line(prefix.entries))),
        Item::Crash { site } => Ok(!is_up_at(prefix.entries, *site)),
        Item::Restart { site } => {
            let rose = !may_rise(prefix.scenario, prefix.entries, *site);
            Ok(is_up_at(prefix.entries, *site) || rose)
        }
        Item::Stop { .. } => Ok(true),
        _ => Ok(false),
    }
}

impl Auditor {
    // The present step is made, nothing of it pending.
    fn is_made(&self, prefix: &Prefix<'_>) -> Result<bool, NoMemory>
        requires stands { Stands prefix.now.scenario.now prefix.now.entries.now self.now }
        requires begun { self.now.lines ≢ 0 }
        ensures { IfOk result (λ b. b ≡ true → is_made prefix.now.scenario.now prefix.now.entries.now ≡ true) }
    {
        let items = step_items(prefix.scenario, self.lines as u64);
        if are_groupable(items) {
            return Ok(are_done(self.seats.as_slice()));
        }
        match items {
            [item, ..] => is_alone_made(prefix, item),
            [] => Ok(false),
        }
    }

    /// All before the next line is through, so far as it is seen here.
    pub(crate) fn is_through(&self, prefix: &Prefix<'_>) -> Result<bool, NoMemory>
        requires { Stands prefix.now.scenario.now prefix.now.entries.now self.now }
        ensures { IfOk result (λ b. b ≡ true → is_through prefix.now.scenario.now prefix.now.entries.now ≡ true) }
    {
        if self.lines == 0 {
            return Ok(have_risen(self.seats.as_slice()));
        }
        if self.net.pending() > 0 {
            return Ok(false);
        }
        self.is_made(prefix)
    }
}
