// The lines that are written in place of a report.
ghost use Rattle.std.specs.Prelude.{◌≡◌, ◌++◌, IfOk};
ghost use Rattle.e3_report.specs.Pages.{Adds};
ghost use Rattle.e3_scenario.specs.Faults.{field_word, fault_words, fault_text};

use crate::faults::{Field, ScenarioFault};
use e3_report::Page;
use e3_types::{List, NoMemory};
use std::alloc::Global;

fn push_field(page: &mut Page, label: &str, field: Field)
    ensures { Adds page.old page.new (label.now ++ field_word field) }
{
    page.text(label);
    match field {
        Field::Weights => page.text("weights"),
        Field::Rows => page.text("rows"),
        Field::Loss => page.text("loss"),
        Field::Repeat => page.text("repeat"),
        Field::Luck => page.text("luck"),
        Field::Steps => page.text("steps"),
    }
}

fn push_fault(page: &mut Page, fault: &ScenarioFault)
    ensures { Adds page.old page.new (fault_words fault.now) }
{
    match fault {
        ScenarioFault::TooLong => page.text("too-long"),
        ScenarioFault::NotToml => page.text("not-toml"),
        ScenarioFault::UnknownKey => page.text("unknown-key"),
        ScenarioFault::Kind { field } => push_field(page, "kind ", *field),
        ScenarioFault::Range { field } => push_field(page, "range ", *field),
        ScenarioFault::RowTwice => page.text("row-twice"),
        ScenarioFault::BadLine { step } => page.labelled("bad-line ", *step as u64),
        ScenarioFault::NoSite { step } => page.labelled("no-site ", *step as u64),
        ScenarioFault::NoTxn { step } => page.labelled("no-transaction ", *step as u64),
        ScenarioFault::NameTwice { step } => page.labelled("name-twice ", *step as u64),
        ScenarioFault::Parts { step } => page.labelled("parts ", *step as u64),
        ScenarioFault::NoMemory => page.text("no-memory"),
    }
}

/// The line that is written for bytes with this fault, in place of a report. (Nothing is written where memory ran out; it
/// has a line here all the same.)
pub fn fault_line(alloc: Global, fault: &ScenarioFault) -> Result<List<u8>, NoMemory>
    ensures { IfOk result (λ line. line ≡ fault_text fault.now) }
{
    let mut page = Page::new(alloc);
    page.text("refused ");
    push_fault(&mut page, fault);
    page.text("\n");
    page.done()
}
