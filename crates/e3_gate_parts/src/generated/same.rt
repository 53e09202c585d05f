// Whether two scenarios are the same: by the lines of their parts, which differ where these do.
use crate::forms::scenarios::push_head;
use e3_report::Page;
use e3_types::{NoMemory, Scenario};
use std::alloc::Global;

// The lines of the parts of a scenario, those of each step before an empty line.
fn lines_of(alloc: Global, scenario: &Scenario) -> Page {
    let mut page = Page::new(alloc);
    push_head(&mut page, scenario);
    for items in scenario.steps.as_slice() {
        page.items(items.as_slice());
        page.text("\n");
    }
    page
}

/// Two scenarios are the same.
pub fn is_same_scenario(alloc: Global, a: &Scenario, b: &Scenario) -> Result<bool, NoMemory> {
    let lines = lines_of(alloc, a);
    let others = lines_of(alloc, b);
    if lines.is_whole() && others.is_whole() {
        Ok(lines.as_slice() == others.as_slice())
    } else {
        Err(NoMemory)
    }
}
