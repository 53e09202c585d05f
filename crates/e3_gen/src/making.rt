// The generated scenario of a number.
ghost use Rattle.std.specs.Prelude.{◌≡◌, ◌≤◌, IfOk, map};
ghost use Rattle.std.specs.List.{flat_map};
ghost use Rattle.e3_gen.specs.Generated.{items_to, step_of, generated_scenario, before_luck, behind_luck, head_lines, item_row, generated};
ghost use Rattle.e3_report.specs.Pages.{Adds};
ghost use Rattle.e3_world.specs.Given.{IsGiven};

use crate::draws::{draw_txn, generator_of};
use crate::items::{Steps, add_txn};
use e3_report::Page;
use e3_types::{Item, List, NoMemory, Scenario};
use std::alloc::Global;

// The steps of all transactions.
fn steps_of(alloc: Global, n: u32) -> Result<Steps, NoMemory>
    ensures { IfOk result (λ steps. steps ≡ map step_of (items_to n n)) }
{
    let mut generator = generator_of(n);
    let mut steps = List::new(alloc);
    for before in 0..n {
        let words = draw_txn(&mut generator);
        add_txn(alloc, &mut steps, before + 1, &words)?;
    }
    Ok(steps)
}

/// The generated scenario of a number: five sites, and so many transactions, one after the other. Want of memory is the
/// only error.
#[tactic(auto, using(crate::proofs::Keeping::given))]
pub fn generated_scenario(alloc: Global, n: u32) -> Result<Scenario, NoMemory>
    requires least { 1 ≤ n }
    requires most { n ≤ 1000 }
    ensures value { IfOk result (λ scenario. scenario ≡ generated_scenario n) }
    ensures given { IfOk result IsGiven }
{
    let mut weights = List::new(alloc);
    weights.extend(&[1, 1, 1, 1, 1])?;
    Ok(Scenario {
        weights,
        rows: List::new(alloc),
        loss: 0,
        repeat: 20,
        luck: n as u64,
        steps: steps_of(alloc, n)?,
    })
}

#[tactic(auto, unfolding(crate::specs::Generated::before_luck))]
fn push_before_luck(page: &mut Page)
    ensures { Adds page.old page.new before_luck }
{
    page.text("weights = [1, 1, 1, 1, 1]\nrepeat = 20\nluck = ");
}

#[tactic(auto, unfolding(crate::specs::Generated::behind_luck))]
fn push_behind_luck(page: &mut Page)
    ensures { Adds page.old page.new behind_luck }
{
    page.text("\nsteps = [\n");
}

fn push_head(page: &mut Page, n: u32)
    ensures { Adds page.old page.new (head_lines n) }
{
    push_before_luck(page);
    page.number(n as u64);
    push_behind_luck(page);
}

#[tactic(auto, unfolding(crate::specs::Generated::item_row))]
fn push_item_row(page: &mut Page, item: &Item)
    ensures { Adds page.old page.new (item_row item.now) }
{
    page.text("  \"");
    page.item(item);
    page.text("\",\n");
}

fn push_step(page: &mut Page, items: &[Item])
    ensures { Adds page.old page.new (flat_map item_row items.now) }
{
    for item in items {
        push_item_row(page, item);
    }
}

fn push_steps(page: &mut Page, steps: &[List<Item>])
    ensures { Adds page.old page.new (flat_map (flat_map item_row) steps.now) }
{
    for items in steps {
        push_step(page, items.as_slice());
    }
}

/// The text of the generated scenario of a number. Want of memory is the only error.
#[tactic(auto, using(crate::proofs::Growing::rows_of_steps))]
pub fn generated(alloc: Global, n: u32) -> Result<List<u8>, NoMemory>
    requires least { 1 ≤ n }
    requires most { n ≤ 1000 }
    ensures { IfOk result (λ text. text ≡ generated n) }
{
    let steps = steps_of(alloc, n)?;
    let mut page = Page::new(alloc);
    push_head(&mut page, n);
    push_steps(&mut page, steps.as_slice());
    page.text("]\n");
    page.done()
}
