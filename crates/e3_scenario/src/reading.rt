// From bytes to a scenario.
ghost use Rattle.std.specs.Prelude.{◌≡◌, ◌≤◌, ◌⊎◌, [], IfOk, IfErr, Ok, Err, length, map, not, if◌then◌else◌};
ghost use Rattle.toml.specs.View.{view, table_view};
ghost use Rattle.e3_world.specs.Given.{IsGiven, rows_differ};
ghost use Rattle.e3_scenario.specs.declared.faults.Field.TheVariants as field;
ghost use Rattle.e3_scenario.specs.declared.faults.ScenarioFault.TheVariants as fault;
ghost use Rattle.e3_scenario.specs.Documents.{steps_fit};
ghost use Rattle.e3_scenario.specs.Scenarios.{or_range, repeat_with, numbers_in, base_in, no_items_yet, steps_in, fields_in, scenario_in, scenario_of};
ghost use Rattle.e3_scenario.specs.Steps.{and_read, steps_read};

use crate::distinct::rows_differ;
use crate::documents::{
    keys_known, kind_fault, luck_at, rows, share_at, steps_fit, values_at, weights,
};
use crate::faults::{Field, ScenarioFault};
use crate::so_far::SoFar;
use crate::steps::{Read, steps};
use e3_types::{Item, KeyRow, List, NoMemory, Scenario, SiteSet};
use e3_world::sites_to;
use std::alloc::Global;
use std::mem;
use toml::{Table, Value};

/// The most bytes that are read as a scenario.
const MOST_BYTES: usize = 4_194_304;

fn or_range<T: Drop>(field: Field, value: Option<T>) -> Read<T>
    ensures { result ≡ or_range field value }
{
    match value {
        None => Err(ScenarioFault::Range { field }),
        Some(value) => Ok(value),
    }
}

fn repeat_with(loss: u32, repeat: Option<u32>) -> Option<u32>
    requires { loss ≤ 100 }
    ensures { result ≡ repeat_with loss repeat }
{
    let repeat = repeat?;
    if repeat <= 100 - loss {
        Some(repeat)
    } else {
        None
    }
}

// The scenario with these weights and rows, without its steps.
fn numbers(alloc: Global, table: &Table, weights: List<u32>, rows: List<KeyRow>) -> Read<Scenario>
    ensures value { result ≡ numbers_in (table_view table.now) weights rows }
    ensures kept { IfOk result (λ sc. sc.weights ≡ weights) }
{
    let loss = or_range(Field::Loss, share_at(table, "loss"))?;
    let repeat = or_range(Field::Repeat, repeat_with(loss, share_at(table, "repeat")))?;
    let luck = or_range(Field::Luck, luck_at(table))?;
    Ok(Scenario {
        weights,
        rows,
        loss,
        repeat,
        luck,
        steps: List::new(alloc),
    })
}

// The scenario without its steps.
fn base(alloc: Global, table: &Table) -> Result<Read<Scenario>, NoMemory>
    ensures value { IfOk result (λ read. read ≡ base_in (table_view table.now)) }
    ensures few { IfOk result (λ read. IfOk read (λ sc. length sc.weights ≤ 16)) }
{
    let Some(weights) = weights(alloc, values_at(table, "weights"))? else {
        return Ok(Err(ScenarioFault::Range {
            field: Field::Weights,
        }));
    };
    let all = sites_to(weights.len() as u32);
    let Some(rows) = rows(alloc, all, values_at(table, "rows"))? else {
        return Ok(Err(ScenarioFault::Range { field: Field::Rows }));
    };
    Ok(numbers(alloc, table, weights, rows))
}

// The steps that these values spell, where nothing stands before them.
fn all_steps(
    alloc: Global,
    all: SiteSet,
    values: &[Value],
) -> Result<Read<List<List<Item>>>, NoMemory>
    requires { length values.now ≤ 10000 }
    ensures { IfOk result (λ read. read ≡ steps_read all 1 (no_items_yet all) [] (map view values.now)) }
{
    let mut so_far = SoFar::nothing(alloc, all)?;
    let read = steps(alloc, all, &mut so_far, values);
    // (handed to `drop`, it is given back by one call)
    drop(so_far);
    read
}

// The steps of a scenario that is read but for them, or the first fault of its steps and rows.
fn steps_behind(
    alloc: Global,
    values: &[Value],
    base: &Scenario,
) -> Result<Read<List<List<Item>>>, NoMemory>
    requires { length base.now.weights ≤ 16 }
    ensures { IfOk result (λ read. and_read read (λ steps. Ok (record base.now { steps = steps })) ≡ (if not (steps_fit (map view values.now)) then Err (fault.Range field.Steps)
        else if not (rows_differ base.now.rows) then Err fault.RowTwice else steps_in (map view values.now) base.now)) }
{
    if !steps_fit(values) {
        return Ok(Err(ScenarioFault::Range {
            field: Field::Steps,
        }));
    }
    if !rows_differ(alloc, base.rows.as_slice())? {
        return Ok(Err(ScenarioFault::RowTwice));
    }
    all_steps(alloc, sites_to(base.weights.len() as u32), values)
}

fn fields(alloc: Global, table: &Table) -> Result<Read<Scenario>, NoMemory>
    ensures { IfOk result (λ read. read ≡ fields_in (table_view table.now)) }
{
    match base(alloc, table)? {
        Err(fault) => Ok(Err(fault)),
        Ok(base) => {
            let mut scenario = base;
            // (handed to `drop`, it is given back by one call)
            match steps_behind(alloc, values_at(table, "steps"), &scenario) {
                Err(NoMemory) => {
                    drop(scenario);
                    Err(NoMemory)
                }
                Ok(Err(fault)) => {
                    drop(scenario);
                    Ok(Err(fault))
                }
                Ok(Ok(steps)) => {
                    drop(mem::replace(&mut scenario.steps, steps));
                    Ok(Ok(scenario))
                }
            }
        }
    }
}

fn table_scenario(alloc: Global, table: &Table) -> Result<Read<Scenario>, NoMemory>
    ensures { IfOk result (λ read. read ≡ scenario_in (table_view table.now)) }
{
    if !keys_known(table) {
        return Ok(Err(ScenarioFault::UnknownKey));
    }
    match kind_fault(table) {
        None => fields(alloc, table),
        Some(field) => Ok(Err(ScenarioFault::Kind { field })),
    }
}

/// The scenario that the bytes spell, or the first fault that they have. Want of memory may come at any time.
pub fn read_scenario(alloc: Global, bytes: &[u8]) -> Result<Scenario, ScenarioFault>
    ensures ok { IfOk result (λ sc. scenario_of bytes.now ≡ Ok sc) }
    ensures given { IfOk result IsGiven }
    ensures fault { IfErr result (λ fault. (fault ≡ ScenarioFault.NoMemory) ⊎ (scenario_of bytes.now ≡ Err fault)) }
{
    if bytes.len() > MOST_BYTES {
        return Err(ScenarioFault::TooLong);
    }
    match toml::table_from_slice(alloc, bytes) {
        Ok(table) => match table_scenario(alloc, &table) {
            Ok(read) => read,
            Err(NoMemory) => Err(ScenarioFault::NoMemory),
        },
        Err(e) => {
            if e.is_memory() {
                Err(ScenarioFault::NoMemory)
            } else {
                Err(ScenarioFault::NotToml)
            }
        }
    }
}
