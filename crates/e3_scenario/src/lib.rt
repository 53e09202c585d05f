//! The scenario that bytes spell: a TOML 1.1 document with the keys `weights`, `rows`, `loss`, `repeat`, `luck` and
//! `steps`. Each step is an item or a group of items, and an item is a text as `write NAME KEY VALUE`.
//!
//! Bytes that spell none have a fault, and the first in the order of [`ScenarioFault`] is told.
#![tactic(auto)]

mod distinct;
mod documents;
mod faults;
mod items;
mod judging;
mod lines;
mod names;
mod parts;
mod reading;
mod so_far;
mod steps;
mod words;

pub use faults::{Field, ScenarioFault};
pub use lines::fault_line;
pub use reading::read_scenario;
