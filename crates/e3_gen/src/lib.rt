//! The generated scenarios: one for each number from 1 to 1,000, as its text and as its value.
#![tactic(auto)]

mod draws;
mod items;
mod making;

pub use making::{generated, generated_scenario};
