//! Worked histories, each with its scenario and, where it stands among the examples, the text of this and its report: they are
//! legal and whole, and come to the tables that one reads off them. Some are examples of laws. Behind them are histories with
//! one change each, and the rule that it breaks.
#![tactic(auto)]

pub mod changes;
pub mod examples;
pub mod laws;
