// What the items of a scenario stand for: the transactions of names, and the inputs of sites.
use e3_types::{Input, List, Name, Txn};

/// A name, and the transaction that its begin told as begun.
#[derive(Drop)]
pub struct Bound {
    pub name: Name,
    pub txn: Txn,
}

/// What the entries so far have bound: the number of the step that they are in, the sites of its begins so far, in
/// order, and the names, in the order of their begins.
#[derive(Drop)]
pub struct Binding {
    pub number: u32,
    pub begun_at: List<u32>,
    pub bound: List<Bound>,
}

/// An input, and the site that takes it.
#[derive(Drop)]
pub struct Addressed {
    pub site: u32,
    pub input: Input,
}
