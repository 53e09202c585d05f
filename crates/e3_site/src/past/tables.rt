// What a site keeps of its past, and what a step makes of it.
use crate::past::names::{Names, NamesBehind};
use e3_cards::{Cards, Changes};
use e3_types::Txn;

/// Undecided transactions that a site knows, some more than once: those of its log, in its order; those of the operations
/// that came to it; and those that it began.
#[derive(Drop)]
pub struct Opens {
    pub logged: Vec<Txn>,
    pub arrived: Vec<Txn>,
    pub begun: Vec<Txn>,
}

/// What is read of a site's past: of each transaction, of names, and of what is open.
#[derive(Drop)]
pub struct Tables {
    pub cards: Cards,
    pub names: Names,
    pub opens: Opens,
}

/// What a step makes of a site's tables: what it makes of the cards and of what is known of names, and the transactions
/// that it adds to those that are open.
#[derive(Drop)]
pub struct Behind {
    pub cards: Changes,
    pub names: NamesBehind,
    pub opens: Opens,
}
