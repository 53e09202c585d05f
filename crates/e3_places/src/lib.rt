//! What a site knows of names, kept in tables: the operations and votes of undecided transactions, and the rows.
#![tactic(auto)]

mod behind;
mod changing;
mod doings;
mod granting;
mod holding;
mod keys;
mod noting;
mod picks;
mod places;
mod reading;
mod rising;
mod taking;
mod touching;

pub use changing::{Changes, NameChange, TxnChange, apply, changes_of, ready};
pub use granting::{grants_after, restless_behind};
pub use keys::{TxnId, txn_id};
pub use noting::note;
pub use picks::Pick;
pub use places::{Claims, Place, Places, Standing};
pub use reading::{lock, row};
pub use rising::{born, unborn};
