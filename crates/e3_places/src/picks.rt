// Which operations are picked.
ghost use Rattle.std.specs.Prelude.{◌≡◌};
ghost use Rattle.e3_places.specs.Standing.{passes};

use crate::keys::TxnId;
use e3_readings::key_of;
use e3_types::Name;
use e3_world::Asked;

/// Operations on a name, or those of a transaction.
#[derive(Drop)]
pub enum Pick {
    On(Name),
    Of(TxnId),
}

impl Pick {
    /// The operation is among them.
    pub fn passes(&self, a: &Asked) -> bool
        ensures { result ≡ passes self.now a.now }
    {
        match self {
            Pick::On(name) => name.is_same(&key_of(&a.op).name),
            Pick::Of(key) => {
                key.site == a.txn.site && key.inc == a.txn.inc && key.seq == a.txn.seq
            }
        }
    }
}
