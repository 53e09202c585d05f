// Transactions as keys of a map.
ghost use Rattle.std.specs.Prelude.{◌≡◌};
ghost use Rattle.e3_places.specs.Keeping.{txn_id};

use e3_types::Txn;

/// What a transaction is known by: its coordinator, the incarnation of it and the number in that.
#[derive(Clone, Copy, PartialEq, Eq, PartialOrd, Ord)]
pub struct TxnId {
    pub site: u32,
    pub inc: u32,
    pub seq: u32,
}

/// What a transaction is known by.
pub fn txn_id(t: &Txn) -> TxnId
    ensures { result ≡ txn_id t.now }
{
    TxnId {
        site: t.site,
        inc: t.inc,
        seq: t.seq,
    }
}
