// Transactions as keys of maps.
ghost use Rattle.std.specs.Prelude.{◌≡◌};
ghost use Rattle.e3_cards.specs.Tables.{txn_key};

use e3_types::Txn;

/// A transaction as a key, its sites as bits.
#[derive(Clone, Copy, PartialEq, Eq, PartialOrd, Ord)]
pub struct TxnKey {
    pub site: u32,
    pub inc: u32,
    pub seq: u32,
    pub bits: u64,
}

/// The key of a transaction.
pub fn txn_key(t: &Txn) -> TxnKey
    ensures { result ≡ txn_key t.now }
{
    TxnKey {
        site: t.site,
        inc: t.inc,
        seq: t.seq,
        bits: t.sites.bits(),
    }
}
