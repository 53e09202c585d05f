// The cards of a site's transactions.
ghost use Rattle.std.specs.Prelude.{◌≡◌, cond, Some, None, OnOk, OnErr, option_copied};
ghost use Rattle.std.specs.BTreeMap.{is_at};
ghost use Rattle.std.specs.Map.{lookup};
ghost use Rattle.e3_cards.specs.Cards.{kept};
ghost use Rattle.e3_cards.specs.Tables.{card_at, key_cmp};
ghost use Rattle.e3_cards.specs.declared.keys.TxnKey.{TxnKey as KeptKey};

use crate::card::{Card, Change};
use crate::keys::{TxnKey, txn_key};
use e3_types::{List, NoMemory, Txn};
use std::collections::BTreeMap;

/// What a site keeps of its transactions: its number and its incarnation, how many Begins and Elects it took in this
/// incarnation, and a card for each transaction of which there is anything.
#[derive(Drop)]
pub struct Cards {
    pub site: u32,
    pub inc: u32,
    pub begins: u32,
    pub calls: u32,
    pub map: BTreeMap<TxnKey, Card>,
}

/// What a step makes of the cards that it changes, and of the counts.
#[derive(Drop)]
pub struct Changes {
    pub begins: u32,
    pub calls: u32,
    pub cards: List<Change>,
}

/// The card of a transaction, if it has one.
pub(crate) fn card_at<'a>(map: &'a BTreeMap<TxnKey, Card>, t: &Txn) -> Option<&'a Card>
    ensures { kept (option_copied result) ≡ card_at map.now.entries t.now }
{
    map.get(&txn_key(t))
}

/// The card of a key is this one from now on. Only a key without a card can want for memory.
pub(crate) fn put_card(
    map: &mut BTreeMap<TxnKey, Card>,
    key: TxnKey,
    card: Card,
) -> Result<(), NoMemory>
    ensures put { OnOk result ((k : KeptKey) → lookup (is_at (key_cmp k)) map.new.entries ≡ cond (is_at (key_cmp key) k) (Some card) (lookup (is_at (key_cmp k)) map.old.entries)) }
    ensures found { OnOk result (lookup (is_at (key_cmp key)) map.new.entries ≡ Some card) }
    ensures absent { OnErr result (lookup (is_at (key_cmp key)) map.old.entries ≡ None) }
    ensures kept { OnErr result (map.new.entries ≡ map.old.entries) }
{
    match map.insert(key, card) {
        Ok(was) => {
            drop(was);
            Ok(())
        }
        Err(failed) => {
            drop(failed.value.1);
            Err(NoMemory)
        }
    }
}
