// The brief of a site's log, by the site's tables.
ghost use Rattle.std.specs.Prelude.{◌≡◌, ◌++◌, Some, IfOk};
ghost use Rattle.std.specs.List.{flat_map, AllByRecursion as Each};
ghost use Rattle.std.specs.List.Sorted.{IsStrictlySortedBy};
ghost use Rattle.std.specs.Map.{keys_of, lookup};
ghost use Rattle.std.specs.BTreeMap.{is_at};
ghost use Rattle.std.specs.Cmp.Lexicographic.{slice_cmp};
ghost use Rattle.std.specs.Ordering.{nat_cmp};
ghost use Rattle.e3_cards.specs.Tables.{key_cmp};
ghost use Rattle.e3_world.specs.Brief.{brief};
ghost use Rattle.e3_site.specs.past.Standing.{TablesStand};
ghost use Rattle.e3_places.specs.Keeping.{at_name};
ghost use Rattle.e3_site.specs.TableBrief.{IsInOrder, KeyFits, brief_by, card_notes, front_by, op_of, ops_at, row_at, txn_of};
ghost use Rattle.e3_types.specs.Sites.{bits_of, sites_of};
ghost use Rattle.e3_types.specs.declared.records.Record.TheVariants as log;
ghost use Rattle.e3_world.specs.declared.lives.Life.{Life};

use crate::notes::add_seen;
use crate::past::Tables;
use e3_cards::{Card, TxnKey};
use e3_places::{Claims, Place, TxnId as PlaceKey, txn_id as place_key};
use e3_types::{Answer, List, Name, NoMemory, NumOp, Record, Row, SiteSet, Txn};
use e3_world::Asked;
use std::alloc::Global;
use std::collections::BTreeMap;

// The set of these bits, which are its own.
#[tactic(auto, using(e3_types::specs::SetBits::bits_back))]
fn set_of(bits: u64) -> SiteSet
    ensures is { result ≡ sites_of bits }
    ensures fits { bits_of (sites_of bits) ≡ bits }
{
    SiteSet::of_bits(bits)
}

fn txn_of(key: &TxnKey) -> Txn
    ensures is { result ≡ txn_of key.now }
    ensures fits { KeyFits key.now }
{
    Txn {
        site: key.site,
        inc: key.inc,
        seq: key.seq,
        sites: set_of(key.bits),
    }
}

// Adds the row of a name, if it has one.
fn add_row(name: &Name, place: &Place, rows: &mut List<Row>) -> Result<(), NoMemory>
    ensures { IfOk result (λ u. rows.new ≡ rows.old ++ row_at (name.now, place.now)) }
{
    match &place.row {
        Answer::Value(val) => rows.push(Row {
            name: name.copy(),
            val: val.copy(),
        }),
        _ => Ok(()),
    }
}

fn rows_of(alloc: Global, names: &BTreeMap<Name, Place>) -> Result<List<Row>, NoMemory>
    ensures { IfOk result (λ rows. rows ≡ flat_map row_at names.now.entries) }
{
    let mut rows = List::new(alloc);
    for entry in names.iter() {
        add_row(entry.0, entry.1, &mut rows)?;
    }
    Ok(rows)
}

fn votes_in(alloc: Global, t: &Txn, votes: &[Asked]) -> Result<List<NumOp>, NoMemory>
    ensures { IfOk result (λ ops. ops ≡ flat_map (op_of t.now) votes.now) }
{
    let mut ops = List::new(alloc);
    for a in votes {
        if t.is_same(&a.txn) {
            ops.push(NumOp {
                n: a.n,
                op: a.op.copy(),
            })?;
        }
    }
    Ok(ops)
}

// The operations of the transaction's vote that the tables have.
fn ops_at(
    alloc: Global,
    txns: &BTreeMap<PlaceKey, Claims>,
    t: &Txn,
) -> Result<List<NumOp>, NoMemory>
    ensures { IfOk result (λ ops. ops ≡ ops_at txns.now.entries t.now) }
{
    match txns.get(&place_key(t)) {
        Some(claims) => votes_in(alloc, t, claims.votes.as_slice()),
        None => Ok(List::new(alloc)),
    }
}

fn add_card(
    alloc: Global,
    txns: &BTreeMap<PlaceKey, Claims>,
    key: &TxnKey,
    card: &Card,
    out: &mut List<Record>,
) -> Result<(), NoMemory>
    ensures notes { IfOk result (λ u. out.new ≡ out.old ++ card_notes txns.now.entries (key.now, card.now)) }
    ensures fits { KeyFits key.now }
{
    let t = txn_of(key);
    let ops = ops_at(alloc, txns, &t)?;
    add_seen(&t, &card.seen, ops, out)
}

// Adds what is noted of the transaction of each card. Its key has the bits of its sites.
fn add_cards(
    alloc: Global,
    txns: &BTreeMap<PlaceKey, Claims>,
    cards: &BTreeMap<TxnKey, Card>,
    out: &mut List<Record>,
) -> Result<(), NoMemory>
    ensures notes { IfOk result (λ u. out.new ≡ out.old ++ flat_map (card_notes txns.now.entries) cards.now.entries) }
    ensures fits { IfOk result (λ u. Each (λ e. KeyFits e.0) cards.now.entries) }
{
    for entry in cards.iter() {
        add_card(alloc, txns, entry.0, entry.1, out)?;
    }
    Ok(())
}

// The law that names ascend, and that each is found.
fn names_ascend(names: &BTreeMap<Name, Place>)
    ensures ordered { IsStrictlySortedBy (slice_cmp nat_cmp) (keys_of names.now.entries) }
    ensures found { Each (λ e. lookup (at_name e.0) names.now.entries ≡ Some e.1) names.now.entries }
{
    let _entries = names.iter();
}

// The law that the keys of cards ascend, and that each is found.
fn cards_ascend(cards: &BTreeMap<TxnKey, Card>)
    ensures ordered { IsStrictlySortedBy key_cmp (keys_of cards.now.entries) }
    ensures found { Each (λ e. lookup (is_at (key_cmp e.0)) cards.now.entries ≡ Some e.1) cards.now.entries }
{
    let _entries = cards.iter();
}

// The birth with the rows that the tables have.
fn birth(alloc: Global, weights: &[u32], site: u32, tables: &Tables) -> Result<Record, NoMemory>
    ensures { IfOk result (λ r. r ≡ log.Birth 1 site weights.now (flat_map row_at tables.now.names.places.names.entries)) }
{
    let rows = rows_of(alloc, &tables.names.places.names)?;
    let mut own = List::new(alloc);
    own.extend(weights)?;
    Ok(Record::Birth {
        format: 1,
        site,
        weights: own,
        rows,
    })
}

// Adds what the brief begins with.
fn add_front(
    alloc: Global,
    weights: &[u32],
    site: u32,
    tables: &Tables,
    out: &mut List<Record>,
) -> Result<(), NoMemory>
    ensures { IfOk result (λ u. out.new ≡ out.old ++ front_by weights.now site tables.now) }
{
    let inc = tables.cards.inc;
    if inc == 0 {
        return Ok(());
    }
    out.push(birth(alloc, weights, site, tables)?)?;
    out.push(Record::Inc { inc })
}

/// The brief of a site's log, by the site's weights, its number and its tables, whatever life these stand for whose log is in
/// order: it costs what the tables have and not what was logged. Want of memory is the only error.
pub(crate) fn brief_of_tables(
    alloc: Global,
    weights: &[u32],
    site: u32,
    tables: &Tables,
) -> Result<List<Record>, NoMemory>
    ensures told { IfOk result (λ out. out ≡ brief_by weights.now site tables.now) }
    ensures brief { IfOk result (λ out. (life : Life) → TablesStand site life tables.now → IsInOrder weights.now site life → out ≡ brief life.log) }
{
    let places = &tables.names.places;
    let cards = &tables.cards.map;
    names_ascend(&places.names);
    cards_ascend(cards);
    let mut out = List::new(alloc);
    add_front(alloc, weights, site, tables, &mut out)?;
    add_cards(alloc, &places.txns, cards, &mut out)?;
    Ok(out)
}
