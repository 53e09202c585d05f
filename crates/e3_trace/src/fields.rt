// The fields of a trace's lines. Only lists take memory.
ghost use Rattle.std.specs.Prelude.{◌≡◌, ◌≤◌, ℕ, [], List as Items, Option, IfErr, IfSome};
ghost use Rattle.e3_trace.specs.Cuts.{pair_of, Gives};
ghost use Rattle.e3_report.specs.lines.Marks.{space, pieces};
ghost use Rattle.e3_trace.specs.Fields.{number_of, u32_of, u64_of, name_of, value_of, list_from, numbers_of, sites_of, parts_of, key_of, dir_of, state_of, op_of, answer_of, txn_name_of, txn_from};

use crate::cuts::{BAR, COMMA, POINT, SPACE, behind, cut};
use crate::faults::Fault;
use e3_report::lines::{is_text, name_of, number_of_digits, one_of, value_of};
use e3_types::{Answer, Dir, Key, List, Name, Op, SiteSet, State, Txn, Val};
use std::alloc::Global;

/// The name of a transaction without its sites: its coordinator, the coordinator's incarnation, and its number there.
pub(crate) type TxnName = (u32, (u32, u32));

const DIRS: [(&str, Dir); 2] = [("abort", Dir::Abort), ("commit", Dir::Commit)];

const STATES: [(&str, State); 6] = [
    ("q", State::Q),
    ("w", State::W),
    ("pc", State::Pc),
    ("pa", State::Pa),
    ("c", State::C),
    ("a", State::A),
];

/// A field that a whole text spells.
pub(crate) trait Field {
    /// The field of a text, where it spells one.
    ghost form: { Items ℕ → Option Self };

    /// Reads the field. `Bad` comes exactly where the text spells none.
    fn read(text: &[u8]) -> Result<Self, Fault>
        ensures gives { Gives result (form text.now) }
        ensures sure { IfErr result (λ e. e ≡ Fault.Bad) };
}

/// Two fields, with a space between them.
impl<A: Field + Drop, B: Field + Drop> Field for (A, B) {
    ghost form = { pair_of space A.form B.form };

    fn read(text: &[u8]) -> Result<(A, B), Fault> {
        let (word, rest) = cut(text, SPACE)?;
        let first = A::read(word)?;
        let second = B::read(rest)?;
        Ok((first, second))
    }
}

#[tactic(auto, unfolding(crate::specs::Fields::number_of))]
fn number(text: &[u8], most: u64) -> Option<u64>
    ensures value { result ≡ number_of most text.now }
    ensures within { IfSome result (λ n. n ≤ most) }
{
    match text {
        [] => None,
        [b'0', _, ..] => None,
        _ => number_of_digits(text, most),
    }
}

/// A number of 32 bits.
impl Field for u32 {
    ghost form = { u32_of };

    fn read(text: &[u8]) -> Result<u32, Fault> {
        match number(text, 4294967295) {
            Some(number) => Ok(number as u32),
            None => Err(Fault::Bad),
        }
    }
}

/// A number of 64 bits.
impl Field for u64 {
    ghost form = { u64_of };

    fn read(text: &[u8]) -> Result<u64, Fault> {
        number(text, 18446744073709551615).ok_or(Fault::Bad)
    }
}

/// A name.
impl Field for Name {
    ghost form = { name_of };

    fn read(text: &[u8]) -> Result<Name, Fault> {
        name_of(text).ok_or(Fault::Bad)
    }
}

/// A value.
impl Field for Val {
    ghost form = { value_of };

    fn read(text: &[u8]) -> Result<Val, Fault> {
        value_of(text).ok_or(Fault::Bad)
    }
}

/// What a piece of a list spells.
trait Piece {
    /// The member of a piece, where it spells one.
    ghost form: { Items ℕ → Option Self };

    /// Reads the member. A set takes memory while it is read.
    fn member(alloc: Global, text: &[u8]) -> Result<Self, Fault>
        ensures { Gives result (form text.now) };
}

impl Piece for u32 {
    ghost form = { u32_of };

    fn member(_alloc: Global, text: &[u8]) -> Result<u32, Fault> {
        u32::read(text)
    }
}

impl Piece for SiteSet {
    ghost form = { sites_of };

    fn member(alloc: Global, text: &[u8]) -> Result<SiteSet, Fault> {
        sites(alloc, text)
    }
}

// The members of one piece or more, between marks.
#[tactic(auto, using(crate::proofs::Places::pieces_none, crate::proofs::Places::pieces_some))]
fn list<T: Piece + Drop>(alloc: Global, text: &[u8], mark: u8) -> Result<List<T>, Fault>
    ensures { Gives result (list_from T.form [] (pieces mark text.now)) }
{
    let mut members = List::new(alloc);
    let mut left = text;
    'pieces: loop {
        match cut(left, mark) {
            Ok((piece, more)) => {
                let member = T::member(alloc, piece)?;
                members.push(member)?;
                left = more;
            }
            Err(_) => {
                let member = T::member(alloc, left)?;
                members.push(member)?;
                return Ok(members);
            }
        }
    }
}

/// One or more numbers, with commas between them.
#[tactic(auto, unfolding(crate::specs::Fields::numbers_of))]
pub(crate) fn numbers(alloc: Global, text: &[u8]) -> Result<List<u32>, Fault>
    ensures { Gives result (numbers_of text.now) }
{
    list(alloc, text, COMMA)
}

/// One or more sites, strictly ascending, with commas between them.
#[tactic(auto, unfolding(crate::specs::Fields::sites_of))]
pub(crate) fn sites(alloc: Global, text: &[u8]) -> Result<SiteSet, Fault>
    ensures { Gives result (sites_of text.now) }
{
    let numbers = numbers(alloc, text)?;
    SiteSet::of(numbers.as_slice()).ok_or(Fault::Bad)
}

/// One or more parts of the network, with bars between them.
#[tactic(auto, unfolding(crate::specs::Fields::parts_of))]
pub(crate) fn parts(alloc: Global, text: &[u8]) -> Result<List<SiteSet>, Fault>
    ensures { Gives result (parts_of text.now) }
{
    list(alloc, text, BAR)
}

/// A key: a site, a point, and a name.
impl Field for Key {
    ghost form = { key_of };

    #[tactic(auto, unfolding(crate::specs::Fields::key_of))]
    fn read(text: &[u8]) -> Result<Key, Fault> {
        let (word, rest) = cut(text, POINT)?;
        let site = u32::read(word)?;
        let name = Name::read(rest)?;
        Ok(Key { site, name })
    }
}

/// A direction.
impl Field for Dir {
    ghost form = { dir_of };

    #[tactic(auto, unfolding(crate::specs::Fields::dir_of))]
    fn read(text: &[u8]) -> Result<Dir, Fault> {
        one_of(text, &DIRS).ok_or(Fault::Bad)
    }
}

/// A state.
impl Field for State {
    ghost form = { state_of };

    #[tactic(auto, unfolding(crate::specs::Fields::state_of))]
    fn read(text: &[u8]) -> Result<State, Fault> {
        one_of(text, &STATES).ok_or(Fault::Bad)
    }
}

/// An operation: `read KEY`, or `write KEY VALUE`.
impl Field for Op {
    ghost form = { op_of };

    #[tactic(auto, unfolding(crate::specs::Fields::op_of))]
    fn read(text: &[u8]) -> Result<Op, Fault> {
        let (verb, rest) = cut(text, SPACE)?;
        if is_text(verb, "read") {
            let key = Key::read(rest)?;
            Ok(Op::Read(key))
        } else if is_text(verb, "write") {
            let (key, val) = <(Key, Val)>::read(rest)?;
            Ok(Op::Write(key, val))
        } else {
            Err(Fault::Bad)
        }
    }
}

/// An answer: `written`, `absent`, or `value VALUE`.
impl Field for Answer {
    ghost form = { answer_of };

    #[tactic(auto, unfolding(crate::specs::Fields::answer_of))]
    fn read(text: &[u8]) -> Result<Answer, Fault> {
        if is_text(text, "written") {
            Ok(Answer::Written)
        } else if is_text(text, "absent") {
            Ok(Answer::Absent)
        } else {
            let rest = behind(text, "value")?;
            let val = Val::read(rest)?;
            Ok(Answer::Value(val))
        }
    }
}

/// The transaction of a name and its sites.
pub(crate) fn txn_from(name: TxnName, sites: SiteSet) -> Txn
    ensures { result ≡ txn_from name sites }
{
    Txn {
        site: name.0,
        inc: name.1.0,
        seq: name.1.1,
        sites,
    }
}

/// A transaction's name: three numbers with points between them.
#[tactic(auto, unfolding(crate::specs::Fields::txn_name_of))]
pub(crate) fn txn_name(text: &[u8]) -> Result<TxnName, Fault>
    ensures { Gives result (txn_name_of text.now) }
{
    let (word, rest) = cut(text, POINT)?;
    let site = u32::read(word)?;
    let (word, rest) = cut(rest, POINT)?;
    let inc = u32::read(word)?;
    let seq = u32::read(rest)?;
    Ok((site, (inc, seq)))
}
