// What a pass knows, and the rule that holds between any two steps.
use crate::chronicle::Chronicle;
use atomic_table::TableRule;
use std::collections::LinkedList;
use std::marker::PhantomData;
use std::snapshot::Snapshot;

/// What a pass knows. It is for the proofs alone: no value of it is made.
pub struct View<M> {
    /// The last owner that the lock has.
    pub last: u64,
    /// The owners that the pass speaks for. A pass that was joined into another has none.
    pub owners: LinkedList<u64>,
    /// The chronicle, as the pass has last seen it.
    pub seen: LinkedList<M>,
    /// Whether it has a ticket.
    pub waits: bool,
    /// Its ticket. Here no ticket is used twice, while the words of the table count them modulo 2^64.
    pub ticket: u64,
    /// Whether its ticket is served, and the value is with it.
    pub has_turn: bool,
    /// The owner that it is about to give away.
    pub chosen: u64,
    /// The owners of the first of the two passes that its last join put together; none before a join.
    pub first_owners: LinkedList<u64>,
    /// The chronicle that the first had seen.
    pub first_seen: LinkedList<M>,
    /// The owners of the second.
    pub second_owners: LinkedList<u64>,
    /// The chronicle that the second had seen.
    pub second_seen: LinkedList<M>,
}

/// What the rule knows of the lock from the start: its last owner, and the value that it was opened with.
#[derive(Drop)]
pub struct Key<V> {
    /// The last owner.
    pub last: u32,
    /// The value that the lock was opened with.
    pub opening: Snapshot<V>,
}

/// The rule of the lock.
pub struct TurnRule<V> {
    value: PhantomData<V>,
}

impl<V: Chronicle> TableRule<Option<V>, View<V::Mark>, Key<V>> for TurnRule<V> {
    ghost use Rattle.e3_turn.specs.Rule.{Holds, newcomer};

    ghost holds = { λ key. Holds V.marks V.belongs key.last };

    ghost first = { λ key. newcomer key.last (V.marks key.opening.value) };
}
