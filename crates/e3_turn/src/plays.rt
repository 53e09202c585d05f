// What each kind of step tells the pass that makes it. These types are for the proofs alone.
ghost use Rattle.e3_turn.specs.Rule.{joined, kept_part, nobody, dealt_part};
ghost use Rattle.e3_turn.specs.Steps.{chose, drew, learned, looked, passed_on};

use crate::chronicle::Chronicle;
use crate::view::View;
use atomic_table::{Join, Play, Split};
use std::marker::PhantomData;

/// Draws a ticket.
pub struct Draws;

impl<V: Chronicle> Play<Option<V>, View<V::Mark>> for Draws {
    ghost then = { drew };
}

/// Looks which ticket is served.
pub struct Looks<V> {
    value: PhantomData<V>,
}

impl<V: Chronicle> Play<Option<V>, View<V::Mark>> for Looks<V> {
    ghost then = { looked V.marks V.belongs };
}

/// Passes the turn on to the next ticket.
pub struct PassesOn<V> {
    value: PhantomData<V>,
}

impl<V: Chronicle> Play<Option<V>, View<V::Mark>> for PassesOn<V> {
    ghost then = { passed_on V.marks };
}

/// Chooses the owner that is given away next.
pub struct Chooses;

impl<V: Chronicle> Play<Option<V>, View<V::Mark>> for Chooses {
    ghost then = { chose };
}

/// Learns how the two chronicles of the last join stand to each other.
pub struct Learns<V> {
    value: PhantomData<V>,
}

impl<V: Chronicle> Play<Option<V>, View<V::Mark>> for Learns<V> {
    ghost then = { learned V.belongs };
}

/// Gives the chosen owner to a pass of its own.
pub struct GivesAway;

impl<M> Split<View<M>> for GivesAway {
    ghost left = { kept_part };

    ghost right = { dealt_part };
}

/// Puts two passes together.
pub struct PutsTogether;

impl<M> Join<View<M>> for PutsTogether {
    ghost both = { joined };

    ghost spent = { nobody };
}
