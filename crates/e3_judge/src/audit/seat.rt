// What is kept of a site.
ghost use Rattle.std.specs.Prelude.{◌≡◌, true, IfOk};
ghost use Rattle.std.specs.List.{list_all};
ghost use Rattle.e3_judge.specs.audit.Seats.{empty_seat, is_done, is_down, noted};
ghost use Rattle.e3_judge.specs.declared.audit.seat.Being.TheVariants as being;

use e3_site::Site;
use e3_types::{Input, List, NoMemory};
use std::alloc::Global;

/// A site that is up, or one that is down.
#[derive(Drop)]
pub(crate) enum Being {
    Up(Site),
    Down,
}

/// What is kept of a site: what it is; the inputs that the present step asks of it, and how many of them it took; and whether
/// in that step it took a packet, and whether it rose or tried to.
#[derive(Drop)]
pub(crate) struct Seat {
    pub being: Being,
    pub inputs: List<Input>,
    pub turn: u64,
    pub delivered: bool,
    pub rising: bool,
}

impl Seat {
    /// That of a site without entries.
    pub(crate) fn new(alloc: Global) -> Seat
        ensures { result ≡ empty_seat }
    {
        Seat {
            being: Being::Down,
            inputs: List::new(alloc),
            turn: 0,
            delivered: false,
            rising: false,
        }
    }

    /// The site took one more input.
    pub(crate) fn note(&mut self, input: &Input) -> Result<(), NoMemory>
        ensures { IfOk result (λ u. self.new ≡ noted self.old input.now) }
    {
        match input {
            Input::Deliver { .. } => self.delivered = true,
            _ => self.turn = self.turn.checked_add(1).ok_or(NoMemory)?,
        }
        Ok(())
    }

    /// The site is down from now on.
    pub(crate) fn lie(&mut self)
        ensures { self.new ≡ record self.old { being = being.Down } }
    {
        self.being = Being::Down;
    }

    /// The site did not come up in its rise.
    pub(crate) fn stay_down(&mut self)
        ensures { self.new ≡ record self.old { being = being.Down; rising = true } }
    {
        self.being = Being::Down;
        self.rising = true;
    }

    /// The site rose, and is this one.
    pub(crate) fn stand(&mut self, up: Site)
        ensures { self.new ≡ record self.old { being = being.Up up; rising = true } }
    {
        self.being = Being::Up(up);
        self.rising = true;
    }

    /// The site is down.
    pub(crate) fn is_down(&self) -> bool
        ensures { result ≡ is_down self.now }
    {
        matches!(self.being, Being::Down)
    }
}

// The site took all that the present step asks of it, or is down.
fn is_done(seat: &Seat) -> bool
    ensures { result ≡ is_done seat.now }
{
    match &seat.being {
        Being::Up(_) => seat.inputs.len() <= seat.turn,
        Being::Down => true,
    }
}

/// All sites took all that the present step asks of them, or are down.
pub(crate) fn are_done(seats: &[Seat]) -> bool
    ensures { result ≡ list_all is_done seats.now }
{
    seats.iter().all(|seat| is_done(seat))
}

/// All sites rose or tried to in the present step.
pub(crate) fn have_risen(seats: &[Seat]) -> bool
    ensures { result ≡ list_all (λ s. s.rising) seats.now }
{
    seats.iter().all(|seat| seat.rising)
}
