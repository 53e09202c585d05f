// The entries of a history: what happened, in the order in which it happened.
ghost use Rattle.std.specs.Prelude.{◌≡◌};

use crate::{Answer, Dir, List, Op, Packet, Record, SiteSet, State, Txn, Verdict};

/// What makes a site take a step: a client's call, a step of the scenario, or a packet.
#[derive(Drop)]
pub enum Input {
    Begin { sites: SiteSet },
    Do { txn: Txn, op: Op },
    Commit { txn: Txn },
    Cancel { txn: Txn },
    Expire { txn: Txn },
    Elect { txn: Txn, group: SiteSet },
    Deliver { packet: Packet },
}

impl Input {
    /// An equal input.
    pub fn copy(&self) -> Input
        ensures { result ≡ self.now }
    {
        match *self {
            Input::Begin { sites } => Input::Begin { sites },
            Input::Do { txn, ref op } => Input::Do { txn, op: op.copy() },
            Input::Commit { txn } => Input::Commit { txn },
            Input::Cancel { txn } => Input::Cancel { txn },
            Input::Expire { txn } => Input::Expire { txn },
            Input::Elect { txn, group } => Input::Elect { txn, group },
            Input::Deliver { ref packet } => Input::Deliver {
                packet: packet.copy(),
            },
        }
    }
}

/// Why a client's call is refused: the transaction is none of the present incarnation, an operation is unanswered, it
/// is decided, it died or was doomed in this incarnation, or it went too far to be called back.
#[derive(Clone, Copy)]
pub enum Refusal {
    NoTxn,
    Busy { op: u32 },
    Over { dir: Dir },
    Died { older: Txn },
    Doomed { site: u32, had: u32, now: u32 },
    TooLate { attempt: u32 },
}

/// What a step tells the world outside. `Died` and `Doomed` say that the transaction is aborted.
#[derive(Drop)]
pub enum Told {
    Began {
        txn: Txn,
    },
    Op {
        txn: Txn,
        n: u32,
        answer: Answer,
    },
    Ended {
        txn: Txn,
        dir: Dir,
    },
    Died {
        txn: Txn,
        older: Txn,
    },
    Doomed {
        txn: Txn,
        site: u32,
        had: u32,
        now: u32,
    },
    Refused {
        txn: Txn,
        refusal: Refusal,
    },
    Kept {
        txn: Txn,
        state: State,
    },
    Verdict {
        txn: Txn,
        n: u32,
        verdict: Verdict,
    },
}

impl Told {
    /// An equal event.
    pub fn copy(&self) -> Told
        ensures { result ≡ self.now }
    {
        match *self {
            Told::Began { txn } => Told::Began { txn },
            Told::Op { txn, n, ref answer } => Told::Op {
                txn,
                n,
                answer: answer.copy(),
            },
            Told::Ended { txn, dir } => Told::Ended { txn, dir },
            Told::Died { txn, older } => Told::Died { txn, older },
            Told::Doomed {
                txn,
                site,
                had,
                now,
            } => Told::Doomed {
                txn,
                site,
                had,
                now,
            },
            Told::Refused { txn, refusal } => Told::Refused { txn, refusal },
            Told::Kept { txn, state } => Told::Kept { txn, state },
            Told::Verdict { txn, n, verdict } => Told::Verdict { txn, n, verdict },
        }
    }
}

/// Why a site fell: its disk failed, or had not room for the frame that was due.
#[derive(Clone, Copy)]
pub enum Why {
    Fault,
    Full { need: u64, room: u64 },
}

/// What an entry says: a step, a fall in place of one, a rise, a failed rise, a missed rise, a cut of the power, a
/// dropped packet, new parts of the network, or the next line of the scenario.
#[derive(Drop)]
pub enum Act {
    Step {
        input: Input,
        records: List<Record>,
        outs: List<Packet>,
        told: List<Told>,
    },
    Fall {
        inputs: List<Input>,
        records: List<Record>,
        why: Why,
    },
    Rise {
        kept: bool,
        inc: u32,
    },
    RiseFall {
        kept: bool,
        inc: u32,
        why: Why,
    },
    Miss,
    Cut,
    Drop {
        packet: u64,
    },
    Parts {
        parts: List<SiteSet>,
    },
    Line {
        number: u32,
    },
}

/// An entry of a history. Owner 0 is the driver, every other owner is a site.
#[derive(Drop)]
pub struct Entry {
    pub owner: u32,
    pub act: Act,
}
