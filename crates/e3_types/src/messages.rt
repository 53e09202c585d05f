// What sites send to each other.
ghost use Rattle.std.specs.Prelude.{◌≡◌};
ghost use Rattle.e3_types.specs.Ranks.{rank};

use crate::{Answer, Call, Dir, Op, State, Txn};

/// A message of a site to another site of a transaction, or to itself.
#[derive(Drop)]
pub enum Message {
    /// The coordinator asks for an operation.
    Do {
        txn: Txn,
        n: u32,
        op: Op,
    },
    /// An operation was done, in this incarnation of the sender.
    Done {
        txn: Txn,
        n: u32,
        inc: u32,
        answer: Answer,
    },
    /// An operation was refused its lock, for the sake of an older transaction.
    Died {
        txn: Txn,
        n: u32,
        older: Txn,
    },
    /// An elector asks for Last_Elected.
    Ask {
        txn: Txn,
        call: Call,
    },
    /// The answer to an elector's call.
    LastElected {
        txn: Txn,
        call: Call,
        elected: u32,
    },
    /// An elector names the number of its election.
    Elected {
        txn: Txn,
        n: u32,
    },
    /// The state and Last_Attempt of a site that joined an election.
    Report {
        txn: Txn,
        n: u32,
        state: State,
        attempt: u32,
    },
    /// The coordinator asks for a vote. It has heard so many answers, all of this incarnation of the receiver.
    VoteReq {
        txn: Txn,
        inc: u32,
        count: u32,
    },
    /// A vote.
    Vote {
        txn: Txn,
        yes: bool,
    },
    /// The third phase: attempt this direction under this number.
    Pre {
        txn: Txn,
        n: u32,
        dir: Dir,
    },
    /// The attempt is logged.
    Ack {
        txn: Txn,
        n: u32,
        dir: Dir,
    },
    /// The transaction is decided.
    Decide {
        txn: Txn,
        dir: Dir,
    },
}

impl Message {
    /// An equal message.
    pub fn copy(&self) -> Message
        ensures { result ≡ self.now }
    {
        match *self {
            Message::Do { txn, n, ref op } => Message::Do {
                txn,
                n,
                op: op.copy(),
            },
            Message::Done {
                txn,
                n,
                inc,
                ref answer,
            } => Message::Done {
                txn,
                n,
                inc,
                answer: answer.copy(),
            },
            Message::Died { txn, n, older } => Message::Died { txn, n, older },
            Message::Ask { txn, call } => Message::Ask { txn, call },
            Message::LastElected { txn, call, elected } => Message::LastElected {
                txn,
                call,
                elected,
            },
            Message::Elected { txn, n } => Message::Elected { txn, n },
            Message::Report {
                txn,
                n,
                state,
                attempt,
            } => Message::Report {
                txn,
                n,
                state,
                attempt,
            },
            Message::VoteReq { txn, inc, count } => Message::VoteReq { txn, inc, count },
            Message::Vote { txn, yes } => Message::Vote { txn, yes },
            Message::Pre { txn, n, dir } => Message::Pre { txn, n, dir },
            Message::Ack { txn, n, dir } => Message::Ack { txn, n, dir },
            Message::Decide { txn, dir } => Message::Decide { txn, dir },
        }
    }
}

/// A message on its way. Packets are numbered from 1 in the order in which they are sent; a step that is not yet
/// entered in the history has packets with number 0.
#[derive(Drop)]
pub struct Packet {
    pub number: u64,
    pub from: u32,
    pub to: u32,
    pub msg: Message,
}

impl Packet {
    /// An equal packet.
    pub fn copy(&self) -> Packet
        ensures { result ≡ self.now }
    {
        Packet {
            number: self.number,
            from: self.from,
            to: self.to,
            msg: self.msg.copy(),
        }
    }
}

/// The rank of a message, 11 to 0. It is made so that a step which settles can be measured: what a message makes a site
/// send is meant to have a lower rank.
pub fn rank(msg: &Message) -> u8
    ensures { result ≡ rank msg.now }
{
    match msg {
        Message::Ask { .. } => 11,
        Message::LastElected { .. } => 10,
        Message::Elected { .. } => 9,
        Message::Report { .. } => 8,
        Message::Do { .. } => 7,
        Message::VoteReq { .. } => 6,
        Message::Vote { .. } => 5,
        Message::Pre { .. } => 4,
        Message::Ack { .. } => 3,
        Message::Died { .. } => 2,
        Message::Decide { .. } => 1,
        Message::Done { .. } => 0,
    }
}
