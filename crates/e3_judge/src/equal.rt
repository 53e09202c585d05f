// Tests of equality of what an entry has.
ghost use Rattle.std.specs.Prelude.{◌≡◌, ℕ, Bool, List as Items};
ghost use Rattle.e3_types.specs.Same.{same_numbers, same_txn, same_key, same_dir, same_state, same_call};
ghost use Rattle.e3_judge.specs.Equal.{same_list, same_truth, same_answer, same_op, same_num_op, same_row, same_record, same_message, same_packet, same_input, same_refusal, same_verdict, same_told};

use e3_types::{
    Answer, Input, List, Message, NumOp, Op, Packet, Record, Refusal, Row, SiteSet, Told, Verdict,
};

/// A value that can be compared with another of its type, part by part.
pub trait Same {
    /// The test of two.
    ghost same: { Self → Self → Bool };

    /// The two are one.
    fn is_same(&self, other: &Self) -> bool
        ensures { result ≡ same self.now other.now };
}

/// The two lists are one.
pub fn same_list<T: Same>(xs: &[T], ys: &[T]) -> bool
    ensures { result ≡ same_list T.same xs.now ys.now }
{
    if xs.len() != ys.len() {
        return false;
    }
    for i in 0..xs.len() {
        if !xs[i].is_same(&ys[i]) {
            return false;
        }
    }
    true
}

// The two lists of numbers are one.
#[tactic(auto, using(e3_types::proofs::Orders::pointwise_same))]
fn same_numbers(xs: &[u32], ys: &[u32]) -> bool
    ensures { result ≡ same_numbers xs.now ys.now }
{
    xs == ys
}

// The two truths are one.
fn same_truth(a: bool, b: bool) -> bool
    ensures { result ≡ same_truth a b }
{
    a == b
}

// The two values are of one variant and have the same parts. Each arm is a variant with its parts, as a pattern that
// binds those of the other value, and the test of the parts.
macro_rules! same_variant {
    (
        $one:expr, $other:expr;
        $($kind:ident::$variant:ident { $($part:ident: $its:ident),* } => $same:expr),+ $(,)?
    ) => {
        match ($one, $other) {
            $(($kind::$variant { $($part),* }, $kind::$variant { $($part: $its),* }) => $same,)+
            _ => false,
        }
    };
}

impl Same for SiteSet {
    ghost same = { same_numbers };

    fn is_same(&self, other: &SiteSet) -> bool {
        SiteSet::is_same(*self, *other)
    }
}

impl Same for Row {
    ghost same = { same_row };

    fn is_same(&self, other: &Row) -> bool {
        self.name.is_same(&other.name) && self.val.is_same(&other.val)
    }
}

impl Same for Answer {
    ghost same = { same_answer };

    fn is_same(&self, other: &Answer) -> bool {
        match (self, other) {
            (Answer::Absent, Answer::Absent) => true,
            (Answer::Value(val), Answer::Value(other_val)) => val.is_same(other_val),
            (Answer::Written, Answer::Written) => true,
            _ => false,
        }
    }
}

impl Same for Op {
    ghost same = { same_op };

    fn is_same(&self, other: &Op) -> bool {
        match (self, other) {
            (Op::Read(key), Op::Read(k)) => key.is_same(k),
            (Op::Write(key, val), Op::Write(k, v)) => key.is_same(k) && val.is_same(v),
            _ => false,
        }
    }
}

impl Same for NumOp {
    ghost same = { same_num_op };

    fn is_same(&self, other: &NumOp) -> bool {
        self.n == other.n && self.op.is_same(&other.op)
    }
}

impl Same for Record {
    ghost same = { same_record };

    fn is_same(&self, other: &Record) -> bool {
        same_variant!(self, other;
            Record::Birth { format: f, site: s, weights: w, rows: r } => {
                format == f
                    && site == s
                    && same_numbers(weights.as_slice(), w.as_slice())
                    && same_list(rows.as_slice(), r.as_slice())
            },
            Record::Inc { inc: i } => inc == i,
            Record::Vote { txn: t, ops: o } => {
                txn.is_same(t) && same_list(ops.as_slice(), o.as_slice())
            },
            Record::Join { txn: t, n: m } => txn.is_same(t) && n == m,
            Record::Attempt { txn: t, n: m, dir: d } => txn.is_same(t) && n == m && dir.is_same(*d),
            Record::Decision { txn: t, dir: d } => txn.is_same(t) && dir.is_same(*d),
        )
    }
}

impl Same for Message {
    ghost same = { same_message };

    fn is_same(&self, other: &Message) -> bool {
        same_variant!(self, other;
            Message::Do { txn: t, n: m, op: o } => txn.is_same(t) && n == m && op.is_same(o),
            Message::Done { txn: t, n: m, inc: i, answer: a } => {
                txn.is_same(t) && n == m && inc == i && answer.is_same(a)
            },
            Message::Died { txn: t, n: m, older: o } => {
                txn.is_same(t) && n == m && older.is_same(o)
            },
            Message::Ask { txn: t, call: c } => txn.is_same(t) && call.is_same(*c),
            Message::LastElected { txn: t, call: c, elected: e } => {
                txn.is_same(t) && call.is_same(*c) && elected == e
            },
            Message::Elected { txn: t, n: m } => txn.is_same(t) && n == m,
            Message::Report { txn: t, n: m, state: s, attempt: a } => {
                txn.is_same(t) && n == m && state.is_same(*s) && attempt == a
            },
            Message::VoteReq { txn: t, inc: i, count: c } => {
                txn.is_same(t) && inc == i && count == c
            },
            Message::Vote { txn: t, yes: y } => txn.is_same(t) && same_truth(*yes, *y),
            Message::Pre { txn: t, n: m, dir: d } => txn.is_same(t) && n == m && dir.is_same(*d),
            Message::Ack { txn: t, n: m, dir: d } => txn.is_same(t) && n == m && dir.is_same(*d),
            Message::Decide { txn: t, dir: d } => txn.is_same(t) && dir.is_same(*d),
        )
    }
}

impl Same for Packet {
    ghost same = { same_packet };

    fn is_same(&self, other: &Packet) -> bool {
        self.number == other.number
            && self.from == other.from
            && self.to == other.to
            && self.msg.is_same(&other.msg)
    }
}

impl Same for Input {
    ghost same = { same_input };

    fn is_same(&self, other: &Input) -> bool {
        same_variant!(self, other;
            Input::Begin { sites: s } => sites.is_same(s),
            Input::Do { txn: t, op: o } => txn.is_same(t) && op.is_same(o),
            Input::Commit { txn: t } => txn.is_same(t),
            Input::Cancel { txn: t } => txn.is_same(t),
            Input::Expire { txn: t } => txn.is_same(t),
            Input::Elect { txn: t, group: g } => txn.is_same(t) && group.is_same(g),
            Input::Deliver { packet: p } => packet.is_same(p),
        )
    }
}

impl Same for Refusal {
    ghost same = { same_refusal };

    fn is_same(&self, other: &Refusal) -> bool {
        same_variant!(self, other;
            Refusal::NoTxn {} => true,
            Refusal::Busy { op: o } => op == o,
            Refusal::Over { dir: d } => dir.is_same(*d),
            Refusal::Died { older: o } => older.is_same(o),
            Refusal::Doomed { site: s, had: h, now: n } => site == s && had == h && now == n,
            Refusal::TooLate { attempt: a } => attempt == a,
        )
    }
}

impl Same for Verdict {
    ghost same = { same_verdict };

    fn is_same(&self, other: &Verdict) -> bool {
        same_variant!(self, other;
            Verdict::Abort {} => true,
            Verdict::Commit {} => true,
            Verdict::PreCommit {} => true,
            Verdict::PreAbort {} => true,
            Verdict::Block { have: h, total: t } => have == h && total == t,
        )
    }
}

impl Same for Told {
    ghost same = { same_told };

    fn is_same(&self, other: &Told) -> bool {
        same_variant!(self, other;
            Told::Began { txn: t } => txn.is_same(t),
            Told::Op { txn: t, n: m, answer: a } => txn.is_same(t) && n == m && answer.is_same(a),
            Told::Ended { txn: t, dir: d } => txn.is_same(t) && dir.is_same(*d),
            Told::Died { txn: t, older: o } => txn.is_same(t) && older.is_same(o),
            Told::Doomed { txn: t, site: s, had: h, now: n } => {
                txn.is_same(t) && site == s && had == h && now == n
            },
            Told::Refused { txn: t, refusal: r } => txn.is_same(t) && refusal.is_same(r),
            Told::Kept { txn: t, state: s } => txn.is_same(t) && state.is_same(*s),
            Told::Verdict { txn: t, n: m, verdict: v } => {
                txn.is_same(t) && n == m && verdict.is_same(v)
            },
        )
    }
}
