// The recovery rounds of a history: how many entries of its own each took, beside its bound, and what `recover` reports of it.
use crate::rounds::verdicts::push_verdict_or_none;
use e3_play::round_report;
use e3_readings::RecoveryRound;
use e3_report::Page;
use e3_types::{Act, Entry, Input, Item, Message, Scenario, Txn};

// The step of this number is a recovery.
fn is_recovery(scenario: &Scenario, number: u32) -> bool {
    match scenario
        .steps
        .as_slice()
        .get(number.saturating_sub(1) as usize)
    {
        Some(items) => matches!(items.as_slice(), [Item::Recover { .. }]),
        None => false,
    }
}

// The round that an input begins.
fn begun_by(owner: u32, input: &Input) -> Option<RecoveryRound> {
    match input {
        Input::Elect { txn, group } => Some(RecoveryRound {
            txn: *txn,
            members: *group,
            elector: owner,
        }),
        _ => None,
    }
}

// The round that an entry begins, as a step of its elector or as a fall over the Elect.
fn begun_with(entry: &Entry) -> Option<RecoveryRound> {
    match &entry.act {
        Act::Step { input, .. } => begun_by(entry.owner, input),
        Act::Fall { inputs, .. } => match inputs.as_slice() {
            [input, ..] => begun_by(entry.owner, input),
            [] => None,
        },
        _ => None,
    }
}

// The transaction of a message by which a round ends one.
fn ended_by(msg: &Message) -> Option<Txn> {
    match msg {
        Message::Ask { txn, .. } => Some(*txn),
        Message::LastElected { txn, .. } => Some(*txn),
        Message::Elected { txn, .. } => Some(*txn),
        Message::Report { txn, .. } => Some(*txn),
        Message::Pre { txn, .. } => Some(*txn),
        Message::Ack { txn, .. } => Some(*txn),
        Message::Decide { txn, .. } => Some(*txn),
        _ => None,
    }
}

// The input is one of the round's own: its Elect, or the delivery of such a message that a member sent.
fn is_own(round: &RecoveryRound, input: &Input) -> bool {
    match input {
        Input::Elect { txn, .. } => txn.is_same(&round.txn),
        Input::Deliver { packet } => match ended_by(&packet.msg) {
            Some(txn) => round.members.has(packet.from) && txn.is_same(&round.txn),
            None => false,
        },
        _ => false,
    }
}

fn has_own(round: &RecoveryRound, act: &Act) -> bool {
    match act {
        Act::Step { input, .. } => is_own(round, input),
        Act::Fall { inputs, .. } => inputs.as_slice().iter().any(|input| is_own(round, input)),
        _ => false,
    }
}

// How many of these entries are the round's own.
fn own_count(round: &RecoveryRound, entries: &[Entry]) -> u64 {
    let mut count: u64 = 0;
    for entry in entries {
        if has_own(round, &entry.act) {
            count = count.saturating_add(1);
        }
    }
    count
}

// Adds a round that entered these entries: its own of as many as it may have, and its verdict.
fn push_round(page: &mut Page, round: &RecoveryRound, entries: &[Entry]) {
    let others = u64::from(round.members.count()).saturating_sub(1);
    page.text(", round ");
    page.txn(&round.txn);
    page.text(" of ");
    page.sites(round.members);
    page.labelled(": ", own_count(round, entries));
    page.labelled(" of ", others.saturating_mul(7).saturating_add(1));
    page.text(", ");
    push_verdict_or_none(page, round_report(round, entries).verdict);
}

// How many of these entries stand before the next line or the next round.
fn length_of_round(entries: &[Entry]) -> usize {
    let mut length = 1;
    for entry in entries.iter().skip(1) {
        if matches!(entry.act, Act::Line { .. }) || begun_with(entry).is_some() {
            return length;
        }
        length = length.saturating_add(1);
    }
    length
}

// Adds the round that the first of these entries begins, if it begins one.
fn push_begun(page: &mut Page, entries: &[Entry]) {
    let [first, ..] = entries else {
        return;
    };
    if let Some(round) = begun_with(first) {
        let length = length_of_round(entries).min(entries.len());
        push_round(page, &round, &entries[..length]);
    }
}

/// Adds the rounds of the recovery steps of a history.
pub fn push_rounds(page: &mut Page, scenario: &Scenario, history: &[Entry]) {
    let mut recovers = false;
    for (at, entry) in history.iter().enumerate() {
        if let Act::Line { number } = &entry.act {
            recovers = is_recovery(scenario, *number);
        }
        if recovers {
            push_begun(page, &history[at..]);
        }
    }
}
