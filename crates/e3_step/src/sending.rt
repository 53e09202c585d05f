// That the sites to which a step may send are few: what says so is how many sites each set has, of the input and of the election
// or the round that its message is for. Nothing else comes of counting them.
ghost use Rattle.std.specs.Prelude.{IfOk};
ghost use Rattle.e3_laws.specs.steps.Sending.{HasFewMembers, HasFewReceivers, SendsToFew, TakesFew};

use crate::past::Past;
use e3_types::{Input, Message, NoMemory, Txn};

fn few_members<P: Past>(p: &P, t: &Txn) -> Result<(), NoMemory>
    ensures { IfOk result (λ u. HasFewMembers (P.at p.now) t.now) }
{
    if let Some(e) = p.election(t)? {
        let _members = e.group().count();
    }
    Ok(())
}

fn few_receivers<P: Past>(p: &P, t: &Txn)
    ensures { HasFewReceivers (P.at p.now) t.now }
{
    if let Some(r) = p.round(t) {
        let _receivers = r.receivers().count();
    }
}

// Of a message, and of what it makes the site have for itself: an election and a round are read for their own messages alone.
fn sends_to_few<P: Past>(p: &P, m: &Message) -> Result<(), NoMemory>
    ensures { IfOk result (λ u. SendsToFew (P.at p.now) m.now) }
{
    match m {
        Message::Ask { txn, .. }
        | Message::LastElected { txn, .. }
        | Message::Elected { txn, .. }
        | Message::Report { txn, .. } => few_members(p, txn)?,
        Message::Pre { txn, .. } | Message::Ack { txn, .. } => few_receivers(p, txn),
        Message::Do { txn, .. }
        | Message::Done { txn, .. }
        | Message::Died { txn, .. }
        | Message::VoteReq { txn, .. }
        | Message::Vote { txn, .. }
        | Message::Decide { txn, .. } => {
            let _sites = txn.sites.count();
        }
    }
    Ok(())
}

/// That an input has the site send to few sites. Want of memory is the only error.
pub fn takes_few<P: Past>(p: &P, input: &Input) -> Result<(), NoMemory>
    ensures { IfOk result (λ u. TakesFew (P.at p.now) input.now) }
{
    match input {
        Input::Begin { .. } => {}
        Input::Do { txn, .. }
        | Input::Commit { txn }
        | Input::Cancel { txn }
        | Input::Expire { txn } => {
            let _sites = txn.sites.count();
        }
        Input::Elect { group, .. } => {
            let _members = group.count();
        }
        Input::Deliver { packet } => sends_to_few(p, &packet.msg)?,
    }
    Ok(())
}
