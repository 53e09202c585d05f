// The packets of a history: how many were sent, and which are pending.
ghost use Rattle.std.specs.Prelude.{◌≡◌, ◌++◌, length, IfOk};
ghost use Rattle.e3_judge.specs.LeftOf.{left_of};
ghost use Rattle.e3_world.specs.Fate.{copies_of, same_part};
ghost use Rattle.e3_world.specs.Packets.{fate_of, is_calm, is_line, lines, outs_of, parts_of, pending, present_items, sent, taken, taken_by, takes_input};

use crate::counts::add;
use crate::prefix::Prefix;
use crate::steps::is_site;
use e3_readings::{is_line, step_items};
use e3_types::{Act, Entry, Input, Item, List, NoMemory, Packet, Scenario, SiteSet};
use e3_world::{copies_by_luck, fate_word, same_part};

/// How many lines there are.
pub fn lines(history: &[Entry]) -> u64
    ensures { result ≡ lines history.now }
{
    let mut count: u64 = 0;
    for e in history {
        if is_line(e) {
            count += 1;
        }
    }
    count
}

// The packets of an act.
fn outs_of(act: &Act) -> &[Packet]
    ensures { result.now ≡ outs_of act.now }
{
    match act {
        Act::Step { outs, .. } => outs.as_slice(),
        _ => &[],
    }
}

/// How many packets were sent.
pub fn sent_count(history: &[Entry]) -> Result<u64, NoMemory>
    ensures { IfOk result (λ count. count ≡ length (sent history.now)) }
{
    let mut count = 0;
    for e in history {
        count = add(count, outs_of(&e.act).len() as u64)?;
    }
    Ok(count)
}

/// The items of the present step.
pub fn present_items<'a>(scenario: &'a Scenario, history: &[Entry]) -> &'a [Item]
    ensures { result.now ≡ present_items scenario.now history.now }
{
    step_items(scenario, lines(history))
}

/// The network is calm in a recover step.
pub fn is_calm(items: &[Item]) -> bool
    ensures { result ≡ is_calm items.now }
{
    matches!(items, [Item::Recover { .. }, ..])
}

// Some part of the network has both sites. At first all sites are one part.
fn is_joined(scenario: &Scenario, before: &[Entry], s: u32, u: u32) -> bool
    ensures { result ≡ same_part (parts_of scenario.now before.now) s u }
{
    let mut joined = is_site(scenario, s) && is_site(scenario, u);
    for e in before {
        if let Act::Parts { parts } = &e.act {
            joined = same_part(parts.as_slice(), s, u);
        }
    }
    joined
}

// How many copies of a packet are to be delivered, by the parts, the calm and the luck where it is sent.
fn copies(scenario: &Scenario, before: &[Entry], packet: &Packet) -> u64
    ensures { result ≡ copies_of (fate_of scenario.now before.now packet.now) }
{
    if !is_joined(scenario, before, packet.from, packet.to) {
        return 0;
    }
    if is_calm(present_items(scenario, before)) {
        return 1;
    }
    u64::from(copies_by_luck(
        scenario.loss,
        scenario.repeat,
        fate_word(scenario.luck, packet.number) % 100,
    ))
}

// The input is the delivery of the packet with this number.
fn takes_input(number: u64, input: &Input) -> bool
    ensures { result ≡ takes_input number input.now }
{
    match input {
        Input::Deliver { packet } => packet.number == number,
        _ => false,
    }
}

// How many copies of the packet an act takes.
fn taken_by(number: u64, act: &Act) -> u64
    ensures { result ≡ taken_by number act.now }
{
    match act {
        Act::Step { input, .. } => { if takes_input(number, input) { 1 } else { 0 } }
        Act::Fall { inputs, .. } => {
            let inputs = inputs.as_slice();
            inputs.iter().filter(|i| takes_input(number, i)).count() as u64
        }
        Act::Drop { packet } => { if *packet == number { 1 } else { 0 } }
        _ => 0,
    }
}

// How many copies of the packet were taken.
fn taken(number: u64, history: &[Entry]) -> Result<u64, NoMemory>
    ensures { IfOk result (λ count. count ≡ taken number history.now) }
{
    let mut count = 0;
    for e in history {
        count = add(count, taken_by(number, &e.act))?;
    }
    Ok(count)
}

// Adds the packets of one entry, behind those before it, that have a copy left.
#[tactic(auto, unfolding(crate::specs::LeftOf::left_of))]
fn add_left(
    scenario: &Scenario,
    history: &[Entry],
    before: &[Entry],
    e: &Entry,
    left: &mut List<Packet>,
) -> Result<(), NoMemory>
    ensures { IfOk result (λ u. left.new ≡ left.old ++ left_of scenario.now history.now before.now e.now) }
{
    for p in outs_of(&e.act) {
        if taken(p.number, history)? < copies(scenario, before, p) {
            left.push(p.copy())?;
        }
    }
    Ok(())
}

impl Prefix<'_> {
    /// The pending packets, in the order of their numbers: those of which fewer copies were taken than their fate gives.
    pub fn pending(&self) -> Result<List<Packet>, NoMemory>
        ensures { IfOk result (λ packets. packets ≡ pending self.now.scenario.now self.now.entries.now) }
    {
        let mut left = List::new(self.alloc);
        for i in 0..self.entries.len() {
            let before = &self.entries[..i];
            add_left(
                self.scenario,
                self.entries,
                before,
                &self.entries[i],
                &mut left,
            )?;
        }
        Ok(left)
    }
}
