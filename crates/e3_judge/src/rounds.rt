// The rounds of a recover step: for each transaction that is open at a member of the group that is up, in ascending order.
ghost use Rattle.std.specs.Prelude.{◌≡◌, ◌++◌, filter, find, IfOk};
ghost use Rattle.std.specs.List.{flat_map};
ghost use Rattle.e3_world.specs.Items.{due_round, elected_txn, inputs_of, is_up_at, listed, open_at, recover_group, rounds_left, since_line, undecided_in};
ghost use Rattle.e3_world.specs.Lives.{life_of};

use crate::counts::count_on;
use crate::items::{is_up_at, since_line, to_line};
use crate::packets::present_items;
use crate::prefix::Prefix;
use e3_readings::{RecoveryRound, add_undecided_in, life_of, rounds_of};
use e3_types::{Act, Entry, Input, Item, List, NoMemory, SiteSet, Txn};
use e3_world::Incarnation;
use std::alloc::Global;

// Those of the group that are up.
fn up_in(alloc: Global, history: &[Entry], group: SiteSet) -> Result<List<u32>, NoMemory>
    ensures { IfOk result (λ up. up ≡ filter (is_up_at history.now) group) }
{
    let mut up = List::new(alloc);
    for site in group.iter() {
        if is_up_at(history, site) {
            up.push(site)?;
        }
    }
    Ok(up)
}

// The group of a recover step.
fn recover_group(items: &[Item]) -> Option<SiteSet>
    ensures { result ≡ recover_group items.now }
{
    match items {
        [Item::Recover { sites }, ..] => Some(*sites),
        _ => None,
    }
}

// Adds the transactions of the Elects among these inputs.
fn add_elects(inputs: &[Input], txns: &mut List<Txn>) -> Result<(), NoMemory>
    ensures { IfOk result (λ u. txns.new ≡ txns.old ++ flat_map elected_txn inputs.now) }
{
    for i in inputs {
        if let Input::Elect { txn, .. } = i {
            txns.push(*txn)?;
        }
    }
    Ok(())
}

// Adds the transactions of the Elects of an act.
fn add_elected(act: &Act, txns: &mut List<Txn>) -> Result<(), NoMemory>
    ensures { IfOk result (λ u. txns.new ≡ txns.old ++ flat_map elected_txn (inputs_of act.now)) }
{
    match act {
        Act::Step { input, .. } => match input {
            Input::Elect { txn, .. } => txns.push(*txn),
            _ => Ok(()),
        },
        Act::Fall { inputs, .. } => add_elects(inputs.as_slice(), txns),
        _ => Ok(()),
    }
}

// The transactions of the Elects of the present step, in turn.
fn made_txns(alloc: Global, history: &[Entry]) -> Result<List<Txn>, NoMemory>
    ensures { IfOk result (λ txns. txns ≡ flat_map elected_txn (flat_map (λ e. inputs_of e.act) (since_line history.now))) }
{
    let mut txns = List::new(alloc);
    for e in since_line(history) {
        add_elected(&e.act, &mut txns)?;
    }
    Ok(txns)
}

// The rounds that are left behind the Elects of these transactions.
fn rounds_left<'a>(made: &[Txn], rounds: &'a [RecoveryRound]) -> &'a [RecoveryRound]
    ensures { result.now ≡ rounds_left made.now rounds.now }
{
    match made {
        [] => rounds,
        [t, later @ ..] => match rounds {
            [] => rounds,
            [r, rest @ ..] => {
                if t.is_same(&r.txn) {
                    rounds_left(later, rest)
                } else {
                    rounds_left(made, rest)
                }
            }
        },
    }
}

// The first of these rounds whose elector is up.
fn first_up(history: &[Entry], rounds: &[RecoveryRound]) -> Option<RecoveryRound>
    ensures { result ≡ find (λ r. is_up_at history.now r.elector) rounds.now }
{
    for r in rounds {
        if is_up_at(history, r.elector) {
            return Some(*r);
        }
    }
    None
}

// Adds the undecided transactions that a site knows in this incarnation.
fn add_open_of(
    alloc: Global,
    site: u32,
    incarnation: &Incarnation,
    out: &mut List<Txn>,
) -> Result<(), NoMemory>
    ensures { IfOk result (λ u. out.new ≡ out.old ++ undecided_in site (life_of incarnation.now)) }
{
    count_on(incarnation.since.len())?;
    let life = life_of(
        alloc,
        incarnation.rose.as_slice(),
        incarnation.since.as_slice(),
    )?;
    let added = add_undecided_in(alloc, site, &life, out);
    // (handed to `drop`, it is given back by one call)
    drop(life);
    added
}

impl Prefix<'_> {
    // Adds the undecided transactions that a site knows.
    fn add_open(&self, site: u32, out: &mut List<Txn>) -> Result<(), NoMemory>
        ensures { IfOk result (λ u. out.new ≡ out.old ++ open_at self.now.scenario.now self.now.entries.now site) }
    {
        let incarnation = self.incarnation_at(site)?;
        let added = add_open_of(self.alloc, site, &incarnation, out);
        // (handed to `drop`, it is given back by one call)
        drop(incarnation);
        added
    }

    // The undecided transactions that these sites know, some more than once.
    fn open_of(&self, sites: &[u32]) -> Result<List<Txn>, NoMemory>
        ensures { IfOk result (λ txns. txns ≡ flat_map (open_at self.now.scenario.now self.now.entries.now) sites.now) }
    {
        let mut txns = List::new(self.alloc);
        for site in sites {
            self.add_open(*site, &mut txns)?;
        }
        Ok(txns)
    }

    // The rounds that a recover step with this group lists, where it starts behind these entries.
    fn listed(&self, group: SiteSet) -> Result<List<RecoveryRound>, NoMemory>
        ensures { IfOk result (λ rounds. rounds ≡ listed self.now.scenario.now self.now.entries.now group) }
    {
        // (for the proof alone: that the group ascends, as `count` says beside the count, so that those of it which are up do too)
        let _members = group.count();
        let up = up_in(self.alloc, self.entries, group)?;
        let open = self.open_of(up.as_slice())?;
        rounds_of(self.alloc, open.as_slice(), up.as_slice())
    }

    /// The next round to be made: the first that is left whose elector is up.
    pub fn due_round(&self) -> Result<Option<RecoveryRound>, NoMemory>
        ensures { IfOk result (λ due. due ≡ due_round self.now.scenario.now self.now.entries.now) }
    {
        match recover_group(present_items(self.scenario, self.entries)) {
            None => Ok(None),
            Some(group) => {
                let made = made_txns(self.alloc, self.entries)?;
                let start = Prefix::of(self.alloc, self.scenario, to_line(self.entries));
                let rounds = start.listed(group)?;
                Ok(first_up(
                    self.entries,
                    rounds_left(made.as_slice(), rounds.as_slice()),
                ))
            }
        }
    }
}
