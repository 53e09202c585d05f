// The guards of an entry, tried in order: nothing is computed behind the first that fails.
ghost use Rattle.std.specs.Prelude.{◌≡◌, ◌==◌, ◌+◌, ◌++◌, ◌||◌, ◌∷◌, [], IfOk, suc, length, not, is_none};
ghost use Rattle.e3_types.specs.Same.{same_numbers};
ghost use Rattle.e3_types.specs.declared.entries.Act.TheVariants as act;
ghost use Rattle.e3_world.specs.Items.{is_up_at};
ghost use Rattle.e3_world.specs.Legal.{numbered};
ghost use Rattle.e3_world.specs.Moves.{log_by, kept_moves, open_tail};
ghost use Rattle.e3_world.specs.Packets.{pending, sent};
ghost use Rattle.e3_judge.specs.declared.breach.Guard.TheVariants as guard;
ghost use Rattle.e3_judge.specs.Checks.{Check, is_site, line_is_due, parts_are_due, may_drop, drop_is_due, is_crash, is_next_inc, step_checks, fall_checks, rising_checks, rise_checks, checks, first_failing};
ghost use Rattle.e3_judge.specs.Equal.{is_some, same_list, same_packet, same_record, same_told};

use crate::equal::{Same, same_list};
use crate::inputs::is_empty;
use crate::prefix::Prefix;
use crate::{
    Guard, Tail, is_site, is_up_at, lines, may_rise, present_items, sent_count, since_line,
};
use e3_readings::{logged_inc, parts_due};
use e3_types::{Act, Entry, Input, Item, List, NoMemory, Packet, Record, SiteSet, Told};
use e3_world::Made;
use std::alloc::Global;

// The number is one more than so many.
fn is_next(number: u32, count: u64) -> bool
    ensures { result ≡ (number == suc count) }
{
    number >= 1 && (number - 1) as u64 == count
}

// These parts are due.
fn are_parts(due: &Option<List<SiteSet>>, parts: &[SiteSet]) -> bool
    ensures { result ≡ is_some (same_list same_numbers) due.now parts.now }
{
    match due {
        Some(due) => same_list(due.as_slice(), parts),
        None => false,
    }
}

// The packet is this one, numbered behind so many that were sent and so many beside it.
fn is_numbered(packet: &Packet, sent: u64, at: u64, made: &Packet) -> bool
    ensures { result ≡ same_packet packet.now (record made.now { number = suc (sent + at) }) }
{
    packet.number > sent
        && packet.number - sent - 1 == at
        && packet.from == made.from
        && packet.to == made.to
        && packet.msg.is_same(&made.msg)
}

/// The packets are those that were made, numbered behind so many that were sent before.
pub fn are_numbered(packets: &[Packet], sent: u64, made: &[Packet]) -> bool
    ensures { result ≡ same_list same_packet packets.now (numbered (suc sent) made.now) }
{
    if packets.len() != made.len() {
        return false;
    }
    for i in 0..packets.len() {
        if !is_numbered(&packets[i], sent, i as u64, &made[i]) {
            return false;
        }
    }
    true
}

// The present step is the site's crash.
fn is_crash(items: &[Item], site: u32) -> bool
    ensures { result ≡ is_crash items.now site }
{
    match items {
        [Item::Crash { site: s }] => *s == site,
        _ => false,
    }
}

// Adds the records of the tail that is kept.
fn add_kept(
    alloc: Global,
    site: u32,
    kept: bool,
    tail: &Option<Tail>,
    log: &mut List<Record>,
) -> Result<(), NoMemory>
    ensures { IfOk result (λ u. log.new ≡ log.old ++ log_by (kept_moves site kept tail.now)) }
{
    match tail {
        Some(tail) if kept => log.add_copies(alloc, tail.records.as_slice()),
        _ => Ok(()),
    }
}

// The guard, if it does not hold.
fn unless(holds: bool, guard: Guard) -> Option<Guard>
    ensures { result ≡ first_failing (record { guard = guard; holds = holds } ∷ []) }
{
    if holds { None } else { Some(guard) }
}

impl Prefix<'_> {
    // The next line, once all before is through.
    fn line_is_due(&self, number: u32) -> Result<bool, NoMemory>
        ensures { IfOk result (λ b. b ≡ line_is_due self.now.scenario.now self.now.entries.now number) }
    {
        if !is_next(number, lines(self.entries)) || number as u64 > self.scenario.steps.len() {
            return Ok(false);
        }
        self.is_through()
    }

    // Directly behind the line of a split or a merge, with its parts.
    fn parts_are_due(&self, parts: &[SiteSet]) -> Result<bool, NoMemory>
        ensures { IfOk result (λ b. b ≡ parts_are_due self.now.scenario.now self.now.entries.now parts.now) }
    {
        if !is_empty(since_line(self.entries)) {
            return Ok(false);
        }
        // (no set of sites has more than 64, so that a merge of more has no parts to compare with: as where a count is too
        // great for its bits, more sites are said to want memory)
        if self.scenario.weights.len() > 64 {
            return Err(NoMemory);
        }
        let due = parts_due(
            self.alloc,
            self.scenario,
            present_items(self.scenario, self.entries),
        )?;
        Ok(are_parts(&due, parts))
    }

    // The packet has this number, its receiver is down, and in a recover step it is the least pending one.
    fn may_drop(&self, waiting: &[Packet], number: u64, packet: &Packet) -> bool
        requires { waiting.now ≡ pending self.now.scenario.now self.now.entries.now }
        ensures { result ≡ may_drop self.now.scenario.now self.now.entries.now number packet.now }
    {
        packet.number == number
            && !is_up_at(self.entries, packet.to)
            && self.is_in_order(waiting, packet)
    }

    // Some packet of this number is pending, and may be dropped.
    fn drop_is_due(&self, number: u64) -> Result<bool, NoMemory>
        ensures { IfOk result (λ b. b ≡ drop_is_due self.now.scenario.now self.now.entries.now number) }
    {
        let waiting = self.pending()?;
        for packet in waiting.as_slice() {
            if self.may_drop(waiting.as_slice(), number, packet) {
                return Ok(true);
            }
        }
        Ok(false)
    }

    // What a step has is what its input makes.
    fn made_breach(
        &self,
        made: &Made,
        records: &[Record],
        outs: &[Packet],
        told: &[Told],
    ) -> Result<Option<Guard>, NoMemory>
        ensures { IfOk result (λ g. g ≡ first_failing (
            record { guard = guard.Records; holds = same_list same_record records.now made.now.records } ∷
            record { guard = guard.Outs; holds = same_list same_packet outs.now (numbered (suc (length (sent self.now.entries.now))) made.now.outs) } ∷
            record { guard = guard.Told; holds = same_list same_told told.now made.now.told } ∷
            [])) }
    {
        if !same_list(records, made.records.as_slice()) {
            return Ok(Some(Guard::Records));
        }
        let sent = sent_count(self.entries)?;
        if !are_numbered(outs, sent, made.outs.as_slice()) {
            return Ok(Some(Guard::Outs));
        }
        Ok(unless(same_list(told, made.told.as_slice()), Guard::Told))
    }

    // The first guard that an entry of a site fails which has to be up.
    fn absent_breach(&self, site: u32) -> Option<Guard>
        ensures { result ≡ first_failing (
            record { guard = guard.Owner; holds = is_site self.now.scenario.now site } ∷
            record { guard = guard.Up; holds = is_up_at self.now.entries.now site } ∷
            []) }
    {
        if !is_site(self.scenario, site) {
            return Some(Guard::Owner);
        }
        unless(is_up_at(self.entries, site), Guard::Up)
    }

    // The first guard that a step fails.
    fn step_breach(
        &self,
        site: u32,
        input: &Input,
        records: &[Record],
        outs: &[Packet],
        told: &[Told],
    ) -> Result<Option<Guard>, NoMemory>
        ensures { IfOk result (λ g. g ≡ first_failing (step_checks self.now.scenario.now self.now.entries.now site input.now records.now outs.now told.now)) }
    {
        let absent = self.absent_breach(site);
        if absent.is_some() {
            return Ok(absent);
        }
        if !self.input_is_due(site, input)? {
            return Ok(Some(Guard::Input));
        }
        let made = self.made_by(site, input)?;
        self.made_breach(&made, records, outs, told)
    }

    // The first guard that a fall fails.
    fn fall_breach(
        &self,
        site: u32,
        inputs: &[Input],
        records: &[Record],
    ) -> Result<Option<Guard>, NoMemory>
        ensures { IfOk result (λ g. g ≡ first_failing (fall_checks self.now.scenario.now self.now.entries.now site inputs.now records.now)) }
    {
        let absent = self.absent_breach(site);
        if absent.is_some() {
            return Ok(absent);
        }
        if !self.inputs_are_due(site, inputs)? {
            return Ok(Some(Guard::Input));
        }
        if is_empty(records) {
            return Ok(Some(Guard::Records));
        }
        let made = self.records_by(site, inputs)?;
        Ok(unless(same_list(records, made.as_slice()), Guard::Records))
    }

    // The first guard that a cut fails.
    fn cut_breach(&self, site: u32) -> Option<Guard>
        ensures { result ≡ first_failing (checks self.now.scenario.now self.now.entries.now (record { owner = site; act = act.Cut })) }
    {
        let absent = self.absent_breach(site);
        if absent.is_some() {
            return absent;
        }
        let items = present_items(self.scenario, self.entries);
        unless(is_crash(items, site), Guard::Step)
    }

    // The first guard that a rise fails, also one that failed or that never read the log.
    fn rising_breach(&self, site: u32) -> Option<Guard>
        ensures { result ≡ first_failing (rising_checks self.now.scenario.now self.now.entries.now site) }
    {
        if !is_site(self.scenario, site) {
            return Some(Guard::Owner);
        }
        if is_up_at(self.entries, site) {
            return Some(Guard::Up);
        }
        unless(may_rise(self.scenario, self.entries, site), Guard::Step)
    }

    // The incarnation is one more than the last, the open tail counted where it is kept.
    fn is_next_inc(
        &self,
        site: u32,
        kept: bool,
        tail: &Option<Tail>,
        inc: u32,
    ) -> Result<bool, NoMemory>
        requires { tail.now ≡ open_tail self.now.scenario.now self.now.entries.now site }
        ensures { IfOk result (λ b. b ≡ is_next_inc self.now.scenario.now self.now.entries.now site kept inc) }
    {
        let mut log = self.log_at(site)?;
        add_kept(self.alloc, site, kept, tail, &mut log)?;
        Ok(is_next(inc, logged_inc(log.as_slice()) as u64))
    }

    // The first guard that a rise fails which may come, the open tail being this.
    fn tail_breach(
        &self,
        site: u32,
        kept: bool,
        tail: &Option<Tail>,
        inc: u32,
    ) -> Result<Option<Guard>, NoMemory>
        requires { tail.now ≡ open_tail self.now.scenario.now self.now.entries.now site }
        ensures { IfOk result (λ g. g ≡ first_failing (
            record { guard = guard.Tail; holds = not kept || not (is_none (open_tail self.now.scenario.now self.now.entries.now site)) } ∷
            record { guard = guard.Inc; holds = is_next_inc self.now.scenario.now self.now.entries.now site kept inc } ∷
            [])) }
    {
        if kept && tail.is_none() {
            return Ok(Some(Guard::Tail));
        }
        let is_next = self.is_next_inc(site, kept, tail, inc)?;
        Ok(unless(is_next, Guard::Inc))
    }

    // The first guard that a rise which read the log fails.
    fn rise_breach(&self, site: u32, kept: bool, inc: u32) -> Result<Option<Guard>, NoMemory>
        ensures { IfOk result (λ g. g ≡ first_failing (rise_checks self.now.scenario.now self.now.entries.now site kept inc)) }
    {
        let rising = self.rising_breach(site);
        if rising.is_some() {
            return Ok(rising);
        }
        let tail = self.tail_at(site)?;
        let breach = self.tail_breach(site, kept, &tail, inc);
        // (handed to `drop`, it is given back by one call)
        drop(tail);
        breach
    }

    // The first guard that a line fails.
    fn line_breach(&self, owner: u32, number: u32) -> Result<Option<Guard>, NoMemory>
        ensures { IfOk result (λ g. g ≡ first_failing (checks self.now.scenario.now self.now.entries.now (record { owner = owner; act = act.Line number }))) }
    {
        if owner != 0 {
            return Ok(Some(Guard::Owner));
        }
        Ok(unless(self.line_is_due(number)?, Guard::Line))
    }

    // The first guard that new parts fails.
    fn parts_breach(&self, owner: u32, parts: &[SiteSet]) -> Result<Option<Guard>, NoMemory>
        ensures { IfOk result (λ g. g ≡ first_failing (checks self.now.scenario.now self.now.entries.now (record { owner = owner; act = act.Parts parts.now }))) }
    {
        if owner != 0 {
            return Ok(Some(Guard::Owner));
        }
        Ok(unless(self.parts_are_due(parts)?, Guard::Parts))
    }

    // The first guard that a drop fails.
    fn drop_breach(&self, owner: u32, number: u64) -> Result<Option<Guard>, NoMemory>
        ensures { IfOk result (λ g. g ≡ first_failing (checks self.now.scenario.now self.now.entries.now (record { owner = owner; act = act.Drop number }))) }
    {
        if owner != 0 {
            return Ok(Some(Guard::Owner));
        }
        Ok(unless(self.drop_is_due(number)?, Guard::Drop))
    }

    /// The first guard that an entry fails behind these entries, none where it may come there. They are read anew.
    pub fn entry_breach(&self, entry: &Entry) -> Result<Option<Guard>, NoMemory>
        ensures { IfOk result (λ g. g ≡ first_failing (checks self.now.scenario.now self.now.entries.now entry.now)) }
    {
        let owner = entry.owner;
        match &entry.act {
            Act::Line { number } => self.line_breach(owner, *number),
            Act::Parts { parts } => self.parts_breach(owner, parts.as_slice()),
            Act::Drop { packet } => self.drop_breach(owner, *packet),
            Act::Step {
                input,
                records,
                outs,
                told,
            } => self.step_breach(
                owner,
                input,
                records.as_slice(),
                outs.as_slice(),
                told.as_slice(),
            ),
            Act::Fall {
                inputs,
                records,
                ..
            } => self.fall_breach(owner, inputs.as_slice(), records.as_slice()),
            Act::Cut => Ok(self.cut_breach(owner)),
            Act::Rise { kept, inc } | Act::RiseFall { kept, inc, .. } => {
                self.rise_breach(owner, *kept, *inc)
            }
            Act::Miss => Ok(self.rising_breach(owner)),
        }
    }
}
