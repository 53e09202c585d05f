// The entry whose lines are being read.
ghost use Rattle.std.specs.Prelude.{◌≡◌, ◌+◌, OnOk, option_to_list, None, Some, if◌then◌else◌};
ghost use Rattle.e3_trace.specs.Cuts.{Gives, Leaves};
ghost use Rattle.e3_trace.specs.Drafts.{grown, records_of, ops_due, is_complete, is_step, act_by, entry_from, draft_of, growing_with, with_record, takes_records, takes_packets, takes_told, with_input, with_packet, with_told};
ghost use Rattle.e3_trace.specs.Past.{SameOuts, knowing};
ghost use Rattle.e3_trace.specs.declared.drafts.Growing.TheVariants as growing;
ghost use Rattle.e3_world.specs.Packets.{sent};

use crate::faults::Fault;
use crate::inputs::input;
use crate::known::Known;
use crate::past::Past;
use crate::spare::{add, fitted};
use e3_types::{Act, Entry, Input, List, NoMemory, NumOp, Packet, Record, Row, Told, Txn, Why};
use std::alloc::Global;
use std::mem;

/// The first line of an entry: a step, a fall, or all of an entry that has no other line.
#[derive(Drop)]
pub(crate) enum Head {
    Step(Input),
    Fall(Why),
    Whole(Act),
}

/// A record that may have more lines: none, a birth, or a vote, of which so many operations are due.
#[derive(Drop)]
pub(crate) enum Growing {
    Nothing,
    Birth {
        format: u32,
        weights: List<u32>,
        rows: List<Row>,
    },
    Vote {
        txn: Txn,
        ops: List<NumOp>,
        due: u64,
    },
}

/// An entry, as far as its lines are read: its first line; how many inputs of a fall are due, and those that came; the
/// records before the last, and the last where it may have more lines; the packets of a step, and what it told.
#[derive(Drop)]
pub(crate) struct Draft {
    pub(crate) owner: u32,
    pub(crate) head: Head,
    pub(crate) due: u64,
    pub(crate) inputs: List<Input>,
    pub(crate) records: List<Record>,
    pub(crate) growing: Growing,
    pub(crate) outs: List<Packet>,
    pub(crate) told: List<Told>,
}

fn grown(site: u32, growing: Growing) -> Option<Record>
    ensures { option_to_list result ≡ grown site growing }
{
    match growing {
        Growing::Nothing => None,
        Growing::Birth {
            format,
            weights,
            rows,
        } => Some(Record::Birth {
            format,
            site,
            weights,
            rows: fitted(rows),
        }),
        Growing::Vote { txn, ops, .. } => Some(Record::Vote {
            txn,
            ops: fitted(ops),
        }),
    }
}

fn act(
    head: Head,
    inputs: List<Input>,
    records: List<Record>,
    outs: List<Packet>,
    told: List<Told>,
) -> Act
    ensures { result ≡ act_by head inputs records outs told }
{
    match head {
        Head::Step(input) => Act::Step {
            input,
            records,
            outs,
            told,
        },
        Head::Fall(why) => Act::Fall {
            inputs,
            records,
            why,
        },
        Head::Whole(act) => act,
    }
}

impl Draft {
    /// An entry of the owner with nothing behind its first line yet, and so many inputs due.
    pub(crate) fn new(alloc: Global, owner: u32, head: Head, due: u64) -> Draft
        ensures { result ≡ draft_of owner head due }
    {
        Draft {
            owner,
            head,
            due,
            inputs: List::new(alloc),
            records: List::new(alloc),
            growing: Growing::Nothing,
            outs: List::new(alloc),
            told: List::new(alloc),
        }
    }

    /// How many operations of a vote are due.
    pub(crate) fn ops_due(&self) -> u64
        ensures { result ≡ ops_due self.now.growing }
    {
        match &self.growing {
            Growing::Vote { due, .. } => *due,
            _ => 0,
        }
    }

    /// No line is due.
    fn is_complete(&self) -> bool
        ensures { result ≡ is_complete self.now }
    {
        self.due == 0 && self.ops_due() == 0
    }

    /// Records may come.
    pub(crate) fn takes_records(&self) -> bool
        ensures { result ≡ takes_records self.now }
    {
        let has_records = !matches!(&self.head, Head::Whole(_));
        has_records && self.due == 0 && self.outs.is_empty() && self.told.is_empty()
    }

    fn is_step(&self) -> bool
        ensures { result ≡ is_step self.now.head }
    {
        matches!(&self.head, Head::Step(_))
    }

    /// Packets may come.
    pub(crate) fn takes_packets(&self) -> bool
        ensures { result ≡ takes_packets self.now }
    {
        self.is_step() && self.is_complete() && self.told.is_empty()
    }

    /// What a step told may come.
    pub(crate) fn takes_told(&self) -> bool
        ensures { result ≡ takes_told self.now }
    {
        self.is_step() && self.is_complete()
    }

    // The record that grows is one of the others from now on.
    fn close_record(&mut self, alloc: Global) -> Result<(), NoMemory>
        ensures { OnOk result (self.new ≡ record self.old { records = records_of self.old; growing = growing.Nothing }) }
    {
        let last = mem::replace(&mut self.growing, Growing::Nothing);
        match grown(self.owner, last) {
            None => Ok(()),
            Some(record) => add(alloc, &mut self.records, record),
        }
    }

    /// A record that may have more lines comes behind the others.
    pub(crate) fn grow(&mut self, alloc: Global, growing: Growing) -> Result<(), NoMemory>
        ensures { OnOk result (self.new ≡ growing_with self.old growing) }
    {
        self.close_record(alloc)?;
        self.growing = growing;
        Ok(())
    }

    /// A record of one line comes behind the others.
    pub(crate) fn add_record(&mut self, alloc: Global, added: Record) -> Result<(), NoMemory>
        ensures { OnOk result (self.new ≡ with_record self.old added) }
    {
        self.close_record(alloc)?;
        add(alloc, &mut self.records, added)
    }

    /// An input of a fall: `i INPUT`.
    #[tactic(auto, unfolding(crate::specs::Drafts::with_input))]
    pub(crate) fn add_input(
        &mut self,
        alloc: Global,
        known: &Known,
        past: &Past,
        text: &[u8],
    ) -> Result<(), Fault>
        ensures leaves { Leaves result self.new (with_input (knowing known.now (sent past.now)) self.old text.now) }
        ensures same { OnOk result (SameOuts self.old self.new) }
        ensures due { OnOk result (self.new.due + 1 ≡ self.old.due) }
    {
        if self.due == 0 {
            return Err(Fault::Bad);
        }
        let input = input(alloc, known, past, text)?;
        add(alloc, &mut self.inputs, input)?;
        self.due -= 1;
        Ok(())
    }

    /// A packet that the step sent.
    pub(crate) fn add_packet(&mut self, alloc: Global, packet: Packet) -> Result<(), NoMemory>
        ensures { OnOk result (self.new ≡ with_packet self.old packet) }
    {
        add(alloc, &mut self.outs, packet)
    }

    /// What the step told.
    pub(crate) fn add_told(&mut self, alloc: Global, event: Told) -> Result<(), NoMemory>
        ensures { OnOk result (self.new ≡ with_told self.old event) }
    {
        add(alloc, &mut self.told, event)
    }

    // The record that grows is one of the others from now on, where no line of the entry is due.
    fn finish(&mut self, alloc: Global) -> Result<(), Fault>
        ensures { Leaves result self.new (if is_complete self.old then Some (record self.old { records = records_of self.old; growing = growing.Nothing }) else None) }
    {
        if !self.is_complete() {
            return Err(Fault::Bad);
        }
        self.close_record(alloc)?;
        Ok(())
    }

    // The entry of these lines, where no record grows.
    fn into_entry(self) -> Entry
        ensures { result ≡ record { owner = self.owner; act = act_by self.head self.inputs self.records self.outs self.told } }
    {
        let owner = self.owner;
        let act = act(
            self.head,
            fitted(self.inputs),
            fitted(self.records),
            fitted(self.outs),
            fitted(self.told),
        );
        Entry { owner, act }
    }

    /// The entry, where no line of it is due. Its lists have room for just their items.
    #[tactic(auto, unfolding(crate::specs::Drafts::entry_from))]
    pub(crate) fn entry(self, alloc: Global) -> Result<Entry, Fault>
        ensures { Gives result (entry_from self) }
    {
        let mut draft = self;
        match draft.finish(alloc) {
            Ok(()) => Ok(draft.into_entry()),
            // (handed to `drop`, it is given back by one call)
            Err(fault) => {
                drop(draft);
                Err(fault)
            }
        }
    }
}
