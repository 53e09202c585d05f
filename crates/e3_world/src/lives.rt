// What a site has of itself while it is up, what is read off it, and what a step makes.
use e3_types::{Answer, Input, List, Message, Op, Packet, Record, Told, Txn};

/// A step that a site made. Its packets, and a packet that it took, have the number 0.
#[derive(Drop)]
pub struct SiteStep {
    pub input: Input,
    pub records: List<Record>,
    pub outs: List<Packet>,
    pub told: List<Told>,
}

/// All that the steps of a site depend on: the log that it rose with, the records of the rise among it, and its steps
/// since, the oldest first.
#[derive(Drop)]
pub struct Incarnation {
    pub rose: List<Record>,
    pub since: List<SiteStep>,
}

/// A step of the present incarnation, with the log before it.
#[derive(Drop)]
pub struct Moment {
    pub before: List<Record>,
    pub input: Input,
    pub records: List<Record>,
    pub outs: List<Packet>,
    pub told: List<Told>,
}

/// What is read off an incarnation: the log at present, the incarnation's number, and its steps.
#[derive(Drop)]
pub struct Life {
    pub log: List<Record>,
    pub inc: u32,
    pub steps: List<Moment>,
}

/// An operation that came to a site.
#[derive(Drop)]
pub struct Asked {
    pub txn: Txn,
    pub n: u32,
    pub op: Op,
}

/// An operation that was done, with its answer.
#[derive(Drop)]
pub struct Performed {
    pub n: u32,
    pub op: Op,
    pub answer: Answer,
}

/// Under which incarnation a site answered operations of a transaction, and how many. Both are 0 where there are none.
#[derive(Clone, Copy)]
pub struct Expected {
    pub inc: u32,
    pub count: u32,
}

/// What a step has made so far. Its packets have the number 0. Messages to the site itself wait in `own`.
#[derive(Drop)]
pub struct Made {
    pub records: List<Record>,
    pub outs: List<Packet>,
    pub told: List<Told>,
    pub own: List<Message>,
}

/// Where a step is made: the weights of all sites, the site, its life before the step, and the input.
#[derive(Drop)]
pub struct At {
    pub weights: List<u32>,
    pub site: u32,
    pub life: Life,
    pub input: Input,
}
