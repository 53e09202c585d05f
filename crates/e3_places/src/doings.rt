// What a step does at a site.
use crate::places::{Places, Standing};
use e3_types::{Packet, Record, Told};
use std::alloc::Global;

/// What a step does at a site with these tables: the operation that it takes up, if there is one, the records that it makes,
/// and what it tells and sends.
#[derive(Drop)]
pub(crate) struct Doings<'a> {
    pub alloc: Global,
    pub places: &'a Places,
    pub new: &'a Option<Standing>,
    pub records: &'a [Record],
    pub events: &'a [Told],
    pub outs: &'a [Packet],
}
