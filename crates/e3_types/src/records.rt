// The records of a site's log.
use crate::{Dir, List, NumOp, Row, Txn};

/// A record of a site's log. A birth has the weights of all sites, that of site 1 first, and the site's first rows in
/// byte order of their names. A vote has the operations that the site did, in ascending order of their numbers.
#[derive(Drop)]
pub enum Record {
    Birth {
        format: u32,
        site: u32,
        weights: List<u32>,
        rows: List<Row>,
    },
    Inc {
        inc: u32,
    },
    Vote {
        txn: Txn,
        ops: List<NumOp>,
    },
    Join {
        txn: Txn,
        n: u32,
    },
    Attempt {
        txn: Txn,
        n: u32,
        dir: Dir,
    },
    Decision {
        txn: Txn,
        dir: Dir,
    },
}
