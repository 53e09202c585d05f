// The weights of a log, and its incarnation, record by record.
ghost use Rattle.std.specs.Prelude.{◌≡◌};
ghost use Rattle.e3_world.specs.Logs.{logged_inc_by};
ghost use Rattle.e3_world.specs.Orderly.{weights_by, weights_in};

use e3_types::Record;

/// The weights of a log so far, with one more record.
pub(crate) fn weights_by<'a>(was: &'a [u32], r: &'a Record) -> &'a [u32]
    ensures { result.now ≡ weights_by was.now r.now }
{
    match r {
        Record::Birth { weights, .. } => weights.as_slice(),
        _ => was,
    }
}

/// The incarnation of a log so far, with one more record.
pub(crate) fn inc_by(was: u32, r: &Record) -> u32
    ensures { result ≡ logged_inc_by was r.now }
{
    match r {
        Record::Inc { inc } => *inc,
        _ => was,
    }
}

/// The weights of all sites by the log's birth, none where there is no birth.
pub(crate) fn weights_in(before: &[Record]) -> &[u32]
    ensures { result.now ≡ weights_in before.now }
{
    let mut found: &[u32] = &[];
    for r in before {
        found = weights_by(found, r);
    }
    found
}
