// What a step reads of its site's past, each reading computed anew.
ghost use Rattle.std.specs.Prelude.{◌≡◌, ◌<◌, ◌++◌, ◌∷◌, [], IfOk, count_by, length};
ghost use Rattle.std.specs.List.{list_any};
ghost use Rattle.e3_types.specs.Same.{same_txn};
ghost use Rattle.e3_step.specs.Asking.{lock_now, waits_now};
ghost use Rattle.e3_readings.specs.Awaiting.{first_of};
ghost use Rattle.e3_world.specs.Making.{log_now, steps_now};
ghost use Rattle.e3_world.specs.Logs.{key_of};
ghost use Rattle.e3_world.specs.Operations.{holders, queue};
ghost use Rattle.e3_world.specs.Steps.{is_begin};

use e3_locks::lock_grant;
use e3_readings::{holders, key_of, lock_for, queue, waiting};
use e3_types::{Answer, Copied, Grant, Input, List, Lock, NoMemory, Packet, Record, Told, Txn};
use e3_world::{Asked, At, Made, Moment};
use std::alloc::Global;

/// The log with the step's own records.
pub fn log_now(alloc: Global, a: &At, made: &Made) -> Result<List<Record>, NoMemory>
    ensures { IfOk result (λ out. out ≡ log_now a.now made.now) }
{
    let mut out = a.life.log.copied(alloc)?;
    out.add_copies(alloc, made.records.as_slice())?;
    Ok(out)
}

// Adds copies of what a site had, recorded, sent and told to a moment.
fn fill_moment(
    alloc: Global,
    before: &[Record],
    records: &[Record],
    outs: &[Packet],
    told: &[Told],
    m: &mut Moment,
) -> Result<(), NoMemory>
    ensures { IfOk result (λ u. m.new ≡ record m.old {
      before = m.old.before ++ before.now;
      records = m.old.records ++ records.now;
      outs = m.old.outs ++ outs.now;
      told = m.old.told ++ told.now;
    }) }
{
    m.before.add_copies(alloc, before)?;
    m.records.add_copies(alloc, records)?;
    m.outs.add_copies(alloc, outs)?;
    m.told.add_copies(alloc, told)
}

// Adds a moment of copies.
fn add_moment(
    alloc: Global,
    before: &[Record],
    input: &Input,
    records: &[Record],
    outs: &[Packet],
    told: &[Told],
    out: &mut List<Moment>,
) -> Result<(), NoMemory>
    ensures { IfOk result (λ u. out.new ≡ out.old ++ record { before = before.now; input = input.now; records = records.now; outs = outs.now; told = told.now } ∷ []) }
{
    let mut m = Moment {
        before: List::new(alloc),
        input: input.copy(),
        records: List::new(alloc),
        outs: List::new(alloc),
        told: List::new(alloc),
    };
    match fill_moment(alloc, before, records, outs, told, &mut m) {
        Ok(()) => out.push(m),
        Err(e) => {
            drop(m);
            Err(e)
        }
    }
}

fn add_steps(alloc: Global, steps: &[Moment], out: &mut List<Moment>) -> Result<(), NoMemory>
    ensures { IfOk result (λ u. out.new ≡ out.old ++ steps.now) }
{
    for m in steps {
        add_moment(
            alloc,
            m.before.as_slice(),
            &m.input,
            m.records.as_slice(),
            m.outs.as_slice(),
            m.told.as_slice(),
            out,
        )?;
    }
    Ok(())
}

/// The steps of the incarnation with this one, as far as it is made.
pub fn steps_now(alloc: Global, a: &At, made: &Made) -> Result<List<Moment>, NoMemory>
    ensures { IfOk result (λ out. out ≡ steps_now a.now made.now) }
{
    let mut out = List::new(alloc);
    add_steps(alloc, a.life.steps.as_slice(), &mut out)?;
    add_moment(
        alloc,
        a.life.log.as_slice(),
        &a.input,
        made.records.as_slice(),
        made.outs.as_slice(),
        made.told.as_slice(),
        &mut out,
    )?;
    Ok(out)
}

/// The first of these answers.
pub fn first_answer(answers: &[Answer]) -> Option<Answer>
    ensures { result ≡ first_of answers.now }
{
    match answers {
        [] => None,
        [answer, ..] => Some(answer.copy()),
    }
}

/// The operations that wait before the step, but those of transactions that it decided.
pub fn waits_now(alloc: Global, a: &At, made: &Made) -> Result<List<Asked>, NoMemory>
    requires { length a.now.life.steps < 4294967295 }
    ensures { IfOk result (λ out. out ≡ waits_now a.now made.now) }
{
    let log = log_now(alloc, a, made)?;
    waiting(alloc, a.site, log.as_slice(), a.life.steps.as_slice())
}

/// One of these operations is the transaction's.
pub fn waits_for(t: &Txn, asked: &[Asked]) -> bool
    ensures { result ≡ list_any (λ q. same_txn t.now q.txn) asked.now }
{
    asked.iter().any(|q| t.is_same(&q.txn))
}

fn holders_of(alloc: Global, a: &At, q: &Asked, made: &Made) -> Result<List<Lock>, NoMemory>
    requires { length a.now.life.steps < 4294967295 }
    ensures { IfOk result (λ out. out ≡ holders a.now.site (key_of q.now.op).name (log_now a.now made.now) a.now.life.steps) }
{
    let log = log_now(alloc, a, made)?;
    let name = &key_of(&q.op).name;
    holders(alloc, a.site, name, log.as_slice(), a.life.steps.as_slice())
}

fn queue_of(alloc: Global, a: &At, q: &Asked, made: &Made) -> Result<List<Lock>, NoMemory>
    requires { length a.now.life.steps < 4294967295 }
    ensures { IfOk result (λ out. out ≡ queue (key_of q.now.op).name (waits_now a.now made.now)) }
{
    let waits = waits_now(alloc, a, made)?;
    queue(alloc, &key_of(&q.op).name, waits.as_slice())
}

/// The answer of the lock rule to a request.
pub fn lock_now(alloc: Global, a: &At, q: &Asked, made: &Made) -> Result<Grant, NoMemory>
    requires { length a.now.life.steps < 4294967295 }
    ensures { IfOk result (λ g. g ≡ lock_now a.now q.now made.now) }
{
    let wanted = lock_for(q);
    let held = holders_of(alloc, a, q, made)?;
    let queued = queue_of(alloc, a, q, made)?;
    Ok(lock_grant(&wanted, held.as_slice(), queued.as_slice()))
}

/// The step took a Begin.
pub fn is_begin(m: &Moment) -> bool
    ensures { result ≡ is_begin m.now }
{
    matches!(m.input, Input::Begin { .. })
}

/// How many of these steps took a Begin.
pub fn begins(steps: &[Moment]) -> u32
    requires { length steps.now < 4294967295 }
    ensures count { result ≡ count_by is_begin steps.now }
    ensures few { result < 4294967295 }
{
    let mut n = 0;
    for m in steps {
        if is_begin(m) {
            n += 1;
        }
    }
    n
}
