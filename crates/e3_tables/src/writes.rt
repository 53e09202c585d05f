// What an operation writes.
ghost use Rattle.std.specs.Prelude.{◌≡◌, List as Items, MatchOption};
ghost use Rattle.e3_types.specs.declared.transactions.Answer.{Answer as Answers};
ghost use Rattle.e3_types.specs.declared.transactions.Answer.TheVariants.{Value};
ghost use Rattle.e3_types.specs.declared.transactions.Op.TheVariants.{Read, Write};
ghost use Rattle.e3_types.specs.declared.transactions.Row.{Row};
ghost use Rattle.e3_world.specs.Logs.{install_op, key_of, set_row};
ghost use Rattle.e3_world.specs.Making.{read_of};

use e3_types::{Key, Name, NumOp, Op, Row, Val};

/// What an operation writes: the key and the value. None exactly where it reads.
pub fn write_of(op: &Op) -> Option<(&Key, &Val)>
    ensures { MatchOption result (op.now ≡ Read (key_of op.now)) (λ w. op.now ≡ Write w.0.now w.1.now) }
{
    match op {
        Op::Write(key, val) => Some((key, val)),
        Op::Read(_) => None,
    }
}

/// The row that an operation sets, if it writes: the value under its name.
pub fn row_written(op: &NumOp) -> Option<Row>
    ensures { MatchOption result ((rows : Items Row) → install_op rows op.now ≡ rows) (λ row. (rows : Items Row) → install_op rows op.now ≡ set_row row rows) }
{
    let (key, val) = write_of(&op.op)?;
    Some(Row {
        name: key.name.copy(),
        val: val.copy(),
    })
}

/// What the operation writes to the name, if it does.
pub fn written<'a>(op: &'a Op, name: &Name) -> Option<&'a Val>
    ensures { MatchOption result ((was : Answers) → read_of name.now was op.now ≡ was) (λ val. (was : Answers) → read_of name.now was op.now ≡ Value val.now) }
{
    let (key, val) = write_of(op)?;
    if name.is_same(&key.name) {
        Some(val)
    } else {
        None
    }
}
