// What stands in lists: weights, rows and operations.
ghost use Rattle.std.specs.Prelude.{◌≡◌, ◌++◌, OnOk, IfErr};
ghost use Rattle.e3_types.specs.Spelling.{u32, spell_op, spell_row};
ghost use Rattle.e3_codec.specs.Reader.{Gives};
ghost use Rattle.e3_codec.specs.Reading.{u32_at, op_at, num_op_at, row_at};

use crate::faults::Fault;
use crate::fields::{name_at, put_name, put_u8, put_u32, put_val, u8_at, u32_at, val_at};
use crate::listed::Field;
use e3_types::{Key, List, NoMemory, NumOp, Op, Row};

impl Field for u32 {
    ghost reading = { λ site. u32_at };

    ghost spelled = { u32 };

    fn read(_site: u32, bytes: &[u8]) -> Result<(u32, &[u8]), Fault> {
        u32_at(bytes)
    }

    fn put(&self, out: &mut List<u8>) -> Result<(), NoMemory> {
        put_u32(out, *self)
    }
}

impl Field for Row {
    ghost reading = { λ site. row_at };

    ghost spelled = { spell_row };

    #[tactic(auto, unfolding(crate::specs::Reading::row_at))]
    fn read(_site: u32, bytes: &[u8]) -> Result<(Row, &[u8]), Fault> {
        let (name, rest) = name_at(bytes)?;
        let (val, rest) = val_at(rest)?;
        Ok((Row { name, val }, rest))
    }

    fn put(&self, out: &mut List<u8>) -> Result<(), NoMemory> {
        put_name(out, &self.name)?;
        put_val(out, &self.val)
    }
}

#[tactic(auto, unfolding(crate::specs::Reading::op_at, crate::specs::Reading::kind_at))]
fn op_at(site: u32, bytes: &[u8]) -> Result<(Op, &[u8]), Fault>
    ensures gives { Gives (λ x. (x.0, x.1.now)) result (op_at site bytes.now) }
    ensures sure { IfErr result (λ e. e ≡ Fault.Bad) }
{
    let (kind, rest) = u8_at(bytes)?;
    match kind {
        0 => {
            let (name, rest) = name_at(rest)?;
            Ok((Op::Read(Key { site, name }), rest))
        }
        1 => {
            let (name, rest) = name_at(rest)?;
            let (val, rest) = val_at(rest)?;
            Ok((Op::Write(Key { site, name }, val), rest))
        }
        _ => Err(Fault::Bad),
    }
}

impl Field for NumOp {
    ghost reading = { num_op_at };

    ghost spelled = { spell_op };

    #[tactic(auto, unfolding(crate::specs::Reading::num_op_at))]
    fn read(site: u32, bytes: &[u8]) -> Result<(NumOp, &[u8]), Fault> {
        let (n, rest) = u32_at(bytes)?;
        let (op, rest) = op_at(site, rest)?;
        Ok((NumOp { n, op }, rest))
    }

    fn put(&self, out: &mut List<u8>) -> Result<(), NoMemory> {
        put_u32(out, self.n)?;
        match &self.op {
            Op::Read(key) => {
                put_u8(out, 0)?;
                put_name(out, &key.name)
            }
            Op::Write(key, val) => {
                put_u8(out, 1)?;
                put_name(out, &key.name)?;
                put_val(out, val)
            }
        }
    }
}
