// What a transaction's own writes make of a row.
ghost use Rattle.std.specs.Prelude.{◌≡◌, fold};
ghost use Rattle.e3_world.specs.Making.{own_write};

use e3_tables::written;
use e3_types::{Answer, Name};
use e3_world::Performed;

/// The value of an own write of this name, or the answer so far.
pub fn own_write(name: &Name, was: Answer, p: &Performed) -> Answer
    ensures { result ≡ own_write name.now was p.now }
{
    match written(&p.op, name) {
        Some(val) => Answer::Value(val.copy()),
        None => was,
    }
}

/// The value that the last of these writes of the name gave it, or this row where none wrote it.
pub fn last_own(name: &Name, row: Answer, performed: &[Performed]) -> Answer
    ensures { result ≡ fold (own_write name.now) row performed.now }
{
    let mut answer = row;
    for p in performed {
        answer = own_write(name, answer, p);
    }
    answer
}
