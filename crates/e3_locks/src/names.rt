// Names in byte order.
ghost use Rattle.std.specs.Prelude.{◌≡◌, ◌++◌, IfOk};
ghost use Rattle.e3_world.specs.Making.{add_name};

use e3_types::{List, Name, NoMemory};
use std::alloc::Global;
use std::cmp::Ordering;

/// Adds copies of these.
pub fn add_names(names: &[Name], out: &mut List<Name>) -> Result<(), NoMemory>
    ensures { IfOk result (λ u. out.new ≡ out.old ++ names.now) }
{
    for name in names {
        out.push(name.copy())?;
    }
    Ok(())
}

fn put_name(names: &[Name], new: &Name, out: &mut List<Name>) -> Result<(), NoMemory>
    ensures { IfOk result (λ u. out.new ≡ out.old ++ add_name names.now new.now) }
{
    match names {
        [] => out.push(new.copy()),
        [name, rest @ ..] => match new.bytes().cmp(name.bytes()) {
            Ordering::Less => {
                out.push(new.copy())?;
                add_names(names, out)
            }
            Ordering::Equal => add_names(names, out),
            Ordering::Greater => {
                out.push(name.copy())?;
                put_name(rest, new, out)
            }
        },
    }
}

/// The names with one more, each once, in byte order.
pub fn add_name(alloc: Global, names: &[Name], new: &Name) -> Result<List<Name>, NoMemory>
    ensures { IfOk result (λ out. out ≡ add_name names.now new.now) }
{
    let mut out = List::new(alloc);
    put_name(names, new, &mut out)?;
    Ok(out)
}
