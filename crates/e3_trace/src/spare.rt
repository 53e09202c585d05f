// Lists that have little more room than their items take: one that grows by `List`'s own push has room for four at least.
ghost use Rattle.std.specs.Prelude.{◌≡◌, ◌++◌, ◌∷◌, [], OnOk};

use e3_types::{List, NoMemory};
use std::alloc::Global;
use std::mem;

// Adds an item at the end. Where there is no room, that is made for one item or for twice as many as there are.
fn push<T: Drop>(items: &mut Vec<T>, item: T) -> Result<(), NoMemory>
    ensures { OnOk result (items.new.items ≡ items.old.items ++ item ∷ []) }
{
    let len = items.len();
    let more = if len == 0 { 1 } else { len };
    if len == items.capacity() && items.try_reserve_exact(more).is_err() {
        return Err(NoMemory);
    }
    match items.push(item) {
        Ok(()) => Ok(()),
        Err(_) => Err(NoMemory),
    }
}

/// Adds an item at the end. Want of memory is the only error.
pub(crate) fn add<T: Drop>(alloc: Global, list: &mut List<T>, item: T) -> Result<(), NoMemory>
    ensures { OnOk result (list.new ≡ list.old ++ item ∷ []) }
{
    let mut items = mem::replace(list, List::new(alloc)).into_vec();
    push(&mut items, item)?;
    *list = List::from_vec(items);
    Ok(())
}

/// The same items, with room for just these.
pub(crate) fn fitted<T: Drop>(list: List<T>) -> List<T>
    ensures { result ≡ list }
{
    let mut items = list.into_vec();
    items.shrink_to_fit();
    List::from_vec(items)
}
