// Sums of counts.
ghost use Rattle.std.specs.Prelude.{◌≡◌, ◌<◌, ◌+◌, IfOk, OnOk};

use e3_types::NoMemory;

/// The sum. What is counted here stands in memory, so a sum that passes 64 bits is want of memory too.
pub(crate) fn add(count: u64, more: u64) -> Result<u64, NoMemory>
    ensures { IfOk result (λ sum. sum ≡ count + more) }
{
    count.checked_add(more).ok_or(NoMemory)
}

/// A site plans behind fewer than 4,000,000,000 steps, and 32 bits count what it does. A history with as many or more wants
/// memory.
pub(crate) fn count_on(steps: u64) -> Result<(), NoMemory>
    ensures { OnOk result (steps < 4000000000) }
{
    if steps < 4000000000 {
        Ok(())
    } else {
        Err(NoMemory)
    }
}
