// Counting without a bound.
ghost use Rattle.std.specs.Prelude.{◌≡◌, ◌+◌, IfOk};

use e3_types::NoMemory;

/// One more. What is counted here stands in memory, so a count past the greatest number is want of memory too.
pub(crate) fn one_more(n: u64) -> Result<u64, NoMemory>
    ensures { IfOk result (λ k. k ≡ n + 1) }
{
    if n < u64::MAX {
        Ok(n + 1)
    } else {
        Err(NoMemory)
    }
}
