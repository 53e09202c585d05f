// Counts as numbers of 32 bits.
ghost use Rattle.std.specs.Prelude.{◌≡◌, ◌<◌, suc};

/// The number behind so many.
pub fn number_behind(count: u64) -> u32
    requires { count < 4294967295 }
    ensures { result ≡ suc count }
{
    count as u32 + 1
}
