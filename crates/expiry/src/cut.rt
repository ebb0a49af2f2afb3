// A keep as a cut.
ghost use Rattle.std.specs.Prelude.{◌≡◌, ◌-◌};

/// The number of rows to remove from the start of `live` rows to keep the last n.
pub fn cut_for(live: u64, n: u64) -> u64
    ensures { result ≡ live - n }
{
    live.saturating_sub(n)
}
