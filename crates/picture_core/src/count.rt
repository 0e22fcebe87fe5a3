//! Counts that stay at the most that there are.
ghost use Rattle.std.specs.Prelude.{◌≡◌, ◌+◌, ◌<◌, ◌≤◌, ◌^◌};

/// So many more; the most if there are more than can be counted.
pub(crate) fn added(count: u32, more: u32) -> u32
    ensures sum { count + more < 2 ^ 32 → result ≡ count + more }
    ensures most { 2 ^ 32 ≤ count + more → result ≡ 4294967295 }
{
    count.saturating_add(more)
}
