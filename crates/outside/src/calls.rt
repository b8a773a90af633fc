//! Numbers of calls, which the objects in memory count from 1.
ghost use Rattle.std.specs.Prelude.{◌≡◌};
ghost use Rattle.outside.specs.Calls as numbers;

/// The count behind this one; the last one stays.
pub(crate) fn one_more(count: u64) -> u64
    ensures { result ≡ numbers.one_more count }
{
    count.saturating_add(1)
}

pub(crate) fn is_listed(listed: &[u64], call: u64) -> bool
    ensures { result ≡ numbers.is_listed listed.now call }
{
    listed.contains(&call)
}
