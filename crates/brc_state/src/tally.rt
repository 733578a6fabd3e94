//! How many of a list's items pass a test, kept beside the list while its items change.

ghost use Rattle.std.specs.Prelude.{◌≡◌, ◌+◌, ◌<◌, ◌≤◌, ◌^◌};
ghost use Rattle.law.specs.world.Lists.{one};

/// 1 for yes.
fn one(passes: bool) -> usize
    ensures { result ≡ one passes }
{
    if passes { 1 } else { 0 }
}

/// The number after one item changed: whether it passed, and whether it does now.
pub(crate) fn recount(count: usize, passed: bool, passes: bool) -> usize
    requires counted { one passed ≤ count }
    requires fits { count + one passes < 2 ^ 64 }

    ensures { result + one passed ≡ count + one passes }
{
    count + one(passes) - one(passed)
}
