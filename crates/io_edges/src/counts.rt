//! Counts that stay at their last value.
ghost use Rattle.std.specs.Prelude.{◌≡◌, ◌≤◌};
ghost use Rattle.io_edges.specs.Counts.{raised};
ghost use Rattle.io_edges.specs.Faults.{Rose};

/// Counts one more fault. A count at its last value stays there.
pub(crate) fn raise(faults: &mut u64)
    ensures count { faults.new ≡ raised faults.old }
    ensures later { faults.old ≤ faults.new }
    ensures rose { Rose faults.old faults.new }
{
    *faults = faults.saturating_add(1);
}
