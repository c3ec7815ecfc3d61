// Counts of faults.
ghost use Rattle.outside.specs.Faults.{RoseByOne};

// The count after one more fault. It stops at its greatest number.
pub(crate) fn raise(count: u64) -> u64
    ensures { RoseByOne count result }
{
    count.saturating_add(1)
}
