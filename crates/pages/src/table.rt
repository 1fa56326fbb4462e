//! The table that a supply keeps: at each page the count of the run that begins there, or 0.
ghost use Rattle.std.specs.Prelude.{◌≡◌, Decides, sum};
ghost use Rattle.pages.specs.Table.{Out};

use crate::limits::MAX_SPAN;

/// The sum of the counts of a table.
pub fn total(counts: &[u16; MAX_SPAN]) -> u32
    ensures { result ≡ sum counts.now }
{
    counts.iter().map(|count| u32::from(*count)).sum()
}

/// Whether the run stands in the table.
pub fn is_out(counts: &[u16; MAX_SPAN], first: u32, count: u32) -> bool
    ensures { Decides result (Out counts.now first count) }
{
    count > 0
        && counts
            // `u32` has no `From` to `usize`, so it is cast.
            .get(first as usize)
            .is_some_and(|out| u32::from(*out) == count)
}
