//! Requests too long for a class: each has a run of its own.
ghost use Rattle.std.specs.Prelude.{◌≡◌, ℕ, ◌*◌, ◌<◌, ◌≤◌, MatchOption};
ghost use Rattle.classes.specs.Long.{NotLong, LongPages};

use crate::{LONGEST_CLASSED, LONGEST_REQUEST, PAGE_BYTES};

/// The fewest pages that hold `bytes`, or `None` where the request has a class, is empty or is too long.
pub fn pages_of_long(bytes: u32) -> Option<u32>
    ensures { MatchOption result (NotLong bytes) (λ p. LongPages bytes p) }
{
    if bytes <= LONGEST_CLASSED || bytes > LONGEST_REQUEST {
        return None;
    }
    Some(bytes.div_ceil(PAGE_BYTES))
}
