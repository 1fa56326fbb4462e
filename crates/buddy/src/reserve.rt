//! The pages that a buddy supply reserves for a run.
ghost use Rattle.std.specs.Prelude.{◌≡◌, ◌<◌, ◌≤◌};
ghost use Rattle.pages.specs.Limits.{max_span};
ghost use Rattle.buddy.specs.Reserve.{Smallest, PowersSmallest, reserve_of};

use crate::PowerOfTwo;
use pages::limits::MAX_SPAN;
use pages::placement::Placement;

/// The smallest power of two that holds `count`, for a count of a run: 1 to 1,024 pages. No run has another count,
/// and for those it is 0.
pub fn reserve_of(count: u32) -> u32
    ensures value { result ≡ reserve_of count }
    ensures smallest { 0 < count → count ≤ max_span → Smallest count result }
    ensures powers { PowersSmallest }
{
    // `u32` has no `From` to `usize`, so it is cast.
    if count as usize > MAX_SPAN {
        return 0;
    }
    // Fits, as is proved: `TryFrom` would add a refusal that never comes.
    PowerOfTwo::reserve(count as u16)
}
