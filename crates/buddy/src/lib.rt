//! The buddy supply: each run has a reserve, the smallest power of two of pages that holds it, at a page divisible by
//! that power. A count fits if such a reserve touches no other run's, and the lowest one is taken.
#![tactic(auto)]

pub mod reserve;
pub mod span;

ghost use Rattle.buddy.specs.Reserve.{power_for, reserve, good_buddy_span};
ghost use Rattle.buddy.specs.BuddyRule.{FreeReserve};
ghost use Rattle.buddy.specs.Reserves.{good_spans, power_reserves, free_reserve};

use crate::span::check_buddy_span;
use pages::fault::SpanFault;
use pages::lowest_fit::LowestFit;
use pages::placement::Placement;

pub type Buddy = LowestFit<PowerOfTwo>;

/// A run's reserve is the smallest power of two that holds it.
pub struct PowerOfTwo;

impl Placement for PowerOfTwo {
    ghost good = { good_buddy_span };

    ghost reserve = { reserve };

    ghost alignment = { power_for };

    ghost room = { FreeReserve };

    ghost spans = { good_spans };

    ghost reserving = { power_reserves };

    ghost says_room = { free_reserve };

    fn check(span: u32) -> Result<(), SpanFault> {
        check_buddy_span(span)
    }

    fn reserve(count: u16) -> u32 {
        if count == 0 {
            return 0;
        }
        Self::alignment(count)
    }

    fn alignment(count: u16) -> u32 {
        u32::from(count).next_power_of_two()
    }
}
