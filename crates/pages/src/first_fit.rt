//! The first fit: a count fits if that many free pages stand in a row, and the lowest place is taken.
ghost use Rattle.pages.specs.Spans.{good_span};
ghost use Rattle.pages.specs.FirstFitRule.{FreeRow};
ghost use Rattle.pages.specs.Rows.{good_spans, own_pages, free_row};

use crate::fault::SpanFault;
use crate::lowest_fit::LowestFit;
use crate::placement::Placement;
use crate::span::check_span;

pub type FirstFit = LowestFit<OwnPages>;

/// A run has its own pages alone, at any page.
pub struct OwnPages;

impl Placement for OwnPages {
    ghost good = { good_span };

    ghost reserve = { λ c. c };

    ghost alignment = { λ _. 1 };

    ghost room = { FreeRow };

    ghost spans = { good_spans };

    ghost reserving = { own_pages };

    ghost says_room = { free_row };

    fn check(span: u32) -> Result<(), SpanFault> {
        check_span(span)
    }

    fn reserve(count: u16) -> u32 {
        u32::from(count)
    }

    fn alignment(_count: u16) -> u32 {
        1
    }
}
