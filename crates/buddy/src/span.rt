//! The check of a buddy supply's span.
ghost use Rattle.std.specs.Result.{MatchResult};
ghost use Rattle.pages.specs.Spans.{SpanChecked};
ghost use Rattle.buddy.specs.Reserve.{good_buddy_span, PowerSpan};

use crate::reserve::reserve_of;
use pages::fault::SpanFault;
use pages::span::check_span;

/// A buddy's span is a power of two.
pub fn check_buddy_span(span: u32) -> Result<(), SpanFault>
    ensures checked { SpanChecked (good_buddy_span span) span result }
    ensures power { MatchResult result (λ _. PowerSpan span) (λ _. (PowerSpan span → ⊥)) }
{
    check_span(span)?;
    if reserve_of(span) != span {
        return Err(SpanFault::BadSpan(span));
    }
    Ok(())
}
