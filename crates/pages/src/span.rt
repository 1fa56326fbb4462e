//! The check of a span, before a supply is made with it.
ghost use Rattle.pages.specs.Spans.{good_span, SpanChecked};

use crate::fault::SpanFault;
use crate::limits::MAX_SPAN;

pub fn check_span(span: u32) -> Result<(), SpanFault>
    ensures { SpanChecked (good_span span) span result }
{
    // `u32` has no `From` to `usize`, so it is cast.
    if span == 0 || span as usize > MAX_SPAN {
        return Err(SpanFault::BadSpan(span));
    }
    Ok(())
}
