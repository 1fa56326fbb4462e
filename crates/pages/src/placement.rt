//! How a supply places its runs.
ghost use Rattle.std.specs.Prelude.{◌≡◌, ℕ, Bool, List};
ghost use Rattle.pages.specs.Placement.{GoodSpans, Reserving, SaysRoom};
ghost use Rattle.pages.specs.Spans.{SpanChecked};

use crate::fault::SpanFault;

/// What a supply reserves for a run, and where the reserve may begin.
pub trait Placement {
    // The spans that such a supply can have.
    ghost good: { ℕ → Bool };

    // The pages that are reserved for a run of so many.
    ghost reserve: { ℕ → ℕ };

    // A reserve begins at a multiple of this.
    ghost alignment: { ℕ → ℕ };

    // By the span and the runs out, a count has room at a place.
    ghost room: { ℕ → List ℕ → ℕ → ℕ → Type 0 };

    fn check(span: u32) -> Result<(), SpanFault>
        ensures { SpanChecked (good span) span result };

    fn reserve(count: u16) -> u32
        ensures { result ≡ reserve count };

    fn alignment(count: u16) -> u32
        ensures { result ≡ alignment count };

    ghost spans: { GoodSpans good reserve };

    ghost reserving: { Reserving reserve alignment };

    ghost says_room: { SaysRoom reserve alignment room };
}
