//! Why a supply refuses, with the number and the place that each refusal tells.
ghost use Rattle.std.specs.Prelude.{◌≡◌, [], ◌∷◌};
ghost use Rattle.pages.specs.Faults.{number, places, span_number, span_places};

#[derive(Clone, Copy, PartialEq, Eq, Debug)]
pub enum SupplyFault {
    // 11: a count of 0, or above the largest
    BadCount(u32),
    // 12: a count that does not fit now
    NoFit(u32),
    // 13: a run that is not out, by its first page
    NotOut(u32),
}

impl SupplyFault {
    pub fn number(&self) -> u32
        ensures { result ≡ number self.now }
    {
        match self {
            SupplyFault::BadCount(_) => 11,
            SupplyFault::NoFit(_) => 12,
            SupplyFault::NotOut(_) => 13,
        }
    }

    /// The one value that the refusal tells.
    pub fn place(&self) -> u32
        ensures { places self.now ≡ result ∷ [] }
    {
        match self {
            SupplyFault::BadCount(count) => *count,
            SupplyFault::NoFit(count) => *count,
            SupplyFault::NotOut(first) => *first,
        }
    }
}

#[derive(Clone, Copy, PartialEq, Eq, Debug)]
pub enum SpanFault {
    // 14: a span that no supply of the kind can have
    BadSpan(u32),
}

impl SpanFault {
    pub fn number(&self) -> u32
        ensures { result ≡ span_number self.now }
    {
        match self {
            SpanFault::BadSpan(_) => 14,
        }
    }

    /// The one value that the refusal tells.
    pub fn place(&self) -> u32
        ensures { span_places self.now ≡ result ∷ [] }
    {
        match self {
            SpanFault::BadSpan(span) => *span,
        }
    }
}
