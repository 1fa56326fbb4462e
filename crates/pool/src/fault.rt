//! Why a pool refuses, with the number and the values that each refusal tells.
ghost use Rattle.std.specs.Prelude.{◌≡◌, [], ◌∷◌, length, take};
ghost use Rattle.pool.specs.Faults.{number, places, padded};

use pages::fault::SupplyFault;

/// A refusal of `take` or `release`.
#[derive(Clone, Copy, Debug, PartialEq, Eq)]
pub enum PoolFault {
    // 21: a request of 0 bytes
    NoBytes,
    // 22: a request that is too long
    TooLong(u32),
    // 23: a new run is needed, and the table is full
    TableFull(u32),
    // the supply's own refusal of the new run, with the bytes asked
    Supply(SupplyFault, u32),
    // 24: an offset past the span
    PastSpan(u32),
    // 25: an offset whose page is in no run
    NoRun(u32),
    // 26: an offset where no slot begins
    NoSlot(u32),
    // 27: a slot that is not on loan
    NotOnLoan(u32),
}

/// The values that a refusal tells, the lowest layer's first: the first `count` of `values`. No layer's refusal tells more than three.
// A count beside an array, since these values are copied, as an `ArrayVec` is not.
#[derive(Clone, Copy, Debug, PartialEq, Eq)]
pub struct Places {
    pub values: [u32; 3],
    pub count: usize,
}

impl Places {
    /// One value.
    pub fn one(value: u32) -> Places
        ensures { (result.values ≡ value ∷ 0 ∷ 0 ∷ []) × (result.count ≡ 1) }
    {
        Places {
            values: [value, 0, 0],
            count: 1,
        }
    }

    /// The values that are told.
    pub fn as_slice(&self) -> &[u32]
        ensures { result.now ≡ take self.now.count self.now.values }
    {
        self.values.get(..self.count).unwrap_or(&self.values)
    }
}

impl PoolFault {
    /// The refusal's number.
    pub fn number(&self) -> u32
        ensures { result ≡ number self.now }
    {
        match self {
            PoolFault::NoBytes => 21,
            PoolFault::TooLong(_) => 22,
            PoolFault::TableFull(_) => 23,
            PoolFault::Supply(below, _) => below.number(),
            PoolFault::PastSpan(_) => 24,
            PoolFault::NoRun(_) => 25,
            PoolFault::NoSlot(_) => 26,
            PoolFault::NotOnLoan(_) => 27,
        }
    }

    /// The values that the refusal tells, with zeros after them.
    pub fn places(&self) -> Places
        ensures count { result.count ≡ length (places self.now) }
        ensures values { take result.count result.values ≡ places self.now }
        ensures padding { result.values ≡ padded (places self.now) }
    {
        match self {
            PoolFault::NoBytes => Places::one(0),
            PoolFault::Supply(below, bytes) => Places {
                values: [below.place(), *bytes, 0],
                count: 2,
            },
            PoolFault::TooLong(value)
            | PoolFault::TableFull(value)
            | PoolFault::PastSpan(value)
            | PoolFault::NoRun(value)
            | PoolFault::NoSlot(value)
            | PoolFault::NotOnLoan(value) => Places::one(*value),
        }
    }
}
