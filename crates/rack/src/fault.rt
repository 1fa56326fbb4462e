//! Why a rack refuses, with the number and the values that each refusal tells.
ghost use Rattle.std.specs.Prelude.{◌≡◌, length, take};
ghost use Rattle.pool.specs.Faults.{padded};
ghost use Rattle.rack.specs.Faults.{number, places};

use pool::{Places, PoolFault};

/// A refusal of a rack's call. Each tells its line.
#[derive(Clone, Copy, Debug, PartialEq, Eq)]
pub enum RackFault {
    // 31: no such line
    NoLine(u32),
    // 32: a length of 0
    NoLength(u32),
    // 33: more bytes than the longest request
    TooLong(u32),
    // 34: an open of a line in use
    InUse(u32),
    // 35: a line that is unused
    NotInUse(u32),
    // 36: a feed or a ring of a ringing line
    IsRinging(u32),
    // 37: a tick or a close of a playing line
    IsPlaying(u32),
    // 38: a tap past the line's length
    TooFar(u32),
    // 39: a memory of another length than the span's
    WrongMemory(u32),
    // the pool's own refusal of the block, with the line
    Pool(PoolFault, u32),
}

impl RackFault {
    /// The refusal's number.
    pub fn number(&self) -> u32
        ensures { result ≡ number self.now }
    {
        match self {
            RackFault::NoLine(_) => 31,
            RackFault::NoLength(_) => 32,
            RackFault::TooLong(_) => 33,
            RackFault::InUse(_) => 34,
            RackFault::NotInUse(_) => 35,
            RackFault::IsRinging(_) => 36,
            RackFault::IsPlaying(_) => 37,
            RackFault::TooFar(_) => 38,
            RackFault::WrongMemory(_) => 39,
            RackFault::Pool(below, _) => below.number(),
        }
    }

    /// The values that the refusal tells, the pool's before the line, with zeros after them.
    pub fn places(&self) -> Places
        ensures count { result.count ≡ length (places self.now) }
        ensures values { take result.count result.values ≡ places self.now }
        ensures padding { result.values ≡ padded (places self.now) }
    {
        match self {
            RackFault::Pool(below, line) => {
                let told = below.places();
                if told.count > 1 {
                    Places {
                        values: [told.values[0], told.values[1], *line],
                        count: 3,
                    }
                } else {
                    Places {
                        values: [told.values[0], *line, 0],
                        count: 2,
                    }
                }
            }
            RackFault::NoLine(line)
            | RackFault::NoLength(line)
            | RackFault::TooLong(line)
            | RackFault::InUse(line)
            | RackFault::NotInUse(line)
            | RackFault::IsRinging(line)
            | RackFault::IsPlaying(line)
            | RackFault::TooFar(line)
            | RackFault::WrongMemory(line) => Places::one(*line),
        }
    }
}
