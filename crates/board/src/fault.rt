//! Why a board refuses a ticket, with the number and the values that each refusal tells.
ghost use Rattle.std.specs.Prelude.{◌≡◌, length, take};
ghost use Rattle.board.specs.Faults.{number, places};
ghost use Rattle.pool.specs.Faults.{padded};

use rack::{Places, RackFault};

/// A refusal of a call that comes with a ticket.
#[derive(Clone, Copy, Debug, PartialEq, Eq)]
pub enum BoardFault {
    // 40: a ticket of another board; it tells the ticket's line
    OtherMark(u32),
    // the rack's own refusal
    Rack(RackFault),
}

impl BoardFault {
    /// The refusal's number.
    pub fn number(&self) -> u32
        ensures { result ≡ number self.now }
    {
        match self {
            BoardFault::OtherMark(_) => 40,
            BoardFault::Rack(below) => below.number(),
        }
    }

    /// The values that the refusal tells, with zeros after them.
    pub fn places(&self) -> Places
        ensures count { result.count ≡ length (places self.now) }
        ensures values { take result.count result.values ≡ places self.now }
        ensures padding { result.values ≡ padded (places self.now) }
    {
        match self {
            BoardFault::OtherMark(line) => Places::one(*line),
            BoardFault::Rack(below) => below.places(),
        }
    }
}
