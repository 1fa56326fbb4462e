//! The numbers of a rack's lines.
ghost use Rattle.std.specs.Prelude.{◌≡◌, ◌<◌, ◌≤◌, MatchResult};
ghost use Rattle.rack.specs.declared.fault.RackFault.TheVariants.{NoLine};
ghost use Rattle.rack.specs.Limits.{line_count};

use crate::LINES;
use crate::fault::RackFault;

/// The number of a line that a rack has: 0 to 63.
#[derive(Clone, Copy)]
pub(crate) struct Number {
    value: u32,
    ghost within: { value < line_count },
}

impl Number {
    // No `TryFrom`: nothing but the calls of a rack makes one, and each tells its own refusal.
    pub(crate) fn new(line: u32) -> Result<Number, RackFault>
        ensures { MatchResult result (λ n. n.value ≡ line) (λ f. (line_count ≤ line) × (f ≡ NoLine line)) }
    {
        // `u32` has no `From` to `usize`, so it is cast.
        if line as usize >= LINES {
            return Err(RackFault::NoLine(line));
        }
        Ok(Number { value: line })
    }

    /// The place of its record.
    pub(crate) fn index(self) -> usize
        ensures is { result ≡ self.value }
        ensures within { result < line_count }
    {
        self.value as usize
    }

    pub(crate) fn number(self) -> u32
        ensures { result ≡ self.value }
    {
        self.value
    }
}
