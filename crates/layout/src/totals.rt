//! What all requests come to.
ghost use Rattle.std.specs.Prelude.{◌≡◌, ℕ, ◌+◌};
ghost use Rattle.layout.specs.Sums.{capped};

use std::fmt;

/// Counts that stop at their largest value.
#[derive(Clone, Copy, Default)]
pub struct Totals {
    held: u64,
    refused: u64,
    asked: u64,
    lent: u64,
}

impl Totals {
    pub fn new() -> Totals
        ensures { (result.held ≡ 0) × (result.refused ≡ 0) × (result.asked ≡ 0) × (result.lent ≡ 0) }
    {
        Totals::default()
    }

    /// A request that is held in a block of so many bytes.
    pub fn hold(&mut self, bytes: u32, size: u32)
        ensures held { self.new.held ≡ capped (self.old.held + 1) }
        ensures refused { self.new.refused ≡ self.old.refused }
        ensures asked { self.new.asked ≡ capped (self.old.asked + bytes) }
        ensures lent { self.new.lent ≡ capped (self.old.lent + size) }
    {
        self.held = self.held.saturating_add(1);
        self.asked = self.asked.saturating_add(u64::from(bytes));
        self.lent = self.lent.saturating_add(u64::from(size));
    }

    /// A line that is refused.
    pub fn refuse(&mut self)
        ensures held { self.new.held ≡ self.old.held }
        ensures refused { self.new.refused ≡ capped (self.old.refused + 1) }
        ensures asked { self.new.asked ≡ self.old.asked }
        ensures lent { self.new.lent ≡ self.old.lent }
    {
        self.refused = self.refused.saturating_add(1);
    }
}

impl fmt::Display for Totals {
    fn fmt<W: fmt::Write>(&self, f: &mut fmt::Formatter<W>) -> fmt::Result {
        let Totals {
            held,
            refused,
            asked,
            lent,
        } = *self;
        let lost = lent.saturating_sub(asked);
        write!(
            f,
            "total: {held} held, {refused} refused, asked {asked}, blocks {lent}, lost {lost}"
        )
    }
}
