//! What a run answers, and its loans.
ghost use Rattle.std.specs.Prelude.{◌≡◌, ◌+◌, ◌<◌, true, false, replicate, Some, ◌==◌, slice_set};
ghost use Rattle.runs.specs.Loans.{loans};
ghost use Rattle.runs.specs.Shapes.{slots_in};
ghost use Rattle.runs.specs.Table.{free, is_on_loan, covers, serves, rank, Lends, Restores};

use super::Run;
use crate::shape::Shape;
use crate::slots::Slots;
use classes::Class;

impl Run {
    /// A new run: its first slot is on loan, and no other.
    pub fn new(first: u16, shape: Shape) -> Run
        ensures first { result.first ≡ first }
        ensures shape { result.shape ≡ shape }
        ensures slots { loans result.slots ≡ slice_set (replicate (slots_in shape) false) 0 true }
    {
        let mut slots = Slots::new(shape.slots());
        slots.set(0);
        Run {
            first,
            shape,
            slots,
        }
    }

    /// The first page.
    pub fn first(&self) -> u32
        ensures is { result ≡ self.now.first }
        ensures small { result < 65536 }
    {
        u32::from(self.first)
    }

    /// The shape.
    pub fn shape(&self) -> Shape
        ensures { result ≡ self.now.shape }
    {
        self.shape
    }

    /// Whether a slot is on loan.
    pub fn is_on_loan(&self, slot: u32) -> bool
        ensures { result ≡ is_on_loan self.now slot }
    {
        self.slots.is_set(slot)
    }

    /// Whether one slot is on loan, and no more.
    #[tactic(auto, using(crate::proofs::Bitmaps::clear_in_le, crate::proofs::Cuts::slots_few))]
    pub fn has_one_on_loan(&self) -> bool
        ensures { result ≡ (free self.now + 1 == slots_in self.now.shape) }
    {
        self.slots.free() + 1 == self.slots.total()
    }

    // Whether this is a run of the class, with a free slot.
    pub(crate) fn serves(&self, class: Class) -> bool
        ensures { result ≡ serves class.number (Some self.now) }
    {
        self.slots.free() > 0 && self.shape.class() == Some(class)
    }

    // Whether a page lies in this run.
    pub(crate) fn covers(&self, page: u32) -> bool
        ensures { result ≡ covers page (Some self.now) }
    {
        (self.first()..self.first() + self.shape.count()).contains(&page)
    }

    // The run of least rank lends first: the fullest, and of several such the one with the lowest first page.
    pub(crate) fn rank(&self) -> (u32, u32)
        ensures { result ≡ rank self.now }
    {
        (self.slots.free(), self.first())
    }

    // Lends the lowest free slot, if there is one.
    pub(crate) fn lend(&mut self) -> Option<u32>
        ensures { Lends self.old result self.new }
    {
        let slot = self.slots.lowest_clear()?;
        self.slots.set(slot);
        Some(slot)
    }

    // Takes a slot back.
    pub(crate) fn restore(&mut self, slot: u32)
        ensures { Restores self.old slot self.new }
    {
        self.slots.clear(slot);
    }
}
