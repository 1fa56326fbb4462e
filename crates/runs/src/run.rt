//! A run of pages, cut into the slots of its shape.
ghost use Rattle.std.specs.Prelude.{◌≡◌, length};
ghost use Rattle.runs.specs.Loans.{loans};
ghost use Rattle.runs.specs.Shapes.{slots_in};

use crate::shape::Shape;
use crate::slots::Slots;

mod methods;

/// A run: its first page, its shape, and which of its slots are on loan.
#[derive(Clone, Copy)]
pub struct Run {
    first: u16,
    shape: Shape,
    slots: Slots,
    ghost cut: { length (loans slots) ≡ slots_in shape },
}
