//! How a run is cut into slots, and its pages.
ghost use Rattle.runs.specs.Cut.{Paged};

use classes::Class;

mod methods;

/// A run's class, or `None` for a run of its own, which is one slot; and its pages.
#[derive(Clone, Copy)]
pub struct Shape {
    class: Option<Class>,
    count: u8,
    ghost paged: { Paged class count },
}
