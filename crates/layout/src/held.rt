//! A request and the shape of the run that holds it.
ghost use Rattle.std.specs.Prelude.{◌≡◌, ◌-◌, ◌≤◌, MatchOption};
ghost use Rattle.runs.specs.Shapes.{block_size, NoShape, ShapeOf};

use runs::Shape;
use std::fmt;

/// A request that is held.
#[derive(Clone, Copy)]
pub struct Held {
    bytes: u32,
    shape: Shape,
    ghost room: { bytes ≤ block_size shape },
}

impl Held {
    /// How a request of so many bytes is held, or `None` where it is refused.
    pub fn of_request(bytes: u32) -> Option<Held>
        ensures { MatchOption result (NoShape bytes) (λ h. (h.bytes ≡ bytes) × ShapeOf bytes h.shape) }
    {
        let shape = Shape::of_request(bytes)?;
        Some(Held { bytes, shape })
    }

    /// The bytes of its block.
    pub fn size(&self) -> u32
        ensures { result ≡ block_size self.now.shape }
    {
        self.shape.size()
    }

    // The bytes of its block that it does not use.
    fn lost(&self) -> u32
        ensures { result ≡ block_size self.now.shape - self.now.bytes }
    {
        self.size() - self.bytes
    }
}

impl fmt::Display for Held {
    fn fmt<W: fmt::Write>(&self, f: &mut fmt::Formatter<W>) -> fmt::Result {
        match self.shape.class() {
            Some(class) => write!(f, "class {}", class.number())?,
            None => write!(f, "no class")?,
        }
        write!(
            f,
            ", block {}, pages {}, slots {}, lost {}",
            self.size(),
            self.shape.count(),
            self.shape.slots(),
            self.lost()
        )
    }
}
