//! What a shape answers.
ghost use Rattle.std.specs.Prelude.{◌≡◌, ◌*◌, ◌<◌, ◌≤◌, MatchOption};
ghost use Rattle.classes.specs.Blocks.{block_bytes};
ghost use Rattle.classes.specs.Limits.{page_bytes};
ghost use Rattle.runs.specs.Limits.{max_slots};
ghost use Rattle.runs.specs.Shapes.{slots_in, block_size, NoShape, ShapeOf, SlotStarts, NoSlotStarts};

use super::Shape;
use classes::{Class, PAGE_BYTES, pages_of_long};

impl Shape {
    /// The shape of a run that holds a request of so many bytes, or `None` where there is nothing to hold or too much.
    pub fn of_request(bytes: u32) -> Option<Shape>
        ensures shape { MatchOption result (NoShape bytes) (λ s. ShapeOf bytes s) }
        ensures size { MatchOption result (NoShape bytes) (λ s. block_size s ≡ block_bytes bytes) }
    {
        if let Some(class) = Class::of_length(bytes) {
            // Fits, as is proved: `TryFrom` would add a refusal that never comes.
            return Some(Shape {
                class: Some(class),
                count: class.pages() as u8,
            });
        }
        let pages = pages_of_long(bytes)?;
        // Fits, as is proved, like the pages of a class.
        Some(Shape {
            class: None,
            count: pages as u8,
        })
    }

    /// The class, or `None` for a run of its own.
    pub fn class(self) -> Option<Class>
        ensures { result ≡ self.class }
    {
        self.class
    }

    /// The pages of the run.
    pub fn count(self) -> u32
        ensures is { result ≡ self.count }
        ensures few { (0 < result) × (result ≤ 255) }
    {
        u32::from(self.count)
    }

    /// The slots of the run.
    pub fn slots(self) -> u32
        ensures is { result ≡ slots_in self }
        ensures few { (0 < result) × (result ≤ max_slots) }
    {
        self.class.map_or(1, Class::slots)
    }

    /// The bytes of a slot, and so of a block.
    pub fn size(self) -> u32
        ensures is { result ≡ block_size self }
        ensures fill { slots_in self * result ≡ self.count * page_bytes }
    {
        match self.class {
            Some(class) => class.size(),
            None => self.count() * PAGE_BYTES,
        }
    }

    /// The slot that begins at a place of the run, or `None` where none does.
    pub fn slot_at(self, place: u32) -> Option<u32>
        ensures { MatchOption result (NoSlotStarts self place) (λ s. SlotStarts self place s) }
    {
        match self.class {
            Some(class) => class.slot_at(place),
            None => (place == 0).then_some(0),
        }
    }
}
