//! The four questions of the firmware's C part, on plain numbers; the crate `classes_c` exports them.
ghost use Rattle.std.specs.Prelude.{◌≡◌};
ghost use Rattle.classes.specs.Exports.{ClassAnswer, size_answer, pages_answer, slot_answer};

use crate::class::Class;

// The answer to input outside the class rules, as C has no `Option`: no class, size, count of pages or slot reaches it.
const OUTSIDE: u32 = 65535;

/// The class of a length.
pub fn cogyrundal_class_of_length(length: u32) -> u32
    ensures { ClassAnswer length result }
{
    Class::of_length(length).map_or(OUTSIDE, Class::number)
}

/// The size of a class, in bytes.
pub fn cogyrundal_size_of_class(class: u32) -> u32
    ensures { result ≡ size_answer class }
{
    Class::new(class).map_or(OUTSIDE, Class::size)
}

/// The pages of a run of a class.
pub fn cogyrundal_pages_of_class(class: u32) -> u32
    ensures { result ≡ pages_answer class }
{
    Class::new(class).map_or(OUTSIDE, Class::pages)
}

/// The slot that a place in a run of a class lies in.
pub fn cogyrundal_slot_of_place(class: u32, place: u32) -> u32
    ensures { result ≡ slot_answer class place }
{
    let slot = Class::new(class).and_then(|class| class.slot_of(place));
    slot.unwrap_or(OUTSIDE)
}
