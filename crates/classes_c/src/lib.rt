//! The four calls of the firmware's C part, on plain numbers; include/classes.h declares them.
//! Each is the library's function of that name, with the same clauses.
#![tactic(auto)]

ghost use Rattle.std.specs.Prelude.{◌≡◌};
ghost use Rattle.classes.specs.Exports.{ClassAnswer, size_answer, pages_answer, slot_answer};

/// The class of a length.
#[unsafe(no_mangle)]
pub extern "C" fn cogyrundal_class_of_length(length: u32) -> u32
    ensures { ClassAnswer length result }
{
    classes::cogyrundal_class_of_length(length)
}

/// The size of a class, in bytes.
#[unsafe(no_mangle)]
pub extern "C" fn cogyrundal_size_of_class(class: u32) -> u32
    ensures { result ≡ size_answer class }
{
    classes::cogyrundal_size_of_class(class)
}

/// The pages of a run of a class.
#[unsafe(no_mangle)]
pub extern "C" fn cogyrundal_pages_of_class(class: u32) -> u32
    ensures { result ≡ pages_answer class }
{
    classes::cogyrundal_pages_of_class(class)
}

/// The slot that a place in a run of a class lies in.
#[unsafe(no_mangle)]
pub extern "C" fn cogyrundal_slot_of_place(class: u32, place: u32) -> u32
    ensures { result ≡ slot_answer class place }
{
    classes::cogyrundal_slot_of_place(class, place)
}
