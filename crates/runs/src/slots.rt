//! A bitmap of the slots of one run: which are on loan, and how many are not.
ghost use Rattle.std.specs.Prelude.{◌≡◌, ◌≤◌};
ghost use Rattle.runs.specs.Limits.{max_slots};
ghost use Rattle.runs.specs.Bitmap.{bits, clear_in};

mod methods;

#[derive(Clone, Copy)]
pub struct Slots {
    // Bit `s % 32` of word `s / 32` is set while slot `s` is on loan: a bit each and a count, since memory is fixed and
    // the choice of a run reads the count of each.
    words: [u32; 8],
    total: u16,
    free: u16,
    ghost small: { total ≤ max_slots },
    ghost counted: { free ≡ clear_in (bits words total) },
}
