//! One size class, and what follows from its number.
ghost use Rattle.std.specs.Prelude.{◌≡◌, ℕ, ◌+◌, ◌*◌, ◌/◌, ◌<◌, ◌≤◌, MatchOption};
ghost use Rattle.classes.specs.Limits.{classes, page_bytes};
ghost use Rattle.classes.specs.Rule.{Stands, size_of, pages_of, slots_of, run_bytes, Smallest, Unclassed, InSlot, Starts, NoneStarts};

use crate::table::{RECIPROCAL, SIZE, smallest};
use crate::{CLASSES, LONGEST_CLASSED, PAGE_BYTES};

/// A size class.
#[derive(Clone, Copy, PartialEq, Eq)]
pub struct Class {
    number: u8,
    ghost known: { number < classes },
}

impl Class {
    /// The class of a number, or `None` where no class has it.
    // No `TryFrom`: an error would say no more than `None`, as with `NonZero::new`.
    pub fn new(number: u32) -> Option<Class>
        ensures { MatchOption result (classes ≤ number) (λ c. c.number ≡ number) }
    {
        if number >= CLASSES {
            return None;
        }
        Some(Class {
            // Fits, as is proved: `TryFrom` would add a refusal that never comes.
            number: number as u8,
        })
    }

    /// The smallest class that holds `length` bytes, or `None` where none does or there is nothing to hold.
    pub fn of_length(length: u32) -> Option<Class>
        ensures { MatchOption result (Unclassed length) (λ c. Smallest length c.number) }
    {
        if length == 0 || length > LONGEST_CLASSED {
            return None;
        }
        Some(Class {
            number: smallest(length),
        })
    }

    /// The class's number.
    pub fn number(self) -> u32
        ensures is { result ≡ self.number }
        ensures stands { Stands result }
    {
        u32::from(self.number)
    }

    /// The bytes of a block.
    pub fn size(self) -> u32
        ensures { result ≡ size_of self.number }
    {
        u32::from(SIZE[usize::from(self.number)])
    }

    /// The pages of a run: `k`.
    pub fn pages(self) -> u32
        ensures { result ≡ pages_of self.number }
    {
        4 + u32::from(self.number % 4)
    }

    /// The slots of a run, which fill its pages.
    pub fn slots(self) -> u32
        ensures is { result ≡ slots_of self.number }
        ensures fill { result * size_of self.number ≡ run_bytes self.number }
    {
        PAGE_BYTES >> self.power()
    }

    /// The slot that a place of a run lies in, or `None` past the run's end.
    pub fn slot_of(self, place: u32) -> Option<u32>
        ensures { MatchOption result (run_bytes self.number ≤ place) (λ s. InSlot self.number place s) }
    {
        if place >= self.pages() * PAGE_BYTES {
            return None;
        }
        let v = place >> self.power();
        Some((v * RECIPROCAL[usize::from(self.number % 4)]) >> 16)
    }

    /// The slot that begins at a place of a run, or `None` where none does.
    pub fn slot_at(self, place: u32) -> Option<u32>
        ensures { MatchOption result (NoneStarts self.number place) (λ s. Starts self.number place s) }
    {
        self.slot_of(place)
            .filter(|slot| slot * self.size() == place)
    }

    // `i`: a block's size is `k * 2^i`.
    fn power(self) -> u32
        ensures { result ≡ 1 + self.number / 4 }
    {
        1 + u32::from(self.number / 4)
    }
}
