//! What the bitmap answers, and its changes by masks.
#![tactic(auto, using(crate::proofs::Bitmaps::slot_steps), unfolding(crate::specs::Loans::loans))]

ghost use Rattle.std.specs.Prelude.{◌≡◌, ◌≤◌, true, false, length, replicate, slice_index_or, slice_set};
ghost use Rattle.runs.specs.Limits.{max_slots};
ghost use Rattle.runs.specs.Bitmap.{clear_in, Lowest};
ghost use Rattle.runs.specs.Loans.{loans};

use super::Slots;

impl Slots {
    // So many slots, none on loan.
    pub(crate) fn new(total: u32) -> Slots
        requires { total ≤ max_slots }
        ensures { loans result ≡ replicate total false }
    {
        // Fits, as is proved: `TryFrom` would add a refusal that never comes.
        let total = total as u16;
        Slots {
            words: [0; 8],
            total,
            free: total,
        }
    }

    pub(crate) fn total(&self) -> u32
        ensures { result ≡ length (loans self.now) }
    {
        u32::from(self.total)
    }

    pub(crate) fn free(&self) -> u32
        ensures { result ≡ clear_in (loans self.now) }
    {
        u32::from(self.free)
    }

    // `u32` has no `From` to `usize`, so it is cast.
    pub(crate) fn is_set(&self, s: u32) -> bool
        ensures { result ≡ slice_index_or (loans self.now) s false }
    {
        s < self.total() && (self.words[(s / 32) as usize] >> (s % 32)) & 1 == 1
    }

    pub(crate) fn set(&mut self, s: u32)
        ensures { loans self.new ≡ slice_set (loans self.old) s true }
    {
        if s < self.total() && !self.is_set(s) {
            self.words[(s / 32) as usize] |= 1 << (s % 32);
            self.free -= 1;
        }
    }

    // Its test, its operators and its count differ from those of `set`: one body for both would take all of them.
    pub(crate) fn clear(&mut self, s: u32)
        ensures { loans self.new ≡ slice_set (loans self.old) s false }
    {
        if self.is_set(s) {
            self.words[(s / 32) as usize] &= !(1 << (s % 32));
            self.free += 1;
        }
    }

    // The lowest slot that is not on loan: in the first word that is not full.
    pub(crate) fn lowest_clear(&self) -> Option<u32>
        ensures { Lowest (loans self.now) result }
    {
        let i = self.words.iter().position(|w| *w != u32::MAX)?;
        // A word's place is below 8.
        let s = i as u32 * 32 + self.words[i].trailing_ones();
        (s < self.total()).then_some(s)
    }
}
