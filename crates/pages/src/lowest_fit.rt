//! A supply that takes the lowest place with room. `u32` has no `From` to `usize`, so a page is cast to an index.
ghost use Rattle.std.specs.Prelude.{◌≡◌, ◌<◌, ◌≤◌, true, length, map, take, replicate};
ghost use Rattle.pages.specs.Limits.{max_span};
ghost use Rattle.pages.specs.Table.{Inside, Apart};
ghost use Rattle.pages.specs.Spans.{granted_span};
ghost use Rattle.pages.specs.Placement.{Aligned, Room, lowest_fit};
ghost use Rattle.pages.specs.Lowest.{LowestFound};
ghost use Rattle.std.proofs.Common.{arith};
ghost use Rattle.pages.specs.Tables.{view_length, view_inside, view_apart};
ghost use Rattle.pages.specs.Placements.{runs_inside, runs_apart, nothing_room};

use crate::fault::SupplyFault;
use crate::limits::MAX_SPAN;
use crate::placement::Placement;
use crate::run::Run;
use crate::supply::Supply;
use crate::table::{is_out, total};
use std::marker::PhantomData;

#[derive(Drop)]
pub struct LowestFit<P: Placement> {
    span: u32,
    // As long as the longest span, of which the first `span` are used: no memory is taken at run time.
    counts: [u16; MAX_SPAN],
    placement: PhantomData<P>,
    ghost good: { P.good span ≡ true },
    ghost sized: { length counts ≡ max_span },
    ghost inside: { Inside span (map P.reserve counts) },
    ghost apart: { Apart (map P.reserve counts) },
    ghost aligned: { Aligned P.alignment counts },
}

impl<P: Placement> LowestFit<P> {
    /// A span that the check refuses gives a supply of 1 page. No run is out.
    pub fn new(span: u32) -> Self
        ensures span { result.span ≡ granted_span (P.good span) span }
        ensures table { take result.span result.counts ≡ replicate (granted_span (P.good span) span) 0 }
    {
        LowestFit {
            span: if P::check(span).is_ok() { span } else { 1 },
            counts: [0; MAX_SPAN],
            placement: PhantomData,
        }
    }

    // Below `page` all is seen: each reserve there ends by `place`, and no lower place has room. A `while`, since it
    // passes a whole reserve in one step. Room is looked for after a free page alone: tried at each turn, the turn waited
    // for the count that the one before it had read, and a long row of free pages took three times as long.
    fn lowest(&self, count: u16) -> Option<u32>
        requires { (0 < count) × (count ≤ self.now.span) }
        ensures { LowestFound (Room P.reserve P.alignment self.now.span self.now.counts count) result }
    {
        let size = P::reserve(count);
        let step = P::alignment(count);
        let mut place = 0;
        let mut page = 0;
        while place + size <= self.span {
            let run = self.counts[page as usize];
            if run > 0 {
                page += P::reserve(run);
                place = page.next_multiple_of(step);
            } else {
                page += 1;
                if place + size <= page {
                    return Some(place);
                }
            }
        }
        None
    }
}

impl<P: Placement> Supply for LowestFit<P> {
    ghost table = { λ s. take s.span s.counts };

    ghost rule = { λ s. lowest_fit P.room s.span };

    ghost span_bounds = { λ s. let k = P.spans in let e = view_length s.span s.counts s.sized (k.most s.span s.good) in (omega (arith, k.some s.span s.good), omega (arith, k.most s.span s.good)) };

    ghost largest_bounds = { λ s. let k = P.spans in let e = view_length s.span s.counts s.sized (k.most s.span s.good) in (k.some s.span s.good, omega arith) };

    ghost inside = { λ s. view_inside s.span s.counts s.sized (P.spans.most s.span s.good) (runs_inside P.reserving s.span s.counts s.inside) };

    ghost apart = { λ s. view_apart s.span s.counts (runs_inside P.reserving s.span s.counts s.inside) (runs_apart P.reserving s.counts s.apart) };

    ghost fits_bounds = { λ s t c h. (h.0, omega (arith, ((P.says_room s.span t c h.1.0 h.0).0 h.1.1).1, P.reserving.holds c)) };

    ghost fits_nothing = { λ s t c n p l. (p, (0, (P.says_room s.span t c 0 p).1 (nothing_room P.reserving P.spans s.span t c s.good n l))) };

    fn span(&self) -> u32 {
        self.span
    }

    fn largest(&self) -> u32 {
        self.span()
    }

    fn pages_out(&self) -> u32 {
        total(&self.counts)
    }

    fn take(&mut self, count: u32) -> Result<Run, SupplyFault> {
        if count == 0 || count > self.span {
            return Err(SupplyFault::BadCount(count));
        }
        // Fits, as is proved: `TryFrom` would add a refusal that never comes.
        let pages = count as u16;
        let first = self.lowest(pages).ok_or(SupplyFault::NoFit(count))?;
        self.counts[first as usize] = pages;
        Ok(Run { first, count })
    }

    fn give(&mut self, first: u32, count: u32) -> Result<(), SupplyFault> {
        if !is_out(&self.counts, first, count) {
            return Err(SupplyFault::NotOut(first));
        }
        self.counts[first as usize] = 0;
        Ok(())
    }
}
