//! The guard page: a layer over a supply that asks one page more below, and hands out the run without its last page.
//! So a page that nobody has stands behind each run. Layers nest.
#![tactic(auto)]

ghost use Rattle.std.specs.Prelude.{◌≡◌, ◌+◌, ◌-◌, ◌<◌, ◌≤◌, sum};
ghost use Rattle.guard.specs.GuardRule.{extra_pages, shorter, Above, guarded};
ghost use Rattle.std.proofs.Common.{arith};
ghost use Rattle.std.proofs.lemmas.List.{length-map};
ghost use Rattle.guard.specs.Guarding.{shorter_inside, shorter_apart, nothing_longer};

use pages::fault::SupplyFault;
use pages::run::Run;
use pages::supply::Supply;

pub struct Guard<S: Supply> {
    below: S,
    // How many pages more it asks below, 1 or 0.
    more: u32,
    // The pages of its runs, each so much shorter than below.
    pages: u32,
    ghost one: { more ≤ 1 },
    ghost less: { more < (S.Supply.rule below).largest },
    ghost above: { Above more (S.Supply.table below) },
    ghost counted: { pages ≡ sum (shorter more (S.Supply.table below)) },
}

impl<S: Supply> Guard<S> {
    /// Over a supply with runs out, or whose largest is 1, it passes each count through.
    pub fn new(supply: S) -> Guard<S>
        ensures supply { result.below ≡ supply }
        ensures extra { result.more ≡ extra_pages (S.Supply.rule supply).largest (S.Supply.table supply) }
        ensures table { shorter result.more (S.Supply.table result.below) ≡ shorter (extra_pages (S.Supply.rule supply).largest (S.Supply.table supply)) (S.Supply.table supply) }
        ensures largest { (S.Supply.rule result.below).largest - result.more ≡ (S.Supply.rule supply).largest - extra_pages (S.Supply.rule supply).largest (S.Supply.table supply) }
    {
        let pages = supply.pages_out();
        let more = if 1 < supply.largest() && pages == 0 {
            1
        } else {
            0
        };
        Guard {
            below: supply,
            more,
            pages,
        }
    }

    pub fn into_below(self) -> S
        ensures { result ≡ self.below }
    {
        let Guard {
            below,
            more: _,
            pages: _,
        } = self;
        below
    }
}

impl<S: Supply> Supply for Guard<S> {
    ghost table = { λ g. shorter g.more (S.Supply.table g.below) };

    ghost rule = { λ g. guarded g.more (S.Supply.rule g.below) };

    ghost span_bounds = { λ g. let m = S.Supply.span_bounds g.below in let e = length-map (S.Supply.table g.below) (λ n. n - g.more) in (omega arith, omega arith) };

    ghost largest_bounds = { λ g.
        let m = S.Supply.largest_bounds g.below in
        let e = length-map (S.Supply.table g.below) (λ n. n - g.more) in
        (omega (arith, g.less), omega arith) };

    ghost inside = { λ g. shorter_inside g.more (S.Supply.table g.below) (S.Supply.inside g.below) };

    ghost apart = { λ g. shorter_apart g.more (S.Supply.table g.below) (S.Supply.apart g.below) };

    ghost fits_bounds = { λ g t c h. (h.0, omega (arith, S.Supply.fits_bounds g.below _ _ h.1)) };

    ghost fits_nothing = { λ g t c n p l.
        let a : 0 < c + g.more = omega arith in
        let b : c + g.more ≤ (S.Supply.rule g.below).largest = omega (arith, g.less) in
        (p, S.Supply.fits_nothing g.below _ _ (nothing_longer g.more t n) a b) };

    fn span(&self) -> u32 {
        self.below.span()
    }

    fn largest(&self) -> u32 {
        self.below.largest() - self.more
    }

    fn pages_out(&self) -> u32 {
        self.pages
    }

    fn take(&mut self, count: u32) -> Result<Run, SupplyFault> {
        if count == 0 || count > self.largest() {
            return Err(SupplyFault::BadCount(count));
        }
        let Ok(run) = self.below.take(count + self.more) else {
            return Err(SupplyFault::NoFit(count));
        };
        self.pages += count;
        Ok(Run {
            first: run.first,
            count,
        })
    }

    fn give(&mut self, first: u32, count: u32) -> Result<(), SupplyFault> {
        if count == 0 || count > self.span() {
            return Err(SupplyFault::NotOut(first));
        }
        let Ok(()) = self.below.give(first, count + self.more) else {
            return Err(SupplyFault::NotOut(first));
        };
        self.pages -= count;
        Ok(())
    }
}
