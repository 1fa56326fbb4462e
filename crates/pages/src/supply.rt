//! What every supply of pages means.
ghost use Rattle.std.specs.Prelude.{◌≡◌, ℕ, ◌<◌, ◌≤◌, List, length, sum};
ghost use Rattle.pages.specs.Limits.{max_span};
ghost use Rattle.pages.specs.Rule.{Rule, SameRule};
ghost use Rattle.pages.specs.Table.{Inside, Apart, Nothing};
ghost use Rattle.pages.specs.Calls.{Taken, Given};

use crate::fault::SupplyFault;
use crate::run::Run;

pub trait Supply {
    // The table of its runs out, as long as its span: at each page the count of the run that begins there, or 0. So a
    // set of runs has one table, and what a call does is an equation.
    ghost table: { Self → List ℕ };

    // What it grants. Only the place of a run is left open, and each supply says here how far.
    ghost rule: { Self → Rule };

    fn span(&self) -> u32
        ensures { result ≡ length (table self.now) };

    fn largest(&self) -> u32
        ensures { result ≡ (rule self.now).largest };

    fn pages_out(&self) -> u32
        ensures { result ≡ sum (table self.now) };

    fn take(&mut self, count: u32) -> Result<Run, SupplyFault>
        ensures rule_kept { SameRule (rule self.old) (rule self.new) }
        ensures taken { Taken (rule self.old) count (table self.old) (table self.new) result };

    /// The second law stands in `Given`: right after a run is given, its count fits.
    fn give(&mut self, first: u32, count: u32) -> Result<(), SupplyFault>
        ensures rule_kept { SameRule (rule self.old) (rule self.new) }
        ensures given { Given (rule self.old) first count (table self.old) (table self.new) result };

    ghost span_bounds: { (s : Self) → (0 < length (table s)) × (length (table s) ≤ max_span) };

    ghost largest_bounds: { (s : Self) → (0 < (rule s).largest) × ((rule s).largest ≤ length (table s)) };

    ghost inside: { (s : Self) → Inside (length (table s)) (table s) };

    ghost apart: { (s : Self) → Apart (table s) };

    // The first law: a count that fits is 1 to the largest; with no run out, each such count fits.
    ghost fits_bounds: { (s : Self) (t : List ℕ) (c : ℕ) → (rule s).fits t c → (0 < c) × (c ≤ (rule s).largest) };

    ghost fits_nothing: { (s : Self) (t : List ℕ) (c : ℕ) → Nothing t → 0 < c → c ≤ (rule s).largest → (rule s).fits t c };
}
