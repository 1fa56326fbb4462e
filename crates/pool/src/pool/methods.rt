//! Making a pool, and its questions.
ghost use Rattle.std.specs.Prelude.{◌≡◌, length, replicate, None, sum};
ghost use Rattle.runs.specs.Limits.{max_runs};
ghost use Rattle.pool.specs.Tables.{run_table, page_table, supply_of};
ghost use Rattle.pool.specs.Blocks.{BlocksStand};

use super::Pool;
use pages::supply::Supply;
use runs::Runs;

impl<S: Supply> Pool<S> {
    /// A pool with no run.
    pub fn new(supply: S) -> Pool<S>
        ensures runs { run_table result ≡ replicate max_runs None }
        ensures supply { supply_of result ≡ supply }
        ensures table { page_table result ≡ S.Supply.table supply }
    {
        Pool {
            supply,
            runs: Runs::new(),
        }
    }

    /// The supply, with the pool's runs still out.
    pub fn into_supply(self) -> S
        ensures supply { result ≡ supply_of self }
        ensures table { S.Supply.table result ≡ page_table self }
    {
        let Pool { supply, runs: _ } = self;
        supply
    }

    /// The supply's span, in pages.
    pub fn span(&self) -> u32
        ensures { result ≡ length (page_table self.now) }
    {
        self.supply.span()
    }

    /// The sum of the pages of the supply's runs out.
    pub fn pages_out(&self) -> u32
        ensures { result ≡ sum (page_table self.now) }
    {
        self.supply.pages_out()
    }

    /// What stands of every pool: each block on loan lies inside its run, and no two share a byte. A call that does
    /// nothing.
    pub fn blocks_stand(&self)
        ensures { BlocksStand (run_table self.now) (page_table self.now) }
    {}
}
