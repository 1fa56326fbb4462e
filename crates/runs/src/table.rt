//! The table of a pool's runs.
ghost use Rattle.std.specs.Prelude.{◌≡◌, length};
ghost use Rattle.runs.specs.Limits.{max_runs};

use crate::MAX_RUNS;
use crate::run::Run;

mod methods;

/// At each index a run or none, in fixed memory.
#[derive(Drop)]
pub struct Runs {
    table: [Option<Run>; MAX_RUNS],
    ghost long: { length table ≡ max_runs },
}

/// A slot: the index of its run in the table, the run, and the slot's number.
#[derive(Clone, Copy)]
pub struct Spot {
    pub index: usize,
    pub run: Run,
    pub slot: u32,
}
