//! A pool: runs of a supply, each cut into slots.
ghost use Rattle.pool.specs.State.{RunsOut, FirstsDiffer, InUse};

use pages::supply::Supply;
use runs::Runs;

mod methods;
mod release;
mod take;

/// A pool over a supply: the runs that it holds are out of the supply, and each has a block on loan.
pub struct Pool<S: Supply> {
    supply: S,
    runs: Runs,
    ghost out: { RunsOut runs.table (S.Supply.table supply) },
    ghost differ: { FirstsDiffer runs.table },
    ghost used: { InUse runs.table },
}
