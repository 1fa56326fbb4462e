//! A client of a pool over any supply.
ghost use Rattle.pages.specs.Rule.{SameRule};
ghost use Rattle.pool.specs.Tables.{run_table, rule_of, seen};
ghost use Rattle.pools.specs.Again.{Again, GrantedAgain};

use pages::supply::Supply;
use pool::{Block, Pool, PoolFault};
use runs::Runs;

/// Releases the block at an offset and takes one for a request at once. For the same request it is always granted, also
/// where the block was its run's last and the run went back to the supply.
pub fn take_again<S: Supply>(
    pool: &mut Pool<S>,
    offset: u32,
    bytes: u32,
) -> Result<Block, PoolFault>
    ensures rule_kept { SameRule (rule_of pool.old) (rule_of pool.new) }
    ensures again { Again (seen pool.old) (seen pool.new) offset bytes result }
    ensures granted { GrantedAgain (run_table pool.old) offset bytes result }
{
    pool.release(offset)?;
    pool.take(bytes)
}
