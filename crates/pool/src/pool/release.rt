//! A block comes back, and with its last block a run.
ghost use Rattle.std.specs.Prelude.{◌≡◌, ◌≤◌, Some, None, slice_index_or, slice_set};
ghost use Rattle.pages.specs.Rule.{SameRule};
ghost use Rattle.pages.specs.Calls.{Removed};
ghost use Rattle.pool.specs.Model.{TakesBack, FreesSlot};
ghost use Rattle.pool.specs.Tables.{run_table, page_table, rule_of, seen};
ghost use Rattle.pool.specs.Blocks.{run_start, OnLoan};
ghost use Rattle.pool.specs.Release.{DropsBlock, Found};
ghost use Rattle.pool.specs.Parts.{SlotOnLoan};

use super::Pool;
use crate::fault::PoolFault;
use classes::PAGE_BYTES;
use pages::supply::Supply;
use runs::{Run, Runs, Spot};

impl<S: Supply> Pool<S> {
    /// Releases the block on loan that begins at an offset.
    pub fn release(&mut self, offset: u32) -> Result<(), PoolFault>
        ensures rule_kept { SameRule (rule_of self.old) (rule_of self.new) }
        ensures released { TakesBack (seen self.old) (seen self.new) offset result }
        ensures drops { DropsBlock (run_table self.old) (run_table self.new) offset result }
        ensures found { Found (run_table self.old) offset result }
    {
        if offset >= self.span() * PAGE_BYTES {
            return Err(PoolFault::PastSpan(offset));
        }
        let Some(index) = self.runs.find(offset / PAGE_BYTES) else {
            return Err(PoolFault::NoRun(offset));
        };
        let Some(run) = self.runs.get(index) else {
            unreachable()
        };
        let slot = slot_on_loan(run, offset)?;
        self.restore(Spot { index, run, slot });
        Ok(())
    }

    // A slot comes back, and with its last slot the run.
    fn restore(&mut self, spot: Spot)
        requires { OnLoan (run_table self.old) spot }
        ensures rule_kept { SameRule (rule_of self.old) (rule_of self.new) }
        ensures restored { FreesSlot (seen self.old) (seen self.new) spot }
    {
        if spot.run.has_one_on_loan() {
            self.give_back(spot.index, spot.run);
        } else {
            self.runs.restore(spot.index, spot.slot);
        }
    }

    // A run leaves the table and goes back to the supply, which cannot refuse it.
    fn give_back(&mut self, index: usize, run: Run)
        requires { slice_index_or (run_table self.old) index None ≡ Some run }
        ensures rule_kept { SameRule (rule_of self.old) (rule_of self.new) }
        ensures closed { run_table self.new ≡ slice_set (run_table self.old) index None }
        ensures given { Removed (rule_of self.old) run.first run.shape.count (page_table self.old) (page_table self.new) }
    {
        self.runs.close(index);
        let Ok(()) = self.supply.give(run.first(), run.shape().count()) else {
            unreachable()
        };
    }
}

// The slot on loan of a run that begins at an offset.
fn slot_on_loan(run: Run, offset: u32) -> Result<u32, PoolFault>
    requires { run_start run ≤ offset }
    ensures { SlotOnLoan run offset result }
{
    let place = offset - run.first() * PAGE_BYTES;
    let Some(slot) = run.shape().slot_at(place) else {
        return Err(PoolFault::NoSlot(offset));
    };
    if !run.is_on_loan(slot) {
        return Err(PoolFault::NotOnLoan(offset));
    }
    Ok(slot)
}
