//! A block is taken: of a run that there is, or of a new one.
ghost use Rattle.std.specs.Prelude.{◌≡◌, ◌<◌};
ghost use Rattle.pages.specs.Rule.{SameRule};
ghost use Rattle.runs.specs.Shapes.{slots_in};
ghost use Rattle.pool.specs.Model.{Takes, BeginsRun};
ghost use Rattle.pool.specs.Tables.{run_table, page_table, rule_of, seen};
ghost use Rattle.pool.specs.Blocks.{block_of};
ghost use Rattle.pool.specs.Take.{AddsBlock, Reuses};
ghost use Rattle.pool.specs.Parts.{Lending};

use super::Pool;
use crate::block::Block;
use crate::fault::PoolFault;
use classes::PAGE_BYTES;
use pages::supply::Supply;
use runs::{Run, Runs, Shape, Spot};

impl<S: Supply> Pool<S> {
    /// Takes a block of at least so many bytes.
    pub fn take(&mut self, bytes: u32) -> Result<Block, PoolFault>
        ensures rule_kept { SameRule (rule_of self.old) (rule_of self.new) }
        ensures taken { Takes (seen self.old) (seen self.new) bytes result }
        ensures adds { AddsBlock (run_table self.old) (run_table self.new) result }
        ensures reuses { Reuses bytes (run_table self.old) (page_table self.old) (page_table self.new) result }
    {
        let Some(shape) = Shape::of_request(bytes) else {
            return Err(if bytes == 0 {
                PoolFault::NoBytes
            } else {
                PoolFault::TooLong(bytes)
            });
        };
        match self.lend(shape) {
            Some(block) => Ok(block),
            None => self.begin(shape, bytes),
        }
    }

    // Lends a slot of a run that there is, if the shape's class has one that is free.
    fn lend(&mut self, shape: Shape) -> Option<Block>
        ensures supply { self.new.supply ≡ self.old.supply }
        ensures lends { Lending shape (run_table self.old) (run_table self.new) result }
    {
        let spot = self.runs.lend(shape.class()?)?;
        Some(block_of(spot))
    }

    // Takes a run of the supply, and lends its first slot.
    fn begin(&mut self, shape: Shape, bytes: u32) -> Result<Block, PoolFault>
        ensures rule_kept { SameRule (rule_of self.old) (rule_of self.new) }
        ensures begins { BeginsRun (seen self.old) (seen self.new) bytes shape result }
    {
        let Some(index) = self.runs.vacant() else {
            return Err(PoolFault::TableFull(bytes));
        };
        let taken = self
            .supply
            .take(shape.count())
            .map_err(|fault| PoolFault::Supply(fault, bytes))?;
        // Fits, as is proved: `TryFrom` would add a refusal that never comes.
        let run = Run::new(taken.first as u16, shape);
        self.runs.put(index, run);
        Ok(block_of(Spot {
            index,
            run,
            slot: 0,
        }))
    }
}

// The block of a slot.
fn block_of(spot: Spot) -> Block
    requires { spot.slot < slots_in spot.run.shape }
    ensures { result ≡ block_of spot }
{
    let size = spot.run.shape().size();
    Block {
        offset: spot.run.first() * PAGE_BYTES + spot.slot * size,
        size,
    }
}
