//! Finding runs in the table, and changing it at one index.
ghost use Rattle.std.specs.Prelude.{◌≡◌, replicate, option_map, Some, None, slice_index_or, slice_set};
ghost use Rattle.runs.specs.Limits.{max_runs};
ghost use Rattle.runs.specs.Table.{covers, vacant, First, Fullest, LendsAt, RestoresAt, LendsOf, rank};

use super::{Runs, Spot};
use crate::MAX_RUNS;
use crate::run::Run;
use classes::Class;

impl Runs {
    /// A table with no run.
    pub fn new() -> Runs
        ensures { result.table ≡ replicate max_runs None }
    {
        Runs {
            table: [None; MAX_RUNS],
        }
    }

    /// The run at an index.
    pub fn get(&self, index: usize) -> Option<Run>
        ensures { result ≡ slice_index_or self.now.table index None }
    {
        self.table.get(index).copied().flatten()
    }

    /// The lowest index with no run.
    pub fn vacant(&self) -> Option<usize>
        ensures { First vacant self.now.table result }
    {
        self.table.iter().position(Option::is_none)
    }

    /// The lowest index of a run that a page lies in.
    pub fn find(&self, page: u32) -> Option<usize>
        ensures { First (covers page) self.now.table result }
    {
        self.table
            .iter()
            .position(|entry| entry.as_ref().is_some_and(|run| run.covers(page)))
    }

    // The index of the run of a class to lend a slot of: of those with a free slot the fullest, then the lowest.
    fn fullest(&self, class: Class) -> Option<usize>
        ensures { Fullest class.number self.now.table result }
    {
        self.table
            .iter()
            .enumerate()
            .filter(|(_, entry)| entry.as_ref().is_some_and(|run| run.serves(class)))
            // The key has a clause, since no search finds it from what the two calls ensure.
            .min_by_key(
                |item| -> Option<(u32, u32)>
                    ensures { result ≡ option_map rank item.now.1.now }
                { item.1.as_ref().map(Run::rank) },
            )
            .map(|(index, _)| index)
    }

    /// Lends the lowest free slot of the class's fullest run, and answers it with the run as it was; or `None` where no
    /// run of the class has a free slot.
    pub fn lend(&mut self, class: Class) -> Option<Spot>
        ensures { LendsOf class.number self.old.table result self.new.table }
    {
        let index = self.fullest(class)?;
        let run = self.get(index).unwrap();
        let slot = lend_at(&mut self.table, index).unwrap();
        Some(Spot { index, run, slot })
    }

    /// Takes back a slot of the run at an index.
    pub fn restore(&mut self, index: usize, slot: u32)
        ensures { RestoresAt self.old.table index slot self.new.table }
    {
        restore_at(&mut self.table, index, slot);
    }

    /// Puts a run at an index.
    pub fn put(&mut self, index: usize, run: Run)
        ensures { self.new.table ≡ slice_set self.old.table index (Some run) }
    {
        self.set(index, Some(run));
    }

    /// Empties an index.
    pub fn close(&mut self, index: usize)
        ensures { self.new.table ≡ slice_set self.old.table index None }
    {
        self.set(index, None);
    }

    // Sets what stands at an index; past the table it does nothing.
    fn set(&mut self, index: usize, entry: Option<Run>)
        ensures { self.new.table ≡ slice_set self.old.table index entry }
    {
        // By index, since after `get_mut` a proof knows the table's length and none of its runs.
        if index < MAX_RUNS {
            self.table[index] = entry;
        }
    }
}

// A run is changed where it stands, so these two take the table, which a ghost field reads, as a slice.

// Lends the lowest free slot of the run at an index: `None` where there is no such run, or it has none.
fn lend_at(table: &mut [Option<Run>], index: usize) -> Option<u32>
    ensures { LendsAt table.old index result table.new }
{
    if index >= table.len() {
        return None;
    }
    table[index].as_mut()?.lend()
}

fn restore_at(table: &mut [Option<Run>], index: usize, slot: u32)
    ensures { RestoresAt table.old index slot table.new }
{
    if index < table.len() {
        if let Some(run) = table[index].as_mut() {
            run.restore(slot);
        }
    }
}
