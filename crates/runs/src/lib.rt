//! Runs of pages, each cut into equal slots, and the table of a pool's runs.
#![tactic(auto)]

mod run;
mod shape;
mod slots;
mod table;

pub use run::Run;
pub use shape::Shape;
pub use table::{Runs, Spot};

/// The most runs that a table holds.
pub const MAX_RUNS: usize = 128;
