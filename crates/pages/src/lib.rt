//! Supplies of pages: what each one means, why it refuses, and the first fit.
#![tactic(auto)]

pub mod fault;
pub mod first_fit;
pub mod limits;
pub mod lowest_fit;
pub mod placement;
pub mod run;
pub mod span;
pub mod supply;
pub mod table;
