//! What programs can show of any pool, the worked edges, and the tests of pools over all supplies.
#![tactic(auto)]

pub mod client;
pub mod edges;
#[cfg(test)]
mod tests;
