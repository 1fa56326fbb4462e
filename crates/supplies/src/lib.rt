//! What programs can show of any supply, the worked edges, and the tests of all supplies and layers.
#![tactic(auto)]

pub mod client;
pub mod edges;
#[cfg(test)]
mod tests;
