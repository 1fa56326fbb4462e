//! The tests of racks over all supplies and kinds, of the samples, and of calls as values.
#![tactic(auto)]

#[cfg(test)]
mod tests;
