//! The limits of the page layer, named once.

/// The most pages that a supply can have.
pub const MAX_SPAN: usize = 1024;
