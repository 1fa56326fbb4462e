//! A rack of 64 delay lines over one sample memory, which comes with each call that reads or writes samples: there is no
//! heap, and a line's block is a place in that memory.
#![tactic(auto)]

mod fault;
mod inner;
mod line;
mod number;
mod rack;
mod state;
mod verdict;

pub use fault::RackFault;
pub use line::Line;
pub use pool::Places;
pub use rack::Rack;
pub use state::{State, Verb};
pub use verdict::turn;

/// The lines of a rack: 0 to 63.
pub const LINES: usize = 64;
