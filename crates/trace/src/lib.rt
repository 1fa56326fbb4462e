//! A rack's calls as values, and the law over whole runs of them.
#![tactic(auto)]

mod call;
mod dispatch;
mod lists;

pub use call::{Answer, Answered, Call};
pub use dispatch::perform;
pub use lists::run;
