//! A pool of blocks of bytes, over any supply of pages.
#![tactic(auto)]

mod block;
mod fault;
mod pool;

pub use block::Block;
pub use fault::{Places, PoolFault};
pub use pool::Pool;
