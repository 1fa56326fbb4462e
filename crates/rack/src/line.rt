//! The record of one line.
use crate::state::State;

mod methods;

/// A line: its state, and, while it is in use, its block and how far it was fed. The numbers of an unused line are 0: it has
/// a record too, since `turn` goes by every state.
#[derive(Clone, Copy)]
pub struct Line {
    pub(crate) state: State,
    // where its block begins
    pub(crate) offset: u32,
    // how many samples it has room for
    pub(crate) length: u32,
    // the position that the next sample goes to
    pub(crate) next: u32,
    // how many samples it keeps: as many as were fed, at most its length
    pub(crate) kept: u32,
}
