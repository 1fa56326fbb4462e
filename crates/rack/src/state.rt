//! The states of a line, and the calls that go by them.

/// What a line is doing.
#[derive(Clone, Copy, PartialEq, Eq)]
pub enum State {
    Unused,
    Playing,
    Ringing,
}

/// A call on a line.
#[derive(Clone, Copy, PartialEq, Eq)]
pub enum Verb {
    Open,
    Feed,
    Tick,
    Tap,
    Ring,
    Close,
    Kept,
}
