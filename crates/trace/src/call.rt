//! The calls of a rack, and what it answers.
ghost use Rattle.trace.specs.Words.{call_words, answer_words};

use rack::RackFault;
use std::fmt;

/// A call, as a value: lists of calls are written down, run and printed.
#[derive(Clone, Copy, Debug, PartialEq, Eq)]
pub enum Call<X> {
    Open { line: u32, length: u32 },
    Feed { line: u32, sample: X },
    Tick { line: u32 },
    Tap { line: u32, d: u32 },
    Ring { line: u32 },
    Close { line: u32 },
}

impl<X: fmt::Display> fmt::Display for Call<X> {
    ghost output = { λ call. call_words X.output call };

    fn fmt<W: fmt::Write>(&self, f: &mut fmt::Formatter<W>) -> fmt::Result {
        match self {
            Call::Open { line, length } => write!(f, "open {line} {length}"),
            Call::Feed { line, sample } => write!(f, "feed {line} {sample}"),
            Call::Tick { line } => write!(f, "tick {line}"),
            Call::Tap { line, d } => write!(f, "tap {line} {d}"),
            Call::Ring { line } => write!(f, "ring {line}"),
            Call::Close { line } => write!(f, "close {line}"),
        }
    }
}

/// What a granted call answers.
#[derive(Clone, Copy, Debug, PartialEq, Eq)]
pub enum Answer<X> {
    // where the block of an opened line begins
    Opened { offset: u32 },
    // a feed, a tick, a ring or a close
    Done,
    // what a tap heard
    Heard { sample: X },
}

impl<X: fmt::Display> fmt::Display for Answer<X> {
    ghost output = { λ answer. answer_words X.output answer };

    fn fmt<W: fmt::Write>(&self, f: &mut fmt::Formatter<W>) -> fmt::Result {
        match self {
            Answer::Opened { offset } => write!(f, "at {offset}"),
            Answer::Done => write!(f, "done"),
            Answer::Heard { sample } => write!(f, "{sample}"),
        }
    }
}

/// What a call answers: the rack grants it or declines it.
pub type Answered<X> = Result<Answer<X>, RackFault>;
