//! Voices and what is heard of them, in print.
use crate::voice::{Heard, Voice};
use board::BoardFault;
use samples::MonoSample;
use std::fmt;

impl fmt::Display for Voice<MonoSample> {
    fn fmt<W: fmt::Write>(&self, f: &mut fmt::Formatter<W>) -> fmt::Result {
        write!(
            f,
            "line {} of {}, plays {}",
            self.line, self.length, self.sample
        )
    }
}

impl fmt::Display for Heard<MonoSample> {
    fn fmt<W: fmt::Write>(&self, f: &mut fmt::Formatter<W>) -> fmt::Result {
        writeln!(f, "    the old voice: {}", Tap(self.old))?;
        writeln!(f, "    the new voice: {}", Tap(self.new))?;
        write!(f, "    the old voice, ringing: {}", Tap(self.rung))
    }
}

// What a tap answered.
#[derive(Clone, Copy)]
struct Tap(Result<MonoSample, BoardFault>);

impl fmt::Display for Tap {
    fn fmt<W: fmt::Write>(&self, f: &mut fmt::Formatter<W>) -> fmt::Result {
        match self.0 {
            Ok(sample) => write!(f, "{sample}"),
            Err(fault) => write!(f, "refused by {}", fault.number()),
        }
    }
}
