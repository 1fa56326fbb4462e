//! How a record changes, and where it says that a sample stands.
ghost use Rattle.std.specs.Prelude.{◌≡◌, ◌<◌};
ghost use Rattle.rack.specs.Lines.{unused, fresh, fed, rung, back};

use super::Line;
use crate::state::State;

impl Line {
    pub(crate) fn unused() -> Line
        ensures { result ≡ unused }
    {
        Line {
            state: State::Unused,
            offset: 0,
            length: 0,
            next: 0,
            kept: 0,
        }
    }

    // A line that was just opened.
    pub(crate) fn opened(offset: u32, length: u32) -> Line
        ensures { result ≡ fresh offset length }
    {
        Line {
            state: State::Playing,
            offset,
            length,
            next: 0,
            kept: 0,
        }
    }

    // One sample more: the next position wraps at the length.
    pub(crate) fn advance(&mut self)
        requires { self.old.next < self.old.length }
        ensures { self.new ≡ fed self.old }
    {
        self.next += 1;
        if self.next == self.length {
            self.next = 0;
        }
        if self.kept < self.length {
            self.kept += 1;
        }
    }

    pub(crate) fn ring(&mut self)
        ensures { self.new ≡ rung self.old }
    {
        self.state = State::Ringing;
    }

    // The position of the sample that was fed d feeds before the newest.
    pub(crate) fn position(&self, d: u32) -> u32
        requires next { self.now.next < self.now.length }
        requires near { d < self.now.length }
        ensures is { result ≡ back self.now.length self.now.next d }
        ensures within { result < self.now.length }
    {
        if d < self.next {
            self.next - 1 - d
        } else {
            self.length - (d - self.next) - 1
        }
    }
}
