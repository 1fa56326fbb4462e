//! Tickets for the lines of a board. They are moved, and neither copied nor let go: a program that forgets one is refused.
ghost use Rattle.std.specs.Prelude.{◌≡◌, ℕ};
ghost use Rattle.rack.specs.declared.state.State.{State};
ghost use Rattle.rack.specs.declared.state.State.TheVariants as state;

use crate::fault::BoardFault;
use std::marker::PhantomData;

/// The state of a ticket's line, as a type.
pub trait Phase {
    ghost state: { State };
}

/// The line plays. The board's `ring` alone spends a ticket of this phase.
pub struct Playing;

impl Phase for Playing {
    ghost state = { state.Playing };
}

/// The line rings. The board's `close` alone spends a ticket of this phase.
pub struct Ringing;

impl Phase for Ringing {
    ghost state = { state.Ringing };
}

/// A ticket for a line: the mark of its board, and the line.
pub struct Ticket<P: Phase> {
    mark: u32,
    line: u32,
    phase: PhantomData<P>,
}

/// What a granted open answers: the line's ticket, and where its block begins.
pub struct Opened {
    pub ticket: Ticket<Playing>,
    pub offset: u32,
}

/// A ticket that comes back from a call that was refused.
pub struct Declined<T> {
    pub ticket: T,
    pub fault: BoardFault,
}

/// What a line is tapped with: a ticket of either phase, or a type of the caller's own that stands for one.
pub trait AnyTicket {
    ghost marked: { Self → ℕ };

    ghost lined: { Self → ℕ };

    // the state that the line of such a ticket is in
    ghost stated: { State };

    fn mark(&self) -> u32
        ensures { result ≡ marked self.now };

    fn line(&self) -> u32
        ensures { result ≡ lined self.now };
}

impl<P: Phase> AnyTicket for Ticket<P> {
    ghost marked = { λ t. t.mark };

    ghost lined = { λ t. t.line };

    ghost stated = { P.state };

    fn mark(&self) -> u32 {
        self.mark
    }

    fn line(&self) -> u32 {
        self.line
    }
}

impl<P: Phase> Ticket<P> {
    // Only a granted open and a granted ring make a ticket.
    pub(crate) fn new(mark: u32, line: u32) -> Ticket<P>
        ensures mark { result.mark ≡ mark }
        ensures line { result.line ≡ line }
    {
        Ticket {
            mark,
            line,
            phase: PhantomData,
        }
    }
}

impl Ticket<Playing> {
    // A granted ring turns a playing ticket into a ringing one.
    pub(crate) fn into_ringing(self) -> Ticket<Ringing>
        ensures mark { result.mark ≡ self.mark }
        ensures line { result.line ≡ self.line }
    {
        let Ticket {
            mark,
            line,
            phase: _,
        } = self;
        Ticket::new(mark, line)
    }
}

impl Ticket<Ringing> {
    // A granted close spends a ringing ticket: it is the one place where one ends.
    pub(crate) fn spend(self) {
        let Ticket {
            mark: _,
            line: _,
            phase: _,
        } = self;
    }
}
