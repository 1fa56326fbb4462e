//! What a board does.
ghost use Rattle.std.specs.Prelude.{◌≡◌, ℕ, List, sum};
ghost use Rattle.rack.specs.declared.state.State.TheVariants as state;
ghost use Rattle.rack.specs.Model.{new_model, kept_answer};
ghost use Rattle.board.specs.Views.{mark_of, lines_of, pages_of, supply_of, model_of, seen, SameBoard};
ghost use Rattle.board.specs.Tickets.{own_line, standing, Honours};
ghost use Rattle.board.specs.Calls.{BoardOpens, BoardFeeds, BoardTicks, BoardTaps, RingsLine, BoardRings, ClosesLine, BoardCloses, verdict};

use super::Board;
use crate::fault::BoardFault;
use crate::mark::Mark;
use crate::ticket::{AnyTicket, Declined, Opened, Playing, Ringing, Ticket};
use pages::supply::Supply;
use rack::{Rack, RackFault};
use samples::Kind;

impl<S: Supply, K: Kind + Drop> Board<S, K> {
    /// A board with a mark of its own and no line in use.
    pub fn new(mark: Mark, kind: K, supply: S) -> Board<S, K>
        ensures mark { mark_of result ≡ mark.number }
        ensures supply { supply_of result ≡ supply }
        ensures new { (bytes : List ℕ) → model_of result bytes ≡ new_model (S.Supply.table supply) bytes }
    {
        Board {
            rack: Rack::new(kind, supply),
            mark: mark.number,
        }
    }

    /// Opens a line of so many samples, and answers its ticket.
    pub fn open(&mut self, line: u32, length: u32) -> Result<Opened, RackFault>
        ensures same { SameBoard self.old self.new }
        ensures opens { (bytes : List ℕ) → BoardOpens (seen self.old bytes) (seen self.new bytes) line length result }
    {
        let offset = self.rack.open(line, length)?;
        Ok(Opened {
            ticket: Ticket::new(self.mark, line),
            offset,
        })
    }

    /// Feeds the ticket's line one sample.
    pub fn feed(
        &mut self,
        memory: &mut [u8],
        ticket: &Ticket<Playing>,
        sample: K::Sample,
    ) -> Result<(), BoardFault>
        ensures same { SameBoard self.old self.new }
        ensures feeds { BoardFeeds (seen self.old memory.old) (seen self.new memory.new) ticket.now sample result }
        ensures honours { Honours (seen self.old memory.old) ticket.now state.Playing result }
    {
        let line = self.own(ticket)?;
        self.rack
            .feed(memory, line, sample)
            .map_err(BoardFault::Rack)
    }

    /// Feeds the ticket's line silence.
    pub fn tick(&mut self, memory: &mut [u8], ticket: &Ticket<Ringing>) -> Result<(), BoardFault>
        ensures same { SameBoard self.old self.new }
        ensures ticks { BoardTicks (seen self.old memory.old) (seen self.new memory.new) ticket.now result }
        ensures honours { Honours (seen self.old memory.old) ticket.now state.Ringing result }
    {
        let line = self.own(ticket)?;
        self.rack.tick(memory, line).map_err(BoardFault::Rack)
    }

    /// The sample that the ticket's line was fed `d` feeds before the newest, or silence where fewer were fed.
    pub fn tap<T: AnyTicket>(
        &self,
        memory: &[u8],
        ticket: &T,
        d: u32,
    ) -> Result<K::Sample, BoardFault>
        ensures taps { BoardTaps (seen self.now memory.now) (standing (T.marked ticket.now) (T.lined ticket.now)) d result }
        ensures honours { Honours (seen self.now memory.now) (standing (T.marked ticket.now) (T.lined ticket.now)) T.stated result }
    {
        let line = self.own(ticket)?;
        self.rack.tap(memory, line, d).map_err(BoardFault::Rack)
    }

    /// Leaves the ticket's line to ring: a ringing ticket for the playing one.
    pub fn ring(
        &mut self,
        ticket: Ticket<Playing>,
    ) -> Result<Ticket<Ringing>, Declined<Ticket<Playing>>>
        ensures same { SameBoard self.old self.new }
        ensures rings { (bytes : List ℕ) → BoardRings (seen self.old bytes) (seen self.new bytes) ticket result }
        ensures honours { (bytes : List ℕ) → Honours (seen self.old bytes) ticket state.Playing (verdict result) }
    {
        // Both arms take the ticket, as two closures could not.
        match self.ring_line(&ticket) {
            Ok(()) => Ok(ticket.into_ringing()),
            Err(fault) => Err(Declined { ticket, fault }),
        }
    }

    /// Closes the ticket's line, and spends the ticket.
    pub fn close(&mut self, ticket: Ticket<Ringing>) -> Result<(), Declined<Ticket<Ringing>>>
        ensures same { SameBoard self.old self.new }
        ensures closes { (bytes : List ℕ) → BoardCloses (seen self.old bytes) (seen self.new bytes) ticket result }
        ensures honours { (bytes : List ℕ) → Honours (seen self.old bytes) ticket state.Ringing (verdict result) }
    {
        // Both arms take the ticket, as two closures could not.
        match self.close_line(&ticket) {
            Ok(()) => {
                ticket.spend();
                Ok(())
            }
            Err(fault) => Err(Declined { ticket, fault }),
        }
    }

    /// How many samples a line keeps: as many as were fed, at most its length.
    pub fn kept(&self, line: u32) -> Result<u32, RackFault>
        ensures { result ≡ kept_answer (lines_of self.now) line }
    {
        self.rack.kept(line)
    }

    /// The sum of the pages of the supply's runs out.
    pub fn pages_out(&self) -> u32
        ensures { result ≡ sum (pages_of self.now) }
    {
        self.rack.pages_out()
    }

    /// The supply, with the blocks of lines in use still out.
    pub fn into_supply(self) -> S
        ensures supply { result ≡ supply_of self }
        ensures pages { S.Supply.table result ≡ pages_of self }
    {
        let Board { rack, mark: _ } = self;
        rack.into_supply()
    }

    // The ticket's line, where the ticket is the board's own.
    fn own<T: AnyTicket>(&self, ticket: &T) -> Result<u32, BoardFault>
        ensures { result ≡ own_line (mark_of self.now) (standing (T.marked ticket.now) (T.lined ticket.now)) }
    {
        if ticket.mark() != self.mark {
            return Err(BoardFault::OtherMark(ticket.line()));
        }
        Ok(ticket.line())
    }

    // Rings the ticket's line. A refusal leaves the ticket with the caller.
    fn ring_line(&mut self, ticket: &Ticket<Playing>) -> Result<(), BoardFault>
        ensures same { SameBoard self.old self.new }
        ensures rings { (bytes : List ℕ) → RingsLine (seen self.old bytes) (seen self.new bytes) ticket.now result }
        ensures honours { (bytes : List ℕ) → Honours (seen self.old bytes) ticket.now state.Playing result }
    {
        let line = self.own(ticket)?;
        self.rack.ring(line).map_err(BoardFault::Rack)
    }

    // Closes the ticket's line. A refusal leaves the ticket with the caller. The call and the phase differ from those of
    // `ring_line`: two such bodies are plainer than one with both as arguments.
    fn close_line(&mut self, ticket: &Ticket<Ringing>) -> Result<(), BoardFault>
        ensures same { SameBoard self.old self.new }
        ensures closes { (bytes : List ℕ) → ClosesLine (seen self.old bytes) (seen self.new bytes) ticket.now result }
        ensures honours { (bytes : List ℕ) → Honours (seen self.old bytes) ticket.now state.Ringing result }
    {
        let line = self.own(ticket)?;
        self.rack.close(line).map_err(BoardFault::Rack)
    }
}
