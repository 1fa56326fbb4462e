//! A preset change with tickets: the new voice plays before the old one has died away.
ghost use Rattle.std.specs.Prelude.{◌≡◌};
ghost use Rattle.rack.specs.declared.state.State.TheVariants as state;
ghost use Rattle.board.specs.Views.{mark_of, model_of, seen, SameBoard};
ghost use Rattle.board.specs.Tickets.{Valid};
ghost use Rattle.preset.specs.Change.{Changes};
ghost use Rattle.preset.specs.Steps.{EntersOr, Leaves};

use crate::voice::{Heard, Voice};
use board::{Board, BoardFault, Opened, Playing, Ticket};
use pages::supply::Supply;
use rack::RackFault;
use samples::Kind;

// A voice that plays: its ticket, and what its first tap heard.
struct Entered<X> {
    ticket: Ticket<Playing>,
    heard: Result<X, BoardFault>,
}

// Opens the line of a voice, feeds it, and taps what it plays.
fn enter<S: Supply, K: Kind + Drop>(
    board: &mut Board<S, K>,
    memory: &mut [u8],
    voice: Voice<K::Sample>,
) -> Result<Entered<K::Sample>, RackFault>
    ensures same { SameBoard board.old board.new }
    ensures enters { EntersOr (seen board.old memory.old) (seen board.new memory.new) voice result }
{
    let Opened { ticket, offset: _ } = board.open(voice.line, voice.length)?;
    let _ = board.feed(memory, &ticket, voice.sample);
    let heard = board.tap(memory, &ticket, 0);
    Ok(Entered { ticket, heard })
}

// Lets the line of a ticket ring for one tick, taps what it played before that, and closes it. A valid ticket is rung and closed.
fn leave<S: Supply, K: Kind + Drop>(
    board: &mut Board<S, K>,
    memory: &mut [u8],
    ticket: Ticket<Playing>,
) -> Result<K::Sample, BoardFault>
    requires own { ticket.mark ≡ mark_of board.old }
    requires valid { Valid (model_of board.old memory.old) ticket.line state.Playing }
    ensures same { SameBoard board.old board.new }
    ensures leaves { Leaves (seen board.old memory.old) (seen board.new memory.new) ticket.line result }
{
    let ticket = board.ring(ticket).unwrap();
    let _ = board.tick(memory, &ticket);
    let heard = board.tap(memory, &ticket, 1);
    board.close(ticket).unwrap();
    heard
}

/// Changes a preset: the old voice plays, the new one enters beside it, the old one leaves, and then the new one. No line that it opens stays open.
pub fn change<S: Supply, K: Kind + Drop>(
    board: &mut Board<S, K>,
    memory: &mut [u8],
    old: Voice<K::Sample>,
    new: Voice<K::Sample>,
) -> Result<Heard<K::Sample>, RackFault>
    ensures { Changes (seen board.old memory.old) (seen board.new memory.new) old new result }
{
    let Entered { ticket, heard: old } = enter(board, memory, old)?;
    let second = enter(board, memory, new);
    let rung = leave(board, memory, ticket);
    let Entered { ticket, heard: new } = second?;
    let _ = leave(board, memory, ticket);
    Ok(Heard { old, new, rung })
}
