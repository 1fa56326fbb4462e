//! A board: one rack behind tickets, so that the compiler refuses what the rack would have to refuse while it plays.
#![tactic(auto)]

mod board;
mod fault;
mod mark;
mod ticket;

pub use board::Board;
pub use fault::BoardFault;
pub use mark::{Mark, Marks};
pub use ticket::{AnyTicket, Declined, Opened, Phase, Playing, Ringing, Ticket};
