//! Which call a line grants in which state, and the state that it goes to.
ghost use Rattle.std.specs.Prelude.{◌≡◌};
ghost use Rattle.rack.specs.Turns.{turned};

use crate::fault::RackFault;
use crate::state::{State, Verb};

/// The state that a call moves a line to, or why it is refused. One match, so that the whole table is read at one place.
pub fn turn(state: State, verb: Verb, line: u32) -> Result<State, RackFault>
    ensures { result ≡ turned state verb line }
{
    match (state, verb) {
        (State::Unused, Verb::Open) => Ok(State::Playing),
        (State::Unused, _) => Err(RackFault::NotInUse(line)),
        (_, Verb::Open) => Err(RackFault::InUse(line)),
        (State::Playing, Verb::Feed | Verb::Tap | Verb::Kept) => Ok(State::Playing),
        (State::Playing, Verb::Ring) => Ok(State::Ringing),
        (State::Playing, Verb::Tick | Verb::Close) => Err(RackFault::IsPlaying(line)),
        (State::Ringing, Verb::Tick | Verb::Tap | Verb::Kept) => Ok(State::Ringing),
        (State::Ringing, Verb::Close) => Ok(State::Unused),
        (State::Ringing, Verb::Feed | Verb::Ring) => Err(RackFault::IsRinging(line)),
    }
}
