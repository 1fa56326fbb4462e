//! A board: a rack that is reached by tickets alone.
use pages::supply::Supply;
use rack::Rack;
use samples::Kind;

mod calls;

/// A board owns its rack and hands it to nobody, so each line in use has one ticket, which says whether it plays or rings.
pub struct Board<S: Supply, K: Kind + Drop> {
    rack: Rack<S, K>,
    mark: u32,
}
