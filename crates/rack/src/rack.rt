//! A rack of delay lines over any supply and any kind of sample.
ghost use Rattle.rack.specs.Holds.{Placed, Short, LentFrom, OffsetsDiffer};

use crate::inner::Inner;
use pages::supply::Supply;
use samples::Kind;

mod calls;

/// A rack: the blocks of its lines in use are on loan from its pool, and no two lines have one block.
pub struct Rack<S: Supply, K: Kind + Drop> {
    kind: K,
    inner: Inner<S>,
    ghost placed: { Placed inner.lines },
    ghost short: { Short K.wide inner.lines },
    ghost lent: { LentFrom inner.pool.runs.table K.wide inner.lines },
    ghost differ: { OffsetsDiffer inner.lines },
}
