//! The records of the 64 lines, and the pool that their blocks are from.
ghost use Rattle.std.specs.Prelude.{◌≡◌, length};
ghost use Rattle.rack.specs.Limits.{line_count};

use crate::LINES;
use crate::line::Line;
use pages::supply::Supply;
use pool::Pool;

mod edits;

pub(crate) struct Inner<S: Supply> {
    pub(crate) lines: [Line; LINES],
    pub(crate) pool: Pool<S>,
    ghost many: { length lines ≡ line_count },
}
