//! The voices of a preset.
use board::BoardFault;

/// A voice: a line, its length in samples, and the sample that it plays.
#[derive(Clone, Copy)]
pub struct Voice<X> {
    pub line: u32,
    pub length: u32,
    pub sample: X,
}

/// What is heard of a preset change: the old voice and the new one as they enter, and the old one once it rings.
#[derive(Drop)]
pub struct Heard<X> {
    pub old: Result<X, BoardFault>,
    pub new: Result<X, BoardFault>,
    pub rung: Result<X, BoardFault>,
}
