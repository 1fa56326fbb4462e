//! The marks by which boards know their tickets.
ghost use Rattle.std.specs.Prelude.{◌≡◌};
ghost use Rattle.board.specs.Marks.{Issues};

/// The mark of one board. It is moved into the board, so no two boards have it.
#[derive(Drop)]
pub struct Mark {
    pub(crate) number: u32,
}

/// A source of marks: it hands out each number once.
#[derive(Drop)]
pub struct Marks {
    next: u32,
}

impl Marks {
    /// A source that has handed out no mark. A program has one.
    pub fn new() -> Marks
        ensures { result.next ≡ 0 }
    {
        Marks { next: 0 }
    }

    /// A mark that was not handed out before; `None` once there is none.
    pub fn next(&mut self) -> Option<Mark>
        ensures { Issues self.old result self.new }
    {
        let number = self.next;
        self.next = number.checked_add(1)?;
        Some(Mark { number })
    }
}
