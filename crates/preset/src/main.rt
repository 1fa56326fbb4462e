//! Changes presets on a board, and prints what is heard of each change.
#![tactic(auto)]

mod change;
mod show;
mod voice;

use board::{Board, Marks};
use change::change;
use classes::PAGE_BYTES;
use pages::first_fit::FirstFit;
use pages::supply::Supply;
use samples::{Mono, MonoSample};
use std::io;
use voice::Voice;

// The pages of the supply, and the bytes of the sample memory.
const SPAN: u32 = 16;

// `u32` has no `From` to `usize`, so it is cast.
const MEMORY: usize = SPAN as usize * PAGE_BYTES as usize;

// The line, the length and the sample of the old voice and of the new one, for each change: two lines; one line for both, and too long a line, which are
// refused; and a line of one sample, which has forgotten what it played once it was fed silence.
const CHANGES: [[(u32, u32, i16); 2]; 4] = [
    [(1, 4, 100), (2, 1000, -7)],
    [(1, 4, 100), (1, 4, 5)],
    [(3, 48, 20), (4, 60000, 30)],
    [(63, 1, 11), (0, 2, 12)],
];

fn mono((line, length, sample): (u32, u32, i16)) -> Voice<MonoSample> {
    Voice {
        line,
        length,
        sample: MonoSample::new(sample),
    }
}

fn main(rt: HostRuntime) -> io::Result<()> {
    let mut marks = Marks::new();
    let Some(mark) = marks.next() else {
        return Ok(());
    };
    let mut board = Board::new(mark, Mono, FirstFit::new(SPAN));
    let mut memory = [0u8; MEMORY];
    let shown = all(&rt, &mut board, &mut memory);
    let _supply = board.into_supply();
    shown
}

// Makes each change, and prints it.
fn all(rt: &HostRuntime, board: &mut Board<FirstFit, Mono>, memory: &mut [u8]) -> io::Result<()> {
    for [old, new] in CHANGES {
        let (old, new) = (mono(old), mono(new));
        println!(rt; "old voice: {old}")?;
        println!(rt; "new voice: {new}")?;
        match change(board, memory, old, new) {
            Ok(heard) => println!(rt; "{heard}")?,
            Err(fault) => println!(rt; "    refused by {}", fault.number())?,
        }
        println!(rt; "    pages out: {}", board.pages_out())?;
    }
    Ok(())
}
