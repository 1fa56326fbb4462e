//! Reads request lengths in bytes, one a line, and prints how each is held and what rounding loses, then the totals.
#![tactic(auto)]

mod held;
mod totals;

ghost use Rattle.layout.specs.Lengths.{Length};

use classes::LONGEST_REQUEST;
use held::Held;
use std::io;
use std::io::{BufRead, BufReader, BufWriter, Write};
use std::str::from_utf8;
use totals::Totals;

// The length that a text writes, if it writes one.
fn length(text: &[u8]) -> Option<u32>
    ensures { Length text.now result }
{
    from_utf8(text).ok()?.parse().ok()
}

// Answers one line of input.
fn answer<W: Write>(out: &mut W, totals: &mut Totals, number: u64, line: &[u8]) -> io::Result<()> {
    let Some(bytes) = length(line.trim_ascii_end()) else {
        totals.refuse();
        return writeln!(out, "line {number}: refused, not a length in bytes");
    };
    match Held::of_request(bytes) {
        Some(held) => {
            totals.hold(bytes, held.size());
            writeln!(out, "{bytes} bytes: {held}")
        }
        None => {
            totals.refuse();
            writeln!(
                out,
                "{bytes} bytes: refused, a request has 1 to {LONGEST_REQUEST} bytes"
            )
        }
    }
}

fn main(rt: HostRuntime) -> io::Result<()> {
    let mut input = BufReader::new(rt.alloc(), rt.stdin())?;
    let mut out = BufWriter::new(rt.alloc(), rt.stdout())?;
    let mut totals = Totals::new();
    // One buffer for all lines: `split` would take memory for each.
    let mut line = Vec::new(rt.alloc());
    for number in 1.. {
        line.clear();
        if input.read_until(b'\n', &mut line)? == 0 {
            break;
        }
        answer(&mut out, &mut totals, number, line.as_slice())?;
    }
    writeln!(out, "{totals}")?;
    out.flush()
}
