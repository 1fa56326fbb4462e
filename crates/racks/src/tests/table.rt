//! Tables of calls of a rack and their answers. Calls are values, since a row holds one; each layer has a table of its own, as
//! other things are asked and told there.
use super::voice::Voice;
use pages::supply::Supply;
use rack::Rack;

// A call by its line, and then a length, a number to play or how far back a tap is.
#[derive(Clone, Copy)]
pub(super) enum Call {
    Open(u32, u32),
    Feed(u32, i16),
    Tick(u32),
    Tap(u32, u32),
    Ring(u32),
    Close(u32),
    Kept(u32),
    Out,
}

#[derive(Clone, Copy, PartialEq, Eq)]
pub(super) enum Said {
    At(u32),
    Done,
    Heard(i16),
    // two channels that were not fed together
    Torn,
    Count(u32),
}

// What a call says, or the number of its refusal.
pub(super) type Outcome = Result<Said, u32>;

#[derive(Clone, Copy)]
pub(super) struct Row {
    call: Call,
    reply: Outcome,
}

pub(super) fn says(call: Call, said: Said) -> Row {
    Row {
        call,
        reply: Ok(said),
    }
}

pub(super) fn refuses(call: Call, number: u32) -> Row {
    Row {
        call,
        reply: Err(number),
    }
}

pub(super) fn ask<S: Supply, V: Voice>(
    rack: &mut Rack<S, V>,
    voice: V,
    memory: &mut [u8],
    call: Call,
) -> Outcome {
    let said = match call {
        Call::Open(line, length) => rack.open(line, length).map(Said::At),
        Call::Feed(line, value) => rack
            .feed(memory, line, voice.sample(value))
            .map(|()| Said::Done),
        Call::Tick(line) => rack.tick(memory, line).map(|()| Said::Done),
        Call::Tap(line, d) => rack.tap(memory, line, d).map(|sample| voice.told(sample)),
        Call::Ring(line) => rack.ring(line).map(|()| Said::Done),
        Call::Close(line) => rack.close(line).map(|()| Said::Done),
        Call::Kept(line) => rack.kept(line).map(Said::Count),
        Call::Out => Ok(Said::Count(rack.pages_out())),
    };
    said.map_err(|fault| fault.number())
}

// The first row that a rack answers otherwise.
pub(super) fn wrong<S: Supply, V: Voice>(
    rack: &mut Rack<S, V>,
    voice: V,
    memory: &mut [u8],
    rows: &[Row],
) -> Option<usize> {
    rows.iter()
        .position(|row| ask(rack, voice, memory, row.call) != row.reply)
}
