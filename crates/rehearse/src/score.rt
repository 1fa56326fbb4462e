//! The list of calls, with numbers for samples.
use crate::voice::Voice;
use std::alloc::{AllocError, Global};
use trace::Call;

/// Two lines of a preset: one wraps, both ring out, one is opened again; and calls that are declined.
pub const SCORE: [Call<i16>; 24] = [
    Call::Open { line: 1, length: 3 },
    Call::Open {
        line: 2,
        length: 1000,
    },
    Call::Open { line: 1, length: 3 },
    Call::Feed {
        line: 1,
        sample: 10,
    },
    Call::Feed {
        line: 1,
        sample: 20,
    },
    Call::Tap { line: 1, d: 2 },
    Call::Feed {
        line: 1,
        sample: 30,
    },
    Call::Feed {
        line: 1,
        sample: 40,
    },
    Call::Feed {
        line: 2,
        sample: -7,
    },
    Call::Tap { line: 1, d: 0 },
    Call::Tap { line: 1, d: 2 },
    Call::Tap { line: 1, d: 3 },
    Call::Tap { line: 2, d: 0 },
    Call::Tick { line: 1 },
    Call::Ring { line: 1 },
    Call::Feed {
        line: 1,
        sample: 50,
    },
    Call::Tick { line: 1 },
    Call::Tap { line: 1, d: 0 },
    Call::Tap { line: 1, d: 1 },
    Call::Close { line: 2 },
    Call::Close { line: 1 },
    Call::Tap { line: 1, d: 0 },
    Call::Open { line: 1, length: 3 },
    Call::Open {
        line: 64,
        length: 5000,
    },
];

/// The calls with samples of a voice.
pub fn called<V: Voice>(heap: Global, voice: V) -> Result<Vec<Call<V::Sample>>, AllocError> {
    SCORE.iter().map(|call| voiced(voice, *call)).collect(heap)
}

// One match here: a `map` over the samples of `trace`'s `Call` would be a public function with a precondition, what it asks
// of its closure.
fn voiced<V: Voice>(voice: V, call: Call<i16>) -> Call<V::Sample> {
    match call {
        Call::Open { line, length } => Call::Open { line, length },
        Call::Feed { line, sample } => Call::Feed {
            line,
            sample: voice.sample(sample),
        },
        Call::Tick { line } => Call::Tick { line },
        Call::Tap { line, d } => Call::Tap { line, d },
        Call::Ring { line } => Call::Ring { line },
        Call::Close { line } => Call::Close { line },
    }
}
