//! Every refusal in its order, what lines keep, and what samples and calls as values are.
mod table;
mod voice;

use buddy::Buddy;
use guard::Guard;
use pages::first_fit::FirstFit;
use rack::Rack;
use samples::{Kind, Mono, MonoSample, Stereo, StereoSample};
use std::process::Abort;
use table::{Call, Outcome, Row, Said, ask, refuses, says, wrong};
use trace::{Answer, Answered, perform};
use voice::Voice;

// The bytes of a memory for 16 pages.
const MEMORY: usize = 16 * 512;

// What a memory holds before a rack writes to it.
const NOISE: u8 = 170;

// The first wrong row over a first fit of 16 pages and a whole memory.
fn wrong_alone<V: Voice>(voice: V, rows: &[Row]) -> Option<usize> {
    let mut rack = Rack::new(voice, FirstFit::new(16));
    let wrong = wrong(&mut rack, voice, &mut [NOISE; MEMORY], rows);
    rack.into_supply();
    wrong
}

// The same over a guard page over a buddy of 16 pages.
fn wrong_guarded<V: Voice>(voice: V, rows: &[Row]) -> Option<usize> {
    let mut rack = Rack::new(voice, Guard::new(Buddy::new(16)));
    let wrong = wrong(&mut rack, voice, &mut [NOISE; MEMORY], rows);
    rack.into_supply().into_below();
    wrong
}

#[test]
fn opens_are_refused_in_order(rt: HostRuntime) {
    let rows = [
        refuses(Call::Open(64, 0), 31),
        refuses(Call::Open(u32::MAX, 65281), 31),
        refuses(Call::Open(1, 0), 32),
        refuses(Call::Open(1, 65281), 33),
        refuses(Call::Open(1, u32::MAX), 33),
        refuses(Call::Open(1, 65280), 11),
        says(Call::Out, Said::Count(0)),
        says(Call::Open(1, 3), Said::At(0)),
        refuses(Call::Open(1, 0), 32),
        refuses(Call::Open(1, 65281), 33),
        refuses(Call::Open(1, 65280), 34),
        refuses(Call::Open(1, 3), 34),
        says(Call::Open(63, 3072), Said::At(2048)),
        refuses(Call::Open(2, 5), 12),
        refuses(Call::Kept(2), 35),
        says(Call::Open(2, 4), Said::At(8)),
        says(Call::Out, Said::Count(16)),
        says(Call::Ring(1), Said::Done),
        refuses(Call::Open(1, 3), 34),
    ];
    assert_eq!(rt; wrong_alone(Mono, &rows), None);
    let rows = [
        refuses(Call::Open(0, 32641), 33),
        refuses(Call::Open(0, 32640), 11),
        refuses(Call::Open(0, 2049), 11),
        says(Call::Open(0, 2048), Said::At(0)),
        says(Call::Out, Said::Count(16)),
    ];
    assert_eq!(rt; wrong_alone(Stereo, &rows), None);
}

#[test]
fn lines_are_refused_in_order(rt: HostRuntime) {
    let rows = [
        refuses(Call::Feed(64, 5), 31),
        refuses(Call::Tick(64), 31),
        refuses(Call::Tap(64, 9), 31),
        refuses(Call::Ring(64), 31),
        refuses(Call::Close(64), 31),
        refuses(Call::Kept(64), 31),
        refuses(Call::Feed(1, 5), 35),
        refuses(Call::Tick(1), 35),
        refuses(Call::Tap(1, 9), 35),
        refuses(Call::Ring(1), 35),
        refuses(Call::Close(1), 35),
        refuses(Call::Kept(1), 35),
        says(Call::Open(1, 3), Said::At(0)),
        says(Call::Feed(1, 5), Said::Done),
        refuses(Call::Tick(1), 37),
        refuses(Call::Close(1), 37),
        refuses(Call::Tap(1, 3), 38),
        refuses(Call::Tap(1, u32::MAX), 38),
        refuses(Call::Feed(2, 5), 35),
        says(Call::Ring(1), Said::Done),
        refuses(Call::Feed(1, 6), 36),
        refuses(Call::Ring(1), 36),
        refuses(Call::Tap(1, 3), 38),
        says(Call::Kept(1), Said::Count(1)),
        says(Call::Tap(1, 0), Said::Heard(5)),
        says(Call::Tick(1), Said::Done),
        says(Call::Kept(1), Said::Count(2)),
        says(Call::Tap(1, 1), Said::Heard(5)),
        says(Call::Close(1), Said::Done),
        refuses(Call::Tick(1), 35),
        refuses(Call::Close(1), 35),
    ];
    assert_eq!(rt; wrong_alone(Mono, &rows), None);
    assert_eq!(rt; wrong_alone(Stereo, &rows), None);
}

// Calls over a memory of another length than the span's, which is left as it was.
fn refuses_memory(rt: &impl Abort, memory: &mut [u8]) {
    let rows = [
        refuses(Call::Feed(64, 5), 31),
        refuses(Call::Feed(1, 5), 35),
        refuses(Call::Tick(1), 35),
        refuses(Call::Tap(1, 9), 35),
        says(Call::Open(1, 3), Said::At(0)),
        refuses(Call::Feed(1, 5), 39),
        refuses(Call::Tick(1), 37),
        refuses(Call::Tap(1, 3), 38),
        refuses(Call::Tap(1, 2), 39),
        says(Call::Ring(1), Said::Done),
        refuses(Call::Feed(1, 5), 36),
        refuses(Call::Tick(1), 39),
        refuses(Call::Tap(1, 3), 38),
        refuses(Call::Tap(1, 0), 39),
        says(Call::Kept(1), Said::Count(0)),
        says(Call::Close(1), Said::Done),
        says(Call::Out, Said::Count(0)),
    ];
    let mut rack = Rack::new(Mono, FirstFit::new(16));
    let wrong = wrong(&mut rack, Mono, memory, &rows);
    rack.into_supply();
    assert_eq!(rt; wrong, None);
    assert!(rt; memory.iter().all(|byte| *byte == NOISE));
}

#[test]
fn other_memories_are_refused(rt: HostRuntime) {
    refuses_memory(&rt, &mut []);
    refuses_memory(&rt, &mut [NOISE; 8191]);
    refuses_memory(&rt, &mut [NOISE; 8193]);
}

#[test]
fn lines_wrap(rt: HostRuntime) {
    let three = [
        says(Call::Open(1, 3), Said::At(0)),
        says(Call::Kept(1), Said::Count(0)),
        says(Call::Tap(1, 0), Said::Heard(0)),
        says(Call::Feed(1, 10), Said::Done),
        says(Call::Kept(1), Said::Count(1)),
        says(Call::Tap(1, 0), Said::Heard(10)),
        says(Call::Tap(1, 1), Said::Heard(0)),
        says(Call::Tap(1, 2), Said::Heard(0)),
        says(Call::Feed(1, 20), Said::Done),
        says(Call::Feed(1, 30), Said::Done),
        says(Call::Kept(1), Said::Count(3)),
        says(Call::Tap(1, 2), Said::Heard(10)),
        says(Call::Feed(1, 40), Said::Done),
        says(Call::Kept(1), Said::Count(3)),
        says(Call::Tap(1, 0), Said::Heard(40)),
        says(Call::Tap(1, 1), Said::Heard(30)),
        says(Call::Tap(1, 2), Said::Heard(20)),
        says(Call::Feed(1, 50), Said::Done),
        says(Call::Feed(1, 60), Said::Done),
        says(Call::Feed(1, 70), Said::Done),
        says(Call::Tap(1, 2), Said::Heard(50)),
        says(Call::Ring(1), Said::Done),
        says(Call::Tick(1), Said::Done),
        says(Call::Tap(1, 0), Said::Heard(0)),
        says(Call::Tap(1, 1), Said::Heard(70)),
        says(Call::Tap(1, 2), Said::Heard(60)),
        says(Call::Kept(1), Said::Count(3)),
    ];
    assert_eq!(rt; wrong_alone(Mono, &three), None);
    assert_eq!(rt; wrong_alone(Stereo, &three), None);
    let one = [
        says(Call::Open(63, 1), Said::At(0)),
        says(Call::Tap(63, 0), Said::Heard(0)),
        says(Call::Feed(63, 10), Said::Done),
        says(Call::Tap(63, 0), Said::Heard(10)),
        says(Call::Feed(63, -20), Said::Done),
        says(Call::Tap(63, 0), Said::Heard(-20)),
        says(Call::Kept(63), Said::Count(1)),
        refuses(Call::Tap(63, 1), 38),
        says(Call::Ring(63), Said::Done),
        says(Call::Tap(63, 0), Said::Heard(-20)),
        says(Call::Tick(63), Said::Done),
        says(Call::Tap(63, 0), Said::Heard(0)),
        says(Call::Kept(63), Said::Count(1)),
    ];
    assert_eq!(rt; wrong_alone(Mono, &one), None);
    assert_eq!(rt; wrong_alone(Stereo, &one), None);
}

#[test]
fn lines_opened_again_are_silent(rt: HostRuntime) {
    let rows = [
        says(Call::Open(1, 3), Said::At(0)),
        says(Call::Feed(1, 10), Said::Done),
        says(Call::Feed(1, 20), Said::Done),
        says(Call::Feed(1, 30), Said::Done),
        says(Call::Feed(1, 40), Said::Done),
        says(Call::Ring(1), Said::Done),
        says(Call::Close(1), Said::Done),
        says(Call::Out, Said::Count(0)),
        says(Call::Open(1, 3), Said::At(0)),
        says(Call::Kept(1), Said::Count(0)),
        says(Call::Tap(1, 0), Said::Heard(0)),
        says(Call::Tap(1, 2), Said::Heard(0)),
        says(Call::Feed(1, 50), Said::Done),
        says(Call::Tap(1, 0), Said::Heard(50)),
        says(Call::Tap(1, 1), Said::Heard(0)),
        says(Call::Ring(1), Said::Done),
        says(Call::Close(1), Said::Done),
        says(Call::Open(2, 2), Said::At(0)),
        says(Call::Tap(2, 0), Said::Heard(0)),
        says(Call::Tap(2, 1), Said::Heard(0)),
    ];
    assert_eq!(rt; wrong_alone(Mono, &rows), None);
    assert_eq!(rt; wrong_alone(Stereo, &rows), None);
    assert_eq!(rt; wrong_guarded(Mono, &rows), None);
    assert_eq!(rt; wrong_guarded(Stereo, &rows), None);
}

// All lines at once, of 1 to 16 samples, each fed 17 samples in turn with the others: whether every line heard its own
// samples alone and was closed, the pages out before the closes, and those out after.
fn all_lines<V: Voice>(voice: V, memory: &mut [u8]) -> (bool, u32, u32) {
    let mut rack = Rack::new(voice, FirstFit::new(64));
    let opened = (0..64u8).all(|line| {
        let length = 1 + line % 16;
        rack.open(u32::from(line), u32::from(length)).is_ok()
    });
    let fed = (0..17u8).all(|round| {
        (0..64u8).all(|line| {
            let value = 100 * i16::from(line) + i16::from(round);
            let call = Call::Feed(u32::from(line), value);
            ask(&mut rack, voice, memory, call) == Ok(Said::Done)
        })
    });
    let heard = (0..64u8).all(|line| {
        (0..1 + line % 16).all(|d| {
            let own = Said::Heard(100 * i16::from(line) + 16 - i16::from(d));
            let call = Call::Tap(u32::from(line), u32::from(d));
            ask(&mut rack, voice, memory, call) == Ok(own)
        })
    });
    let out = rack.pages_out();
    let closed = (0..64).all(|line| rack.ring(line).is_ok() && rack.close(line).is_ok());
    let left = rack.pages_out();
    rack.into_supply();
    (opened && fed && heard && closed, out, left)
}

#[test]
fn all_lines_sound_apart(rt: HostRuntime) {
    let mut memory = [NOISE; 64 * 512];
    assert_eq!(rt; all_lines(Mono, &mut memory), (true, 48, 0));
    assert_eq!(rt; all_lines(Stereo, &mut memory), (true, 58, 0));
}

#[test]
fn mono_samples_stand_low_byte_first(rt: HostRuntime) {
    let samples: [(i16, [u8; 2]); 5] = [
        (-32768, [0, 128]),
        (-1, [255, 255]),
        (0, [0, 0]),
        (258, [2, 1]),
        (32767, [255, 127]),
    ];
    for (value, coded) in samples {
        let mut bytes = [NOISE; 2];
        Mono.code(MonoSample::new(value), &mut bytes);
        assert_eq!(rt; bytes, coded);
        assert_eq!(rt; Mono.read(&bytes).value(), value);
    }
    let mut three = [NOISE; 3];
    Mono.code(MonoSample::new(258), &mut three);
    assert_eq!(rt; three, [NOISE; 3]);
    assert_eq!(rt; Mono.read(&three).value(), 0);
    assert_eq!(rt; Mono.read(&[]).value(), 0);
}

#[test]
fn stereo_samples_stand_left_first(rt: HostRuntime) {
    let sample = StereoSample {
        left: MonoSample::new(-32768),
        right: MonoSample::new(258),
    };
    let mut bytes = [NOISE; 4];
    Stereo.code(sample, &mut bytes);
    assert_eq!(rt; bytes, [0, 128, 2, 1]);
    let heard = Stereo.read(&bytes);
    assert_eq!(rt; (heard.left.value(), heard.right.value()), (-32768, 258));
    let mut two = [NOISE; 2];
    Stereo.code(sample, &mut two);
    assert_eq!(rt; two, [NOISE; 2]);
    let silence = Stereo.read(&two);
    assert_eq!(rt; (silence.left.value(), silence.right.value()), (0, 0));
}

// What an answer of a call as a value says.
fn answered(answer: Answered<MonoSample>) -> Outcome {
    let said = answer.map(|granted| match granted {
        Answer::Opened { offset } => Said::At(offset),
        Answer::Done => Said::Done,
        Answer::Heard { sample } => Mono.told(sample),
    });
    said.map_err(|fault| fault.number())
}

#[test]
fn calls_are_performed(rt: HostRuntime) {
    let sample = MonoSample::new(-7);
    let rows = [
        (trace::Call::Open { line: 1, length: 2 }, Ok(Said::At(0))),
        (trace::Call::Open { line: 2, length: 4 }, Ok(Said::At(8))),
        (trace::Call::Open { line: 1, length: 2 }, Err(34)),
        (trace::Call::Feed { line: 2, sample }, Ok(Said::Done)),
        (trace::Call::Tap { line: 2, d: 0 }, Ok(Said::Heard(-7))),
        (trace::Call::Tap { line: 1, d: 0 }, Ok(Said::Heard(0))),
        (trace::Call::Tap { line: 1, d: 2 }, Err(38)),
        (trace::Call::Tick { line: 2 }, Err(37)),
        (trace::Call::Ring { line: 2 }, Ok(Said::Done)),
        (trace::Call::Feed { line: 2, sample }, Err(36)),
        (trace::Call::Tick { line: 2 }, Ok(Said::Done)),
        (trace::Call::Tap { line: 2, d: 1 }, Ok(Said::Heard(-7))),
        (trace::Call::Close { line: 2 }, Ok(Said::Done)),
        (trace::Call::Close { line: 2 }, Err(35)),
    ];
    let mut rack = Rack::new(Mono, FirstFit::new(16));
    let mut memory = [NOISE; MEMORY];
    let wrong = rows.iter().position(|(call, reply)| {
        let answer = perform(&mut rack, &mut memory, *call);
        answered(answer) != *reply
    });
    rack.into_supply();
    assert_eq!(rt; wrong, None);
}
