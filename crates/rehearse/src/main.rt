//! Rehearses one list of calls over two supplies and two kinds of sample, and prints each call with its answer.
#![tactic(auto)]

mod score;
mod show;
mod voice;

use buddy::Buddy;
use classes::PAGE_BYTES;
use guard::Guard;
use pages::first_fit::FirstFit;
use pages::supply::Supply;
use rack::Rack;
use samples::{Mono, Stereo};
use score::called;
use show::show;
use std::fmt::Display;
use std::io;
use trace::{Call, run};
use voice::Voice;

// The pages of each supply, and the bytes of the sample memory.
const SPAN: u32 = 16;

// `u32` has no `From` to `usize`, so it is cast.
const MEMORY: usize = SPAN as usize * PAGE_BYTES as usize;

// One rehearsal on a new rack.
fn rehearsed<S: Supply, V: Voice>(
    rt: &HostRuntime,
    rack: &mut Rack<S, V>,
    calls: &[Call<V::Sample>],
) -> io::Result<()>
where
    V::Sample: Display,
{
    let answers = run(rt.alloc(), rack, &mut [0; MEMORY], calls)?;
    show(rt, &answers)
}

// One over each supply.
fn rehearse<V: Voice>(rt: &HostRuntime, name: &str, voice: V) -> io::Result<()>
where
    V::Sample: Display,
{
    let calls = called(rt.alloc(), voice)?;
    println!(rt; "{name} over first fit")?;
    let mut rack = Rack::new(voice, FirstFit::new(SPAN));
    let shown = rehearsed(rt, &mut rack, &calls);
    rack.into_supply();
    shown?;
    println!(rt; "{name} over a guard page over buddy")?;
    let mut rack = Rack::new(voice, Guard::new(Buddy::new(SPAN)));
    let shown = rehearsed(rt, &mut rack, &calls);
    rack.into_supply().into_below();
    shown
}

fn main(rt: HostRuntime) -> io::Result<()> {
    rehearse(&rt, "mono", Mono)?;
    rehearse(&rt, "stereo", Stereo)
}
