//! Any call of a rack, as a value.
ghost use Rattle.pages.specs.Rule.{SameRule};
ghost use Rattle.rack.specs.Views.{model_of, rule_of, coding_of};
ghost use Rattle.trace.specs.Steps.{Step};
ghost use Rattle.trace.specs.Law.{KeepsLaw};

use crate::call::{Answer, Answered, Call};
use pages::supply::Supply;
use rack::Rack;
use samples::Kind;

/// Makes a call of a rack. Whatever calls led to this one from a new rack, the law over whole runs holds after it.
pub fn perform<S: Supply, K: Kind + Drop>(
    rack: &mut Rack<S, K>,
    memory: &mut [u8],
    call: Call<K::Sample>,
) -> Answered<K::Sample>
    ensures rule_kept { SameRule (rule_of rack.old) (rule_of rack.new) }
    ensures step { Step (rule_of rack.old) (coding_of rack.old) (model_of rack.old memory.old) call result (model_of rack.new memory.new) }
    ensures law { KeepsLaw (rule_of rack.old) (coding_of rack.old) (model_of rack.old memory.old) call result (model_of rack.new memory.new) }
{
    dispatched(rack, memory, call)
}

// The law follows from the step of any call, so `perform` cites it once, and not at each arm.
fn dispatched<S: Supply, K: Kind + Drop>(
    rack: &mut Rack<S, K>,
    memory: &mut [u8],
    call: Call<K::Sample>,
) -> Answered<K::Sample>
    ensures rule_kept { SameRule (rule_of rack.old) (rule_of rack.new) }
    ensures step { Step (rule_of rack.old) (coding_of rack.old) (model_of rack.old memory.old) call result (model_of rack.new memory.new) }
{
    match call {
        Call::Open { line, length } => rack
            .open(line, length)
            .map(|offset| Answer::Opened { offset }),
        Call::Feed { line, sample } => rack.feed(memory, line, sample).map(|()| Answer::Done),
        Call::Tick { line } => rack.tick(memory, line).map(|()| Answer::Done),
        Call::Tap { line, d } => rack
            .tap(memory, line, d)
            .map(|sample| Answer::Heard { sample }),
        Call::Ring { line } => rack.ring(line).map(|()| Answer::Done),
        Call::Close { line } => rack.close(line).map(|()| Answer::Done),
    }
}
