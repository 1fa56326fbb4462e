//! Whole lists of calls.
ghost use Rattle.std.specs.Prelude.{◌≡◌, MatchResult};
ghost use Rattle.pages.specs.Rule.{SameRule};
ghost use Rattle.rack.specs.Views.{model_of, rule_of, coding_of};
ghost use Rattle.trace.specs.Law.{Lawful};

use crate::call::{Answered, Call};
use crate::dispatch::perform;
use pages::supply::Supply;
use rack::Rack;
use samples::Kind;
use std::alloc::{AllocError, Global};

/// Makes all calls of a list, first to last. Where there is no memory for the answers, none is made.
pub fn run<S: Supply, K: Kind + Drop>(
    heap: Global,
    rack: &mut Rack<S, K>,
    memory: &mut [u8],
    calls: &[Call<K::Sample>],
) -> Result<Vec<Answered<K::Sample>>, AllocError>
    ensures rule_kept { SameRule (rule_of rack.old) (rule_of rack.new) }
    ensures lawful { MatchResult result (λ answers. Lawful (rule_of rack.old) (coding_of rack.old) (model_of rack.old memory.old) calls.now answers.items (model_of rack.new memory.new)) (λ _. model_of rack.new memory.new ≡ model_of rack.old memory.old) }
{
    // Room for every answer first: a loop that collected them could stop with some calls made.
    let mut answers = Vec::with_capacity(heap, calls.len())?;
    for call in calls {
        let answer = perform(rack, memory, *call);
        answers.push_reserved(answer);
    }
    Ok(answers)
}
