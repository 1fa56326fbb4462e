//! A client of any supply.
ghost use Rattle.pages.specs.Rule.{SameRule};
ghost use Rattle.supplies.specs.Again.{Again};

use pages::fault::SupplyFault;
use pages::run::Run;
use pages::supply::Supply;

/// Gives a run and takes its count at once. A run given is always granted again, so the one refusal is that the run
/// was not out.
pub fn take_again<S: Supply>(supply: &mut S, first: u32, count: u32) -> Result<Run, SupplyFault>
    ensures rule_kept { SameRule (S.Supply.rule supply.old) (S.Supply.rule supply.new) }
    ensures again { Again (S.Supply.rule supply.old) first count (S.Supply.table supply.old) (S.Supply.table supply.new) result }
{
    supply.give(first, count)?;
    supply.take(count)
}
