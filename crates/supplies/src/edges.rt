//! Worked edges, derived from the contracts alone.
ghost use Rattle.supplies.specs.Edges.{Went, Refused};

use buddy::Buddy;
use guard::Guard;
use pages::fault::SupplyFault;
use pages::first_fit::FirstFit;
use pages::run::Run;
use pages::supply::Supply;

/// A buddy supply of 16 pages: the reserves of 5, 3 and 4 pages are 8, 4 and 4, and then no page is left.
pub fn buddy_places() -> (
    Result<Run, SupplyFault>,
    Result<Run, SupplyFault>,
    Result<Run, SupplyFault>,
    Result<Run, SupplyFault>,
)
    ensures { Went 0 5 result.0 × Went 8 3 result.1 × Went 12 4 result.2 × Refused 12 1 result.3 }
{
    let mut supply = Buddy::new(16);
    let five = supply.take(5);
    let three = supply.take(3);
    let four = supply.take(4);
    let one = supply.take(1);
    (five, three, four, one)
}

/// A guard over a first fit of 16 pages: page 4 guards the first run, so the second begins at 5.
pub fn guard_places() -> (Result<Run, SupplyFault>, Result<Run, SupplyFault>)
    ensures { Went 0 4 result.0 × Went 5 5 result.1 }
{
    let mut supply = Guard::new(FirstFit::new(16));
    let four = supply.take(4);
    let five = supply.take(5);
    let _below = supply.into_below();
    (four, five)
}
