//! Worked edges, derived from the contracts alone.
ghost use Rattle.std.specs.Prelude.{◌≡◌, true, [], ◌∷◌, is_ok};
ghost use Rattle.pools.specs.Edges.{Went, AllWent};

use pages::first_fit::FirstFit;
use pages::supply::Supply;
use pool::{Block, Pool, PoolFault};
use runs::Runs;

/// Over a first fit of 16 pages, blocks for 8, 10, 9 and 2,000 bytes: 9 bytes go beside 10, and 2,000 have a run of their
/// own. Then 13 pages are out.
pub fn four_sizes() -> (
    Result<Block, PoolFault>,
    Result<Block, PoolFault>,
    Result<Block, PoolFault>,
    Result<Block, PoolFault>,
    u32,
)
    ensures { Went 0 8 result.0 × Went 2048 10 result.1 × Went 2058 10 result.2 × Went 4608 2048 result.3 × (result.4 ≡ 13) }
{
    let mut pool = Pool::new(FirstFit::new(16));
    let eight = pool.take(8);
    let ten = pool.take(10);
    let nine = pool.take(9);
    let own = pool.take(2000);
    let out = pool.pages_out();
    let _supply = pool.into_supply();
    (eight, ten, nine, own, out)
}

/// Over a first fit of 16 pages, seven blocks of 896 bytes fill one run of four slots, and three of a second. Then two
/// blocks of the first come back, and the next one is of the second, which has fewer free slots.
pub fn fuller_run() -> (
    [Result<Block, PoolFault>; 8],
    Result<(), PoolFault>,
    Result<(), PoolFault>,
)
    ensures { AllWent 896 (0 ∷ 896 ∷ 1792 ∷ 2688 ∷ 3584 ∷ 4480 ∷ 5376 ∷ 6272 ∷ []) result.0 × (is_ok result.1 ≡ true) × (is_ok result.2 ≡ true) }
{
    let mut pool = Pool::new(FirstFit::new(16));
    let one = pool.take(896);
    let two = pool.take(896);
    let three = pool.take(896);
    let four = pool.take(896);
    let five = pool.take(896);
    let six = pool.take(896);
    let seven = pool.take(896);
    let back = pool.release(0);
    let more = pool.release(896);
    let next = pool.take(896);
    let _supply = pool.into_supply();
    ([one, two, three, four, five, six, seven, next], back, more)
}
