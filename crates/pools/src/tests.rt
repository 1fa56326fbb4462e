//! Every refusal and the worked edges, over each supply and a layer, as tables of calls and their answers.
use crate::client::take_again;
use buddy::Buddy;
use guard::Guard;
use pages::first_fit::FirstFit;
use pages::supply::Supply;
use pool::{Block, Pool, PoolFault};
use runs::Runs;

// Calls are values, since a row holds one. Each layer has a table of its own, as other things are asked and told there.
#[derive(Clone, Copy)]
enum Call {
    Span,
    Out,
    Take(u32),
    Release(u32),
    // An offset, and then the bytes.
    Again(u32, u32),
}

// What a call answers: two numbers (an offset and a size, or the number asked and 0), or a refusal by its number and its
// places.
type Answer<'a> = Result<(u32, u32), (u32, &'a [u32])>;

// A call with its answer.
#[derive(Clone, Copy)]
struct Row<'a> {
    call: Call,
    answer: Answer<'a>,
}

fn says<'a>(call: Call, first: u32, second: u32) -> Row<'a> {
    Row {
        call,
        answer: Ok((first, second)),
    }
}

fn refuses(call: Call, number: u32, places: &[u32]) -> Row<'_> {
    Row {
        call,
        answer: Err((number, places)),
    }
}

// Whether the answer is the wanted one.
fn is_wanted(answer: Result<(u32, u32), PoolFault>, wanted: Answer<'_>) -> bool {
    match (answer, wanted) {
        (Ok(told), Ok(wanted)) => told == wanted,
        (Err(fault), Err((number, places))) => {
            fault.number() == number && fault.places().as_slice() == places
        }
        _ => false,
    }
}

fn placed(answer: Result<Block, PoolFault>) -> Result<(u32, u32), PoolFault> {
    answer.map(|block| (block.offset, block.size))
}

fn ask<S: Supply>(pool: &mut Pool<S>, call: Call) -> Result<(u32, u32), PoolFault> {
    match call {
        Call::Span => Ok((pool.span(), 0)),
        Call::Out => Ok((pool.pages_out(), 0)),
        Call::Take(bytes) => placed(pool.take(bytes)),
        Call::Release(offset) => pool.release(offset).map(|()| (0, 0)),
        Call::Again(offset, bytes) => placed(take_again(pool, offset, bytes)),
    }
}

// The first row that has another answer.
fn wrong<S: Supply>(supply: S, rows: &[Row<'_>]) -> (S, Option<usize>) {
    let mut pool = Pool::new(supply);
    let wrong = rows
        .iter()
        .position(|row| !is_wanted(ask(&mut pool, row.call), row.answer));
    (pool.into_supply(), wrong)
}

#[test]
fn classes_and_refusals(rt: HostRuntime) {
    let (_supply, wrong) = wrong(
        FirstFit::new(16),
        &[
            says(Call::Span, 16, 0),
            refuses(Call::Take(0), 21, &[0]),
            refuses(Call::Take(130561), 22, &[130561]),
            refuses(Call::Take(130560), 11, &[255, 130560]),
            says(Call::Take(8), 0, 8),
            says(Call::Take(10), 2048, 10),
            says(Call::Take(9), 2058, 10),
            says(Call::Take(2000), 4608, 2048),
            says(Call::Out, 13, 0),
            refuses(Call::Take(14), 12, &[7, 14]),
            refuses(Call::Release(2053), 26, &[2053]),
            refuses(Call::Release(8192), 24, &[8192]),
            refuses(Call::Release(8191), 25, &[8191]),
            refuses(Call::Release(6656), 25, &[6656]),
            refuses(Call::Release(8), 27, &[8]),
            refuses(Call::Release(4609), 26, &[4609]),
            says(Call::Release(2048), 0, 0),
            refuses(Call::Release(2048), 27, &[2048]),
            says(Call::Release(2058), 0, 0),
            refuses(Call::Release(2058), 25, &[2058]),
            says(Call::Out, 8, 0),
            says(Call::Take(20), 2048, 20),
            says(Call::Again(4608, 1793), 4608, 2048),
            says(Call::Again(4608, 2049), 4608, 2560),
            refuses(Call::Again(4608, 4096), 12, &[8, 4096]),
            says(Call::Out, 9, 0),
        ],
    );
    assert_eq!(rt; wrong, None);
}

#[test]
fn fullest_run(rt: HostRuntime) {
    let (_supply, wrong) = wrong(
        FirstFit::new(16),
        &[
            says(Call::Take(896), 0, 896),
            says(Call::Take(896), 896, 896),
            says(Call::Take(896), 1792, 896),
            says(Call::Take(896), 2688, 896),
            says(Call::Take(896), 3584, 896),
            says(Call::Take(896), 4480, 896),
            says(Call::Take(896), 5376, 896),
            says(Call::Release(0), 0, 0),
            says(Call::Release(896), 0, 0),
            says(Call::Take(896), 6272, 896),
            says(Call::Take(896), 0, 896),
            says(Call::Release(3584), 0, 0),
            says(Call::Take(896), 896, 896),
            says(Call::Take(896), 3584, 896),
            refuses(Call::Take(897), 12, &[4, 897]),
        ],
    );
    assert_eq!(rt; wrong, None);
}

#[test]
fn over_buddy(rt: HostRuntime) {
    let (_supply, wrong) = wrong(
        Buddy::new(16),
        &[
            says(Call::Take(10), 0, 10),
            says(Call::Take(8), 4096, 8),
            says(Call::Take(2000), 6144, 2048),
            refuses(Call::Take(12), 12, &[6, 12]),
            says(Call::Out, 13, 0),
            says(Call::Release(0), 0, 0),
            says(Call::Take(12), 0, 12),
        ],
    );
    assert_eq!(rt; wrong, None);
}

#[test]
fn over_guard(rt: HostRuntime) {
    let (guard, wrong) = wrong(
        Guard::new(FirstFit::new(16)),
        &[
            says(Call::Take(8), 0, 8),
            says(Call::Take(10), 2560, 10),
            says(Call::Out, 9, 0),
            refuses(Call::Release(2048), 25, &[2048]),
            refuses(Call::Take(2560), 12, &[5, 2560]),
            says(Call::Take(2048), 5632, 2048),
        ],
    );
    let _below = guard.into_below();
    assert_eq!(rt; wrong, None);
}

// Whether the first 128 runs are granted, and then the answer of one more.
fn full_table(pages: u32) -> (bool, Result<(u32, u32), PoolFault>) {
    let mut pool = Pool::new(FirstFit::new(pages));
    let granted = (0..128).all(|_| pool.take(1793).is_ok());
    let answer = placed(pool.take(1793));
    let _supply = pool.into_supply();
    (granted, answer)
}

#[test]
fn at_most_128_runs(rt: HostRuntime) {
    let (granted, answer) = full_table(1024);
    assert!(rt; granted);
    assert!(rt; is_wanted(answer, Err((23, &[1793]))));
}
