//! Every refusal of every call, over each supply and over layers that nest, as tables of calls and their answers.
use crate::client::take_again;
use buddy::Buddy;
use buddy::reserve::reserve_of;
use buddy::span::check_buddy_span;
use guard::Guard;
use pages::fault::{SpanFault, SupplyFault};
use pages::first_fit::FirstFit;
use pages::run::Run;
use pages::span::check_span;
use pages::supply::Supply;

// Calls are values, since a row holds one. Each layer has a table of its own, as other things are asked and told there.
#[derive(Clone, Copy)]
enum Call {
    Span,
    Largest,
    Out,
    Take(u32),
    Give(u32, u32),
    Again(u32, u32),
}

// What a call answers: a number and 0, or a run's first page and its count; or a refusal by its number and its place.
type Answer = Result<(u32, u32), (u32, u32)>;

// A call with its answer.
#[derive(Clone, Copy)]
struct Row {
    call: Call,
    answer: Answer,
}

// A call that is granted: a taken run has the count asked.
fn says(call: Call, first: u32) -> Row {
    let second = match call {
        Call::Take(count) | Call::Again(_, count) => count,
        _ => 0,
    };
    Row {
        call,
        answer: Ok((first, second)),
    }
}

fn refuses(call: Call, number: u32, place: u32) -> Row {
    Row {
        call,
        answer: Err((number, place)),
    }
}

fn placed(answer: Result<Run, SupplyFault>) -> Result<(u32, u32), SupplyFault> {
    answer.map(|run| (run.first, run.count))
}

fn ask<S: Supply>(supply: &mut S, call: Call) -> Answer {
    let answer = match call {
        Call::Span => Ok((supply.span(), 0)),
        Call::Largest => Ok((supply.largest(), 0)),
        Call::Out => Ok((supply.pages_out(), 0)),
        Call::Take(count) => placed(supply.take(count)),
        Call::Give(first, count) => supply.give(first, count).map(|()| (0, 0)),
        Call::Again(first, count) => placed(take_again(supply, first, count)),
    };
    answer.map_err(|fault| (fault.number(), fault.place()))
}

// The first row that has another answer.
fn wrong<S: Supply>(supply: &mut S, rows: &[Row]) -> Option<usize> {
    rows.iter()
        .position(|row| ask(supply, row.call) != row.answer)
}

// The same over a guard of the supply.
fn wrong_guarded<S: Supply>(supply: S, rows: &[Row]) -> (S, Option<usize>) {
    let mut layer = Guard::new(supply);
    let found = wrong(&mut layer, rows);
    (layer.into_below(), found)
}

fn checked(answer: Result<(), SpanFault>) -> Result<(), (u32, u32)> {
    answer.map_err(|fault| (fault.number(), fault.place()))
}

#[test]
fn first_fit(rt: HostRuntime) {
    let rows = [
        says(Call::Span, 10),
        says(Call::Largest, 10),
        says(Call::Out, 0),
        refuses(Call::Take(0), 11, 0),
        refuses(Call::Take(11), 11, 11),
        refuses(Call::Give(0, 1), 13, 0),
        says(Call::Take(4), 0),
        says(Call::Take(2), 4),
        refuses(Call::Take(5), 12, 5),
        says(Call::Take(4), 6),
        says(Call::Out, 10),
        refuses(Call::Take(1), 12, 1),
        refuses(Call::Give(0, 3), 13, 0),
        refuses(Call::Give(1, 4), 13, 1),
        refuses(Call::Give(0, 0), 13, 0),
        refuses(Call::Give(1024, 0), 13, 1024),
        refuses(Call::Give(5000, 4), 13, 5000),
        says(Call::Give(0, 4), 0),
        refuses(Call::Give(0, 4), 13, 0),
        says(Call::Out, 6),
        says(Call::Take(3), 0),
        says(Call::Again(4, 2), 3),
        refuses(Call::Again(5, 2), 13, 5),
        says(Call::Take(1), 5),
    ];
    assert_eq!(rt; wrong(&mut FirstFit::new(10), &rows), None);
}

#[test]
fn buddy(rt: HostRuntime) {
    let rows = [
        says(Call::Span, 16),
        says(Call::Largest, 16),
        refuses(Call::Take(0), 11, 0),
        refuses(Call::Take(17), 11, 17),
        says(Call::Take(5), 0),
        says(Call::Take(3), 8),
        says(Call::Take(4), 12),
        refuses(Call::Take(1), 12, 1),
        says(Call::Out, 12),
        refuses(Call::Give(8, 4), 13, 8),
        refuses(Call::Give(5, 3), 13, 5),
        refuses(Call::Give(2000, 3), 13, 2000),
        says(Call::Give(8, 3), 0),
        says(Call::Take(1), 8),
        says(Call::Take(2), 10),
        says(Call::Again(0, 5), 0),
        says(Call::Take(1), 9),
        refuses(Call::Take(1), 12, 1),
        says(Call::Out, 13),
    ];
    assert_eq!(rt; wrong(&mut Buddy::new(16), &rows), None);
}

#[test]
fn full(rt: HostRuntime) {
    let rows = [
        says(Call::Largest, 1024),
        says(Call::Take(1024), 0),
        says(Call::Out, 1024),
        refuses(Call::Take(1), 12, 1),
        says(Call::Again(0, 1024), 0),
        says(Call::Give(0, 1024), 0),
        says(Call::Out, 0),
    ];
    assert_eq!(rt; wrong(&mut FirstFit::new(1024), &rows), None);
    assert_eq!(rt; wrong(&mut Buddy::new(1024), &rows), None);
}

#[test]
fn guarded(rt: HostRuntime) {
    let over_first_fit = [
        says(Call::Span, 16),
        says(Call::Largest, 15),
        refuses(Call::Take(0), 11, 0),
        refuses(Call::Take(16), 11, 16),
        says(Call::Take(4), 0),
        says(Call::Take(5), 5),
        refuses(Call::Take(5), 12, 5),
        says(Call::Take(4), 11),
        says(Call::Out, 13),
        refuses(Call::Give(0, 5), 13, 0),
        refuses(Call::Give(0, 0), 13, 0),
        refuses(Call::Give(0, 4294967295), 13, 0),
        says(Call::Again(5, 5), 5),
        says(Call::Give(0, 4), 0),
        says(Call::Out, 9),
    ];
    let over_buddy = [
        says(Call::Largest, 15),
        says(Call::Take(3), 0),
        says(Call::Take(4), 8),
        says(Call::Take(3), 4),
        refuses(Call::Take(1), 12, 1),
        says(Call::Out, 10),
    ];
    let (_below, found) = wrong_guarded(FirstFit::new(16), &over_first_fit);
    assert_eq!(rt; found, None);
    let (_below, found) = wrong_guarded(Buddy::new(16), &over_buddy);
    assert_eq!(rt; found, None);
}

#[test]
fn nested(rt: HostRuntime) {
    let over_first_fit = [
        says(Call::Largest, 14),
        refuses(Call::Take(15), 11, 15),
        says(Call::Take(2), 0),
        says(Call::Take(3), 4),
        refuses(Call::Take(6), 12, 6),
        says(Call::Take(5), 9),
        says(Call::Out, 10),
        refuses(Call::Give(4, 4), 13, 4),
        says(Call::Again(4, 3), 4),
    ];
    let over_buddy = [
        says(Call::Largest, 14),
        refuses(Call::Take(15), 11, 15),
        says(Call::Take(2), 0),
        says(Call::Take(3), 8),
        refuses(Call::Take(7), 12, 7),
        refuses(Call::Give(4, 3), 13, 4),
        says(Call::Out, 5),
    ];
    let (layer, found) = wrong_guarded(Guard::new(FirstFit::new(16)), &over_first_fit);
    let _below = layer.into_below();
    assert_eq!(rt; found, None);
    let (layer, found) = wrong_guarded(Guard::new(Buddy::new(16)), &over_buddy);
    let _below = layer.into_below();
    assert_eq!(rt; found, None);
}

#[test]
fn passed_through(rt: HostRuntime) {
    let one_page = [
        says(Call::Largest, 1),
        refuses(Call::Take(2), 11, 2),
        says(Call::Take(1), 0),
        refuses(Call::Take(1), 12, 1),
        says(Call::Out, 1),
        says(Call::Give(0, 1), 0),
        says(Call::Out, 0),
    ];
    let runs_out = [
        says(Call::Largest, 8),
        says(Call::Out, 3),
        says(Call::Take(5), 3),
        refuses(Call::Take(1), 12, 1),
        says(Call::Give(0, 3), 0),
        says(Call::Take(3), 0),
        says(Call::Out, 8),
    ];
    let (_below, found) = wrong_guarded(FirstFit::new(1), &one_page);
    assert_eq!(rt; found, None);
    let (layer, found) = wrong_guarded(Guard::new(Buddy::new(2)), &one_page);
    let _below = layer.into_below();
    assert_eq!(rt; found, None);
    let mut supply = FirstFit::new(8);
    assert_eq!(rt; wrong(&mut supply, &[says(Call::Take(3), 0)]), None);
    let (_below, found) = wrong_guarded(supply, &runs_out);
    assert_eq!(rt; found, None);
}

#[test]
fn spans(rt: HostRuntime) {
    for (span, answer, made) in [
        (0, Err((14, 0)), 1),
        (1, Ok(()), 1),
        (3, Ok(()), 3),
        (1024, Ok(()), 1024),
        (1025, Err((14, 1025)), 1),
    ] {
        assert_eq!(rt; checked(check_span(span)), answer);
        assert_eq!(rt; FirstFit::new(span).span(), made);
    }
    for (span, answer, made) in [
        (0, Err((14, 0)), 1),
        (1, Ok(()), 1),
        (3, Err((14, 3)), 1),
        (64, Ok(()), 64),
        (1024, Ok(()), 1024),
        (1025, Err((14, 1025)), 1),
        (2048, Err((14, 2048)), 1),
    ] {
        assert_eq!(rt; checked(check_buddy_span(span)), answer);
        assert_eq!(rt; Buddy::new(span).span(), made);
    }
}

#[test]
fn reserves(rt: HostRuntime) {
    for (count, reserve) in [
        (0, 0),
        (1, 1),
        (2, 2),
        (3, 4),
        (5, 8),
        (513, 1024),
        (1024, 1024),
        (1025, 0),
        (4294967295, 0),
    ] {
        assert_eq!(rt; reserve_of(count), reserve);
    }
}
