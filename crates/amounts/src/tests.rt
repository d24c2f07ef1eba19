// Both kinds at the edges of their numbers, against results worked out by hand.
ghost use Rattle.std.specs.Prelude.{◌<◌};

use crate::amount::Amount;
use crate::bounds::Bounds;
use crate::grades::Grade;
use crate::record_number::RecordNumber;
use crate::shares::Share;
use std::process::Abort;

const SHARES: [u32; 6] = [0, 1, 1_048_575, 1_048_576, 1_048_577, 4_294_967_295];

const SHARE_TOTALS: [[u32; 6]; 6] = [
    [0, 1, 1_048_575, 1_048_576, 1_048_577, 1_048_577],
    [1, 2, 1_048_576, 1_048_577, 1_048_577, 1_048_577],
    [
        1_048_575, 1_048_576, 1_048_577, 1_048_577, 1_048_577, 1_048_577,
    ],
    [
        1_048_576, 1_048_577, 1_048_577, 1_048_577, 1_048_577, 1_048_577,
    ],
    [
        1_048_577, 1_048_577, 1_048_577, 1_048_577, 1_048_577, 1_048_577,
    ],
    [
        1_048_577, 1_048_577, 1_048_577, 1_048_577, 1_048_577, 1_048_577,
    ],
];

const SHARES_AT_MOST: [[bool; 6]; 6] = [
    [true, true, true, true, true, true],
    [false, true, true, true, true, true],
    [false, false, true, true, true, true],
    [false, false, false, true, true, true],
    [false, false, false, false, true, true],
    // every number past full is the same amount
    [false, false, false, false, true, true],
];

// r, own low, own high, others' low, others' high; own, others
const SHARE_OUTS: [[u32; 7]; 8] = [
    [0, 0, 0, 0, 0, 0, 0],
    [1, 0, 1, 0, 1, 0, 1],
    [1, 1, 1, 0, 1, 1, 0],
    [1_048_575, 1, 1_048_576, 0, 1_048_574, 1, 1_048_574],
    [1_048_576, 0, 600_000, 0, 600_000, 448_576, 600_000],
    [1_048_576, 1_048_576, 1_048_576, 0, 0, 1_048_576, 0],
    [1_048_576, 0, 1_048_576, 0, 1_048_577, 0, 1_048_576],
    [1_048_576, 3, 4_294_967_295, 5, 4_294_967_295, 3, 1_048_573],
];

const GRADES: [u32; 6] = [0, 1, 999, 1_000, 1_001, 4_294_967_295];

const GRADES_AT_MOST: [[bool; 6]; 6] = [
    [true, true, true, true, true, true],
    [false, true, true, true, true, true],
    [false, false, true, true, true, true],
    [false, false, false, true, true, true],
    [false, false, false, false, true, true],
    // a number above full is an amount of its own
    [false, false, false, false, false, true],
];

const GRADE_OUTS: [[u32; 7]; 5] = [
    [0, 0, 0, 0, 0, 0, 0],
    [1, 0, 1, 0, 0, 1, 0],
    [999, 0, 1_000, 5, 998, 999, 998],
    [1_000, 1_000, 1_000, 1_000, 1_000, 1_000, 1_000],
    [1_000, 0, 1_001, 0, 4_294_967_295, 1_000, 1_000],
];

/// A kind whose amounts the tests make of any number, and read as one.
trait TestKind: RecordNumber {
    fn of(number: u32) -> Self;

    fn number(self) -> u32;
}

impl TestKind for Share {
    fn of(number: u32) -> Share {
        Share { number }
    }

    fn number(self) -> u32 {
        self.number
    }
}

impl TestKind for Grade {
    fn of(number: u32) -> Grade {
        Grade { number }
    }

    fn number(self) -> u32 {
        self.number
    }
}

fn has_constants<K: TestKind>(rt: &impl Abort, full: u32) {
    assert_eq!(rt; K::nothing().number(), 0);
    assert_eq!(rt; K::full().number(), full);
    assert_eq!(rt; K::grain().number(), 1);
}

fn is_ordered<K: TestKind>(rt: &impl Abort, edges: &[u32; 6], at_most: &[[bool; 6]; 6]) {
    for (x, row) in edges.iter().zip(at_most) {
        is_at_most::<K>(rt, *x, edges, row);
    }
}

fn is_at_most<K: TestKind>(rt: &impl Abort, x: u32, edges: &[u32; 6], at_most: &[bool; 6]) {
    for (y, expected) in edges.iter().zip(at_most) {
        assert_eq!(rt; K::of(x).at_most(K::of(*y)), *expected);
    }
}

fn larger_is_later<K: TestKind>(rt: &impl Abort, edges: &[u32; 6]) {
    for (i, x) in edges.iter().enumerate() {
        larger_with::<K>(rt, i, *x, edges);
    }
}

fn larger_with<K: TestKind>(rt: &impl Abort, i: usize, x: u32, edges: &[u32; 6])
    requires { i < 6 }
{
    for (j, y) in edges.iter().enumerate() {
        assert_eq!(rt; K::of(x).larger(K::of(*y)).number(), edges[i.max(j)]);
    }
}

fn is_shared_out<K: TestKind>(rt: &impl Abort, rows: &[[u32; 7]]) {
    for &[
        whole,
        own_low,
        own_high,
        others_low,
        others_high,
        own,
        others,
    ] in rows {
        let own_bounds = Bounds {
            low: K::of(own_low),
            high: K::of(own_high),
        };
        let others_bounds = Bounds {
            low: K::of(others_low),
            high: K::of(others_high),
        };
        let parts = K::of(whole).share_out(own_bounds, others_bounds);
        assert_eq!(rt; parts.own.number(), own);
        assert_eq!(rt; parts.others.number(), others);
    }
}

fn numbers_end_at_full<K: TestKind>(rt: &impl Abort, edges: &[u32; 6]) {
    for (i, edge) in edges.iter().enumerate() {
        let number = K::from_number(*edge).map(|x| x.number());
        // Full is the fourth edge of both kinds: up to it a number stands for itself, past it for no amount.
        assert_eq!(rt; number, (i <= 3).then_some(*edge));
    }
}

#[test]
fn shares_have_their_constants(rt: HostRuntime) {
    has_constants::<Share>(&rt, 1_048_576);
}

fn adds_up(rt: &impl Abort, x: u32, totals: &[u32; 6]) {
    for (y, total) in SHARES.iter().zip(totals) {
        assert_eq!(rt; Share::of(x).total(Share::of(*y)).number, *total);
    }
}

#[test]
fn shares_add_up_to_over(rt: HostRuntime) {
    for (x, totals) in SHARES.iter().zip(&SHARE_TOTALS) {
        adds_up(&rt, *x, totals);
    }
    let over = Share::of(600_000).total(Share::of(600_000));
    assert!(rt; !over.at_most(Share::full()));
}

#[test]
fn shares_are_ordered_up_to_over(rt: HostRuntime) {
    is_ordered::<Share>(&rt, &SHARES, &SHARES_AT_MOST);
}

#[test]
fn the_larger_share_is_the_later_edge(rt: HostRuntime) {
    larger_is_later::<Share>(&rt, &SHARES);
}

#[test]
fn shares_are_shared_out(rt: HostRuntime) {
    is_shared_out::<Share>(&rt, &SHARE_OUTS);
}

#[test]
fn share_numbers_end_at_full(rt: HostRuntime) {
    numbers_end_at_full::<Share>(&rt, &SHARES);
}

#[test]
fn grades_have_their_constants(rt: HostRuntime) {
    has_constants::<Grade>(&rt, 1_000);
}

fn total_with(rt: &impl Abort, i: usize, x: u32)
    requires { i < 6 }
{
    for (j, y) in GRADES.iter().enumerate() {
        assert_eq!(rt; Grade::of(x).total(Grade::of(*y)).number, GRADES[i.max(j)]);
    }
}

#[test]
fn the_total_and_the_larger_grade_are_the_later_edge(rt: HostRuntime) {
    larger_is_later::<Grade>(&rt, &GRADES);
    for (i, x) in GRADES.iter().enumerate() {
        total_with(&rt, i, *x);
    }
    assert_eq!(rt; Grade::of(1_000).total(Grade::of(1_000)).number, 1_000);
}

#[test]
fn grades_are_ordered_as_numbers(rt: HostRuntime) {
    is_ordered::<Grade>(&rt, &GRADES, &GRADES_AT_MOST);
}

#[test]
fn grades_are_shared_out(rt: HostRuntime) {
    is_shared_out::<Grade>(&rt, &GRADE_OUTS);
}

#[test]
fn grade_numbers_end_at_full(rt: HostRuntime) {
    numbers_end_at_full::<Grade>(&rt, &GRADES);
}
