//! The updates of one move, in every order in which hands can make them.

use crate::games::{expect_none, first_false};
use crate::recordings::row_holds;
use crate::settling::settling_failing;
use dgt_vectors::captures::Signal::{self, Dump, Lift, Put};
use dgt_vectors::row::{OPENING, Row};
use std::alloc::Global;

fn castling<'a>(capture: &'a [Signal<'a>]) -> Row<'a> {
    Row {
        name: "castling in some order",
        start: "4k3/8/8/8/8/8/8/4K2R w K - 0 1",
        capture,
        movetext: "1. O-O *",
        report: (5, 0, 1, 0),
        ..OPENING
    }
}

fn en_passant<'a>(capture: &'a [Signal<'a>]) -> Row<'a> {
    Row {
        name: "en passant in some order",
        start: "4k3/8/8/3pP3/8/8/8/4K3 w - d6 0 2",
        capture,
        movetext: "2. exd6 *",
        report: (4, 0, 1, 0),
        ..OPENING
    }
}

/// What is recorded is what the row says and what the pictures tell.
fn holds(alloc: Global, row: &Row<'_>) -> bool {
    row_holds(alloc, row, 4096) && settling_failing(alloc, row).is_none()
}

fn castling_holds(alloc: Global, updates: [Signal<'_>; 4]) -> bool {
    let [first, second, third, fourth] = updates;
    let dump = Dump("4k3/8/8/8/8/8/8/4K2R");
    holds(alloc, &castling(&[dump, first, second, third, fourth]))
}

/// How many orders castling has, or the first order of its updates that doesn't hold.
fn castling_orders(alloc: Global) -> Result<u32, [usize; 4]> {
    let updates = [Lift("e1"), Put("g1", "K"), Lift("h1"), Put("f1", "R")];
    let mut count: u32 = 0;
    for (a, first) in updates.iter().enumerate() {
        for (b, second) in updates.iter().enumerate() {
            for (c, third) in updates.iter().enumerate() {
                for (d, fourth) in updates.iter().enumerate() {
                    let differ = a != b && a != c && b != c;
                    if differ && d != a && d != b && d != c {
                        if !castling_holds(alloc, [*first, *second, *third, *fourth]) {
                            return Err([a, b, c, d]);
                        }
                        count = count.saturating_add(1);
                    }
                }
            }
        }
    }
    Ok(count)
}

fn en_passant_holds(alloc: Global, updates: [Signal<'_>; 3]) -> bool {
    let [first, second, third] = updates;
    let dump = Dump("4k3/8/8/3pP3/8/8/8/4K3");
    holds(alloc, &en_passant(&[dump, first, second, third]))
}

/// How many orders en passant has, or the first order of its updates that doesn't hold.
fn en_passant_orders(alloc: Global) -> Result<u32, [usize; 3]> {
    let updates = [Lift("e5"), Put("d6", "P"), Lift("d5")];
    let mut count: u32 = 0;
    for (a, first) in updates.iter().enumerate() {
        for (b, second) in updates.iter().enumerate() {
            for (c, third) in updates.iter().enumerate() {
                if a != b && a != c && b != c {
                    if !en_passant_holds(alloc, [*first, *second, *third]) {
                        return Err([a, b, c]);
                    }
                    count = count.saturating_add(1);
                }
            }
        }
    }
    Ok(count)
}

#[test]
fn moves_are_made_in_each_order(rt: HostRuntime) {
    let holds = [
        castling_orders(rt.alloc()) == Ok(24),
        en_passant_orders(rt.alloc()) == Ok(6),
    ];
    expect_none(&rt, first_false(&holds));
}
