//! What ends give: one alone, and two side by side.

ghost use Rattle.std.specs.Prelude.{◌≤◌};

use super::*;
use std::alloc::Global;
use std::marker::Sync;
use std::process::Abort;
use std::test::Fail;
use std::thread::{Threads, join};
use worker_machine::Hints;

// Each line: how many numbers are dealt, to how many workers, and what the end of one of these gives where
// no other end takes any.
const ALONE: &str = "
    0 1 0 gives
    5 1 0 gives 0 1 2 3 4
    5 2 0 gives 0 1 2 3 4
    5 2 1 gives 2 3 4 0 1
    7 3 1 gives 2 3 4 5 6 0 1
    7 3 2 gives 4 5 6 0 1 2 3
    2 3 2 gives 1 0
    3 64 30 gives 1 2 0
";

// What these hints give until they have ended, each number behind a space.
fn all_of<H: Hints>(
    rt: &impl Abort,
    alloc: Global,
    hints: &mut H,
    count: u32,
) -> Result<String, Fail> {
    let mut given = String::new(alloc);
    for _ in 0..count {
        assert!(rt; !hints.ended());
        let Some(number) = hints.take() else {
            panic!(rt; "no number");
        };
        given.push_str(format!(in alloc; " {number}")?.as_str())?;
    }
    assert!(rt; !hints.ended());
    assert_eq!(rt; hints.take(), None);
    assert!(rt; hints.ended());
    Ok(given)
}

// A number of a row.
fn number_of(rt: &impl Abort, line: &str) -> u32 {
    match line.parse::<u32>() {
        Ok(number) => number,
        Err(_) => panic!(rt; "{line}"),
    }
}

// What one of the ends gives alone.
fn given_alone(rt: &impl Abort, alloc: Global, row: &str) -> Result<String, Fail> {
    let Some((count, row)) = row.split_once(' ') else {
        panic!(rt; "{row}");
    };
    let Some((workers, worker)) = row.split_once(' ') else {
        panic!(rt; "{row}");
    };
    let count = number_of(rt, count);
    let workers = number_of(rt, workers).clamp(1, 64) as u8;
    let worker = number_of(rt, worker) as usize;
    let mut ends = deal(alloc, count, workers)?;
    assert_eq!(rt; ends.len(), usize::from(workers));
    match ends.get_mut(worker) {
        Some(end) => all_of(rt, alloc, end, count),
        None => panic!(rt; "{row}"),
    }
}

#[test]
fn one_end_takes_all(rt: HostRuntime) -> Result<(), Fail> {
    let mut rows = 0u32;
    for line in ALONE.lines() {
        if let Some((row, want)) = line.trim_start().split_once(" gives") {
            let given = given_alone(&rt, rt.alloc(), row)?;
            assert_eq!(rt; given.as_str(), want, "{row}");
            rows = rows.saturating_add(1);
        }
    }
    assert_eq!(rt; rows, 8);
    Ok(())
}

// The numbers that these hints give, as the bits of a word, and how many they are.
fn bits_of<H: Hints>(mut hints: H) -> (u64, u32) {
    let mut bits = 0u64;
    let mut given = 0u32;
    for _ in 0..64 {
        if hints.ended() {
            break;
        }
        if let Some(number) = hints.take() {
            bits |= 1u64.checked_shl(number).unwrap_or(0);
            given = given.saturating_add(1);
        }
    }
    (bits, given)
}

// Two ends take at once until they have ended. All numbers are given, each once.
fn take_at_once<R: Abort + Threads + Sync>(rt: &R, alloc: Global) -> Result<(), Fail> {
    let mut ends = deal(alloc, 64, 2)?;
    let (Some(one), Some(zero)) = (ends.pop(), ends.pop()) else {
        panic!(rt; "two ends");
    };
    let (first, second) = join(rt, move || bits_of(zero), move || bits_of(one));
    assert_eq!(rt; first.0 | second.0, u64::MAX);
    assert_eq!(rt; first.0 & second.0, 0);
    assert_eq!(rt; first.1.saturating_add(second.1), 64);
    Ok(())
}

#[test]
fn two_ends_take_each_number_once(rt: HostRuntime) -> Result<(), Fail> {
    for _ in 0..50 {
        take_at_once(&rt, rt.alloc())?;
    }
    Ok(())
}
