//! Runs of the whole program on devices that fail.

use crate::run::run;
use crate::tests::{ROOM, expect, input_of, one_file, read_files, spelled, words_of};
use byte_streams::{Folder, MemFolder, MemSink, MemSource, Sink, Source};
use recalculation::NoPace;
use std::alloc::{AllocError, Global};
use std::process::Abort;
use std::test::Fail;
use std::thread::Threads;

/// Runs where a call fails, on devices that move a byte at a time: the number of the call of the folder, of the input
/// and of the output that fails, 0 for none, then the words, the input, the status and what is written. The file `a.csv`
/// holds 1 and a formula.
const FAILURES: &str = "
    0 0 0 show:1,=A1+1|=>0 1,2|
    0 1 0 show:1,=A1+1|=>5
    0 3 0 show:1,=A1+1|=>5
    0 0 1 show:1,=A1+1|=>6
    0 0 2 show:1,=A1+1|=>6 1
    0 0 4 show:1,=A1+1|=>6 1,2
    1 0 0 show:1,=A1+1|=>0 1,2|
    0 0 3 show:=SUM(A1|=>6 re
    0 0 0 edit a.csv:recalc|show B1|=>0 recalculated 1|a!B1,2|
    1 0 0 edit a.csv:recalc|show B1|=>5
    0 9 0 edit a.csv:recalc|show B1|=>5
    0 0 1 edit a.csv:recalc|show B1|=>6
    0 0 18 edit a.csv:recalc|show B1|=>6 recalculated 1|a!
    0 0 19 edit a.csv:recalc|frob|=>6 recalculated 1|ref
    1 1 0 edit a!.csv:recalc|=>3 refused sheet 1: S5|
    0 1 0 frob:=>2 refused words|
    0 1 8 frob:=>6 refused
";

/// The number in front of a space, and the rest.
fn cut_number(text: &str) -> (u64, &str) {
    let (number, rest) = text.split_once(' ').unwrap_or((text, ""));
    (number.parse::<u64>().unwrap_or(0), rest)
}

/// The status of a run, and what it wrote.
fn status_of<R: Threads + Sync, D: Folder, S: Source, K: Sink>(
    rt: &R,
    alloc: Global,
    words: &Vec<String>,
    folder: &mut D,
    input: &mut S,
    out: &mut K,
) -> u8 {
    let mut kept = None;
    run(rt, alloc, words, folder, input, out, &NoPace, &mut kept)
}

/// A row of that table has the status and the output that are wanted.
fn expect_failure<R: Abort + Threads + Sync>(
    rt: &R,
    alloc: Global,
    row: &str,
    want: &str,
) -> Result<(), AllocError> {
    let (fetch, row) = cut_number(row);
    let (read, row) = cut_number(row);
    let (write, row) = cut_number(row);
    let (words, input) = row.split_once(':').unwrap_or((row, ""));
    let words = words_of(alloc, words)?;
    let files = one_file(alloc, b"1,=A1+1\n")?;
    let mut folder = MemFolder::new(files, vec![in alloc; fetch]?);
    let mut input = MemSource::new(spelled(alloc, input)?, 1, vec![in alloc; read]?);
    let mut out = MemSink::new(alloc, ROOM, 1, vec![in alloc; write]?)?;
    let status = status_of(rt, alloc, &words, &mut folder, &mut input, &mut out);
    expect(rt, alloc, status, out.written(), want, row)
}

#[test]
fn ends_where_a_device_fails(rt: HostRuntime) -> Result<(), Fail> {
    let mut rows: usize = 0;
    for line in FAILURES.lines() {
        if let Some((row, want)) = line.trim_start().rsplit_once("=>") {
            expect_failure(&rt, rt.alloc(), row, want)?;
            rows = rows.saturating_add(1);
        }
    }
    assert_eq!(rt; rows, 17);
    Ok(())
}

/// Runs of which each single call of a device fails in turn: words, a colon, the files and the input, and the status and
/// what is written where none fails.
const IN_TURN: &str = "
    show:1,=A1+1|=>0 1,2|
    edit:loop.csv{=B1,=C1,=B1|}recalc|set B1 4|recalc|print|=>0 recalculated 3|recalculated 2|4,4,4|
    edit:s.csv{7,=$A$1+A1|8|}t.csv{=s!B1|}copy B1 B2|print|show t!A1|show B3|=>0 7,14|8,15|t!A1,14|s!B3,|
    edit:k.csv{=A1,=1|}recalc|set B1 =A1|recalc|print|=>0 recalculated 2|recalculated 1|#CYCLE(1)!,#TOCYCLE!|
    edit:k.csv{=A1,=A1+|}recalc|=>3 refused k!B1 at 4: F2|
    edit:k.csv{=A1,=A1|}cycles|set A1 =(|recalc|=>4 cycles 1|k!A1|refused line 2 at 2: F2|
    trace --workers 2 --order 0,0 --stop 0:=B1,=A1|=>0 0 look A1 stale|0 claim A1 won|1 look B1 stale|1 claim B1 won|1 look A1 claimed 0|1 take 0|1 value 0 2|1 tag 0 6|1 publish A1 0 won|1 take 1|1 value 1 2|1 tag 1 6|1 publish B1 1 won|1 finished|result|#CYCLE(2)!,#CYCLE(2)!|
    demo 16:=>0 cells 16 formulas 14|recalculated 14 values 11 errors 0 cycle 1 tocycle 2 sum 119|recalculated 12 values 8 errors 0 cycle 2 tocycle 4 sum 127|
";

/// Runs such a row on devices that move a byte at a time, where the call of the folder, of the input or of the output with
/// this number fails, 0 for none. The status, and the output.
fn run_failing<R: Threads + Sync>(
    rt: &R,
    alloc: Global,
    row: &str,
    fetch: u64,
    read: u64,
    write: u64,
) -> Result<(u8, MemSink), AllocError> {
    let (words, rest) = row.split_once(':').unwrap_or((row, ""));
    let mut words = words_of(alloc, words)?;
    let mut files = Vec::new(alloc);
    read_files(alloc, rest, &mut words, &mut files)?;
    let mut folder = MemFolder::new(files, vec![in alloc; fetch]?);
    let mut input = MemSource::new(spelled(alloc, input_of(rest))?, 1, vec![in alloc; read]?);
    let mut out = MemSink::new(alloc, ROOM, 1, vec![in alloc; write]?)?;
    let status = status_of(rt, alloc, &words, &mut folder, &mut input, &mut out);
    Ok((status, out))
}

/// Where a write fails, the status is 6, and what was to be written before it is written. Where none fails, the row is as
/// is wanted.
fn expect_writes<R: Abort + Threads + Sync>(
    rt: &R,
    alloc: Global,
    row: &str,
    want: &str,
) -> Result<(), AllocError> {
    let (_status, text) = want.split_once(' ').unwrap_or((want, ""));
    let bytes = spelled(alloc, text)?;
    for n in 0..bytes.len() {
        let write = (n as u64).saturating_add(1);
        let (status, out) = run_failing(rt, alloc, row, 0, 0, write)?;
        assert_eq!(rt; (status, out.written()), (6, &bytes[..n]), "at {row}");
    }
    let (status, out) = run_failing(rt, alloc, row, 0, 0, 0)?;
    expect(rt, alloc, status, out.written(), want, row)
}

/// Where a call of the input with a number up to this one fails, or of the folder, the status is 5, and nothing is written.
fn expect_reads<R: Abort + Threads + Sync>(
    rt: &R,
    alloc: Global,
    row: &str,
    fetches: u64,
    reads: u64,
) -> Result<(), AllocError> {
    for n in 0..fetches {
        let (status, out) = run_failing(rt, alloc, row, n.saturating_add(1), 0, 0)?;
        assert_eq!(rt; (status, out.written().len()), (5, 0), "at {row}");
    }
    for n in 0..reads {
        let (status, out) = run_failing(rt, alloc, row, 0, n.saturating_add(1), 0)?;
        assert_eq!(rt; (status, out.written().len()), (5, 0), "at {row}");
    }
    Ok(())
}

#[test]
fn ends_at_each_write_that_fails(rt: HostRuntime) -> Result<(), Fail> {
    let mut rows: usize = 0;
    for line in IN_TURN.lines() {
        if let Some((row, want)) = line.trim_start().rsplit_once("=>") {
            expect_writes(&rt, rt.alloc(), row, want)?;
            rows = rows.saturating_add(1);
        }
    }
    assert_eq!(rt; rows, 8);
    Ok(())
}

/// Runs of which each single read fails in turn: how many calls of the folder there are, and how many of the input, the last
/// of them at its end.
const READ_IN_TURN: &str = "
    0 9 show:1,=A1+1|
    1 30 edit:loop.csv{=B1,=C1,=B1|}recalc|set B1 4|recalc|print|
    2 11 edit:s.csv{7,=$A$1+A1|8|}t.csv{=s!B1|}show t!A1|
    0 9 trace --workers 2:=B1,=A1|
";

#[test]
fn ends_at_each_read_that_fails(rt: HostRuntime) -> Result<(), Fail> {
    let mut rows: usize = 0;
    for line in READ_IN_TURN.lines() {
        let line = line.trim_start();
        if !line.is_empty() {
            let (fetches, row) = cut_number(line);
            let (reads, row) = cut_number(row);
            expect_reads(&rt, rt.alloc(), row, fetches, reads)?;
            rows = rows.saturating_add(1);
        }
    }
    assert_eq!(rt; rows, 4);
    Ok(())
}
