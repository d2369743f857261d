//! The lines of three runs of two workers, and of each kind of event.

ghost use Rattle.std.specs.Prelude.{All, IfOk};
ghost use Rattle.cell_values.specs.Addresses.{IsOnSheet};

use crate::TraceText;
use cell_values::Addr;
use cell_words::CellWord;
use claim_core::{Claim, Event, Publish};
use parallel_evaluation::Traced;
use std::alloc::Global;
use std::process::Abort;
use std::test::Fail;

/// What a row tells of an event: its text, and the numbers in it.
#[derive(Drop)]
struct Told<'a> {
    text: &'a str,
    numbers: &'a [u64],
}

impl Told<'_> {
    fn says(&self, word: &str) -> bool {
        self.text.contains(word)
    }

    fn wide(&self, k: usize) -> u64 {
        self.numbers.get(k).copied().unwrap_or(0)
    }

    fn number(&self, k: usize) -> u32 {
        (self.wide(k) % 1_000_000_000) as u32
    }

    fn worker(&self, k: usize) -> u8 {
        (self.wide(k) % 256) as u8
    }

    fn cell_word(&self) -> CellWord {
        if self.says("Stale") {
            CellWord::Stale
        } else if self.says("Claimed(") {
            CellWord::Claimed(self.worker(2))
        } else {
            CellWord::Done {
                publisher: self.worker(2),
                claimer: self.worker(3),
                rec: self.number(4),
            }
        }
    }

    fn claim(&self) -> Claim {
        if self.says("Won") {
            Claim::Won
        } else {
            Claim::Found(self.cell_word())
        }
    }

    fn publish(&self) -> Publish {
        if self.says("Won") {
            Publish::Won
        } else {
            Publish::Lost {
                publisher: self.worker(3),
                claimer: self.worker(4),
                rec: self.number(5),
            }
        }
    }

    /// An event at a cell.
    fn at_cell(&self) -> Option<Event> {
        let cell = self.number(1);
        if self.says("Look {") {
            let seen = self.cell_word();
            Some(Event::Look { cell, seen })
        } else if self.says("Claim {") {
            let answer = self.claim();
            Some(Event::Claim { cell, answer })
        } else if self.says("Publish {") {
            let rec = self.number(2);
            let answer = self.publish();
            Some(Event::Publish { cell, rec, answer })
        } else {
            None
        }
    }

    /// An event at a record's words.
    fn at_record(&self) -> Option<Event> {
        let rec = self.number(1);
        let k = self.number(2);
        if self.says("TakeRecord {") {
            Some(Event::TakeRecord { rec })
        } else if self.says("StoreValue {") {
            let word = self.wide(3);
            Some(Event::StoreValue { rec, k, word })
        } else if self.says("LoadValue {") {
            let word = self.wide(3);
            Some(Event::LoadValue { rec, k, word })
        } else if self.says("StoreTag {") {
            let word = self.wide(2);
            Some(Event::StoreTag { rec, word })
        } else if self.says("LoadTag {") {
            let word = self.wide(2);
            Some(Event::LoadTag { rec, word })
        } else {
            None
        }
    }

    fn traced(&self) -> Option<Traced> {
        let worker = self.worker(0);
        let event = self.at_cell().or(self.at_record())?;
        Some(Traced { worker, event })
    }
}

/// The numbers in a text that does not end with one.
fn numbers_in(alloc: Global, text: &str) -> Result<Vec<u64>, Fail> {
    let mut numbers = Vec::new(alloc);
    let mut open: Option<u64> = None;
    for byte in text.bytes() {
        if byte.is_ascii_digit() {
            let front = open.unwrap_or(0).saturating_mul(10);
            open = Some(front.saturating_add(u64::from(byte - b'0')));
        } else if let Some(number) = open {
            numbers.push(number)?;
            open = None;
        }
    }
    Ok(numbers)
}

/// The cells with these names.
fn cells_named(alloc: Global, names: &str) -> Result<Vec<Addr>, Fail>
    ensures { IfOk result (λ cells. All IsOnSheet cells.items) }
{
    let mut cells = Vec::new(alloc);
    for name in names.split(' ') {
        if let Some(at) = Addr::read(0, name) {
            cells.push(at)?;
        }
    }
    Ok(cells)
}

/// The events that the rows name behind a `|`.
fn events_of(alloc: Global, rows: &str) -> Result<Vec<Traced>, Fail> {
    let mut events = Vec::new(alloc);
    for row in rows.lines() {
        if let Some((_, text)) = row.split_once('|') {
            let numbers = numbers_in(alloc, text)?;
            let told = Told {
                text,
                numbers: &numbers,
            };
            if let Some(traced) = told.traced() {
                events.push(traced)?;
            }
        }
    }
    Ok(events)
}

/// The line that a row begins with.
fn line_of(row: &str) -> &str {
    match row.split_once('|') {
        Some((line, _)) => line.trim(),
        None => row.trim(),
    }
}

/// The lines that the rows begin with.
fn lines_of(alloc: Global, rows: &str) -> Result<String, Fail> {
    let mut lines = String::new(alloc);
    for row in rows.lines() {
        let line = line_of(row);
        if !line.is_empty() {
            lines.push_str(line)?;
            lines.push('\n')?;
        }
    }
    Ok(lines)
}

/// All lines that are still to come, and how many there are.
fn written(alloc: Global, trace: &mut TraceText<'_>) -> Result<(String, u64), Fail> {
    let mut text = String::new(alloc);
    let mut count: u64 = 0;
    while let Some(line) = trace.next_line()? {
        text.push_str(&line)?;
        count = count.saturating_add(1);
    }
    Ok((text, count))
}

/// The events behind a `|` are told by the lines that the rows begin with, of which there are so many.
fn tells(
    rt: &impl Abort,
    alloc: Global,
    cells: &str,
    stopped: &[u8],
    rows: &str,
    count: u64,
) -> Result<(), Fail> {
    let cells = cells_named(alloc, cells)?;
    let events = events_of(alloc, rows)?;
    let mut trace = TraceText::new(alloc, &cells, stopped, &events)?;
    let (text, lines) = written(alloc, &mut trace)?;
    let want = lines_of(alloc, rows)?;
    assert_eq!(rt; text.as_str(), want.as_str());
    assert_eq!(rt; lines, count);
    Ok(())
}

const BY_TURNS: &str = "
    0 look A1 stale                        | 0 Look { cell: 0, seen: Stale }
    1 look A2 stale                        | 1 Look { cell: 1, seen: Stale }
    0 claim A1 won                         | 0 Claim { cell: 0, answer: Won }
    1 claim A2 won                         | 1 Claim { cell: 1, answer: Won }
    0 look A2 claimed 1                    | 0 Look { cell: 1, seen: Claimed(1) }
    1 look A1 claimed 0                    | 1 Look { cell: 0, seen: Claimed(0) }
    0 take 0                               | 0 TakeRecord { rec: 0 }
    1 take 1                               | 1 TakeRecord { rec: 1 }
    0 value 0 2                            | 0 StoreValue { rec: 0, k: 0, word: 2 }
    1 value 1 2                            | 1 StoreValue { rec: 1, k: 0, word: 2 }
    0 tag 0 6                              | 0 StoreTag { rec: 0, word: 6 }
    1 tag 1 6                              | 1 StoreTag { rec: 1, word: 6 }
    0 publish A2 0 won                     | 0 Publish { cell: 1, rec: 0, answer: Won }
    1 publish A1 1 won                     | 1 Publish { cell: 0, rec: 1, answer: Won }
    0 take 2                               | 0 TakeRecord { rec: 2 }
    1 take 3                               | 1 TakeRecord { rec: 3 }
    0 value 2 2                            | 0 StoreValue { rec: 2, k: 0, word: 2 }
    0 tag 2 6                              | 0 StoreTag { rec: 2, word: 6 }
    0 publish A1 2 lost 1 0 1              | 0 Publish { cell: 0, rec: 2, answer: Lost { publisher: 1, claimer: 0, rec: 1 } }
    0 finished
    1 value 3 2                            | 1 StoreValue { rec: 3, k: 0, word: 2 }
    1 tag 3 6                              | 1 StoreTag { rec: 3, word: 6 }
    1 publish A2 3 lost 0 1 0              | 1 Publish { cell: 1, rec: 3, answer: Lost { publisher: 0, claimer: 1, rec: 0 } }
    1 finished
";

const OTHER_FIRST: &str = "
    0 look A1 stale                        | 0 Look { cell: 0, seen: Stale }
    0 claim A1 won                         | 0 Claim { cell: 0, answer: Won }
    1 look A2 stale                        | 1 Look { cell: 1, seen: Stale }
    1 claim A2 won                         | 1 Claim { cell: 1, answer: Won }
    1 look A1 claimed 0                    | 1 Look { cell: 0, seen: Claimed(0) }
    1 take 0                               | 1 TakeRecord { rec: 0 }
    1 value 0 2                            | 1 StoreValue { rec: 0, k: 0, word: 2 }
    1 tag 0 6                              | 1 StoreTag { rec: 0, word: 6 }
    1 publish A1 0 won                     | 1 Publish { cell: 0, rec: 0, answer: Won }
    1 take 1                               | 1 TakeRecord { rec: 1 }
    1 value 1 2                            | 1 StoreValue { rec: 1, k: 0, word: 2 }
    1 tag 1 6                              | 1 StoreTag { rec: 1, word: 6 }
    1 publish A2 1 won                     | 1 Publish { cell: 1, rec: 1, answer: Won }
    1 finished
    0 look A2 done 1 1 1                   | 0 Look { cell: 1, seen: Done { publisher: 1, claimer: 1, rec: 1 } }
    0 load-tag 1 6                         | 0 LoadTag { rec: 1, word: 6 }
    0 take 2                               | 0 TakeRecord { rec: 2 }
    0 value 2 2                            | 0 StoreValue { rec: 2, k: 0, word: 2 }
    0 tag 2 6                              | 0 StoreTag { rec: 2, word: 6 }
    0 publish A1 2 lost 1 0 0              | 0 Publish { cell: 0, rec: 2, answer: Lost { publisher: 1, claimer: 0, rec: 0 } }
    0 finished
";

const ONE_AFTER_THE_OTHER: &str = "
    0 look A1 stale                        | 0 Look { cell: 0, seen: Stale }
    0 claim A1 won                         | 0 Claim { cell: 0, answer: Won }
    0 take 0                               | 0 TakeRecord { rec: 0 }
    0 value 0 1                            | 0 StoreValue { rec: 0, k: 0, word: 1 }
    0 value 0 0                            | 0 StoreValue { rec: 0, k: 1, word: 0 }
    0 tag 0 1                              | 0 StoreTag { rec: 0, word: 1 }
    0 publish A1 0 won                     | 0 Publish { cell: 0, rec: 0, answer: Won }
    0 look A2 stale                        | 0 Look { cell: 1, seen: Stale }
    0 claim A2 won                         | 0 Claim { cell: 1, answer: Won }
    0 take 1                               | 0 TakeRecord { rec: 1 }
    0 value 1 1                            | 0 StoreValue { rec: 1, k: 0, word: 1 }
    0 value 1 0                            | 0 StoreValue { rec: 1, k: 1, word: 0 }
    0 tag 1 1                              | 0 StoreTag { rec: 1, word: 1 }
    0 publish A2 1 won                     | 0 Publish { cell: 1, rec: 1, answer: Won }
    0 finished
    1 look A2 done 0 0 1                   | 1 Look { cell: 1, seen: Done { publisher: 0, claimer: 0, rec: 1 } }
    1 load-tag 1 1                         | 1 LoadTag { rec: 1, word: 1 }
    1 load-value 1 1                       | 1 LoadValue { rec: 1, k: 0, word: 1 }
    1 load-value 1 0                       | 1 LoadValue { rec: 1, k: 1, word: 0 }
    1 look A1 done 0 0 0                   | 1 Look { cell: 0, seen: Done { publisher: 0, claimer: 0, rec: 0 } }
    1 load-tag 0 1                         | 1 LoadTag { rec: 0, word: 1 }
    1 load-value 0 1                       | 1 LoadValue { rec: 0, k: 0, word: 1 }
    1 load-value 0 0                       | 1 LoadValue { rec: 0, k: 1, word: 0 }
    1 finished
";

#[test]
fn runs_of_two_workers(rt: HostRuntime) -> Result<(), Fail> {
    let alloc = rt.alloc();
    tells(&rt, alloc, "A1 A2", &[], BY_TURNS, 24)?;
    tells(&rt, alloc, "A1 A2", &[], OTHER_FIRST, 21)?;
    tells(&rt, alloc, "A1 A2", &[], ONE_AFTER_THE_OTHER, 24)
}

// Each kind of event and answer, with numbers that differ. The workers 7 and 0 are stopped.
const KINDS: &str = "
    7 look IV65536 claimed 63              | 7 Look { cell: 2, seen: Claimed(63) }
    63 look B7 done 5 12 400000            | 63 Look { cell: 0, seen: Done { publisher: 5, claimer: 12, rec: 400000 } }
    12 claim AA10 claimed 7                | 12 Claim { cell: 1, answer: Found(Claimed(7)) }
    12 finished
    0 claim IV65536 done 1 2 3             | 0 Claim { cell: 2, answer: Found(Done { publisher: 1, claimer: 2, rec: 3 }) }
    63 claim AA10 stale                    | 63 Claim { cell: 1, answer: Found(Stale) }
    63 value 40 18446744073709551615       | 63 StoreValue { rec: 40, k: 1, word: 18446744073709551615 }
    63 tag 41 281474976710656              | 63 StoreTag { rec: 41, word: 281474976710656 }
    63 finished
    5 publish IV65536 8 lost 1 2 9         | 5 Publish { cell: 2, rec: 8, answer: Lost { publisher: 1, claimer: 2, rec: 9 } }
    5 load-tag 17 10                       | 5 LoadTag { rec: 17, word: 10 }
    7 load-value 18 9223372036854775808    | 7 LoadValue { rec: 18, k: 1, word: 9223372036854775808 }
    5 take 199999                          | 5 TakeRecord { rec: 199999 }
    5 finished
";

#[test]
fn each_kind_of_event(rt: HostRuntime) -> Result<(), Fail> {
    let alloc = rt.alloc();
    tells(&rt, alloc, "B7 AA10 IV65536", &[7, 0], KINDS, 14)?;
    tells(&rt, alloc, "B7", &[], "", 0)
}
