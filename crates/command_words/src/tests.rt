//! A table of command lines, with what they ask for.

use crate::{Asked, read_words};
use std::alloc::{AllocError, Global};
use std::test::Fail;

/// Command lines, each with what it asks for. `_` stands for a word without bytes.
const LINES: &str = "
    show => show 4
    show --workers 64 => show 64
    show --workers 1 => show 1
    show --workers=7 => show 7
    show --workers=1 -- => show 1
    show -- => show 4
    show --workers 0 => refused
    show --workers 65 => refused
    show --workers 04 => refused
    show --workers +4 => refused
    show --workers=+4 => refused
    show --workers -1 => refused
    show --workers four => refused
    show --workers 4294967297 => refused
    show --workers= => refused
    show --workers => refused
    show --workers -- 4 => refused
    show --workers 2 --workers=2 => refused
    show --worker 2 => refused
    show --Workers 2 => refused
    show -workers 2 => refused
    show x => refused
    show - => refused
    show _ => refused
    show -- x => refused
    show --help => refused
    show -h => refused
    show --version => refused
    show --order 0 => refused
    show show => refused
    Show => refused
    sho => refused
    frob => refused
    help => refused
    --help => refused
    -- show => refused
    --workers 4 show => refused
    _ => refused
    edit a.csv => edit 4 a.csv
    edit a.csv b/a.csv => edit 4 a.csv b/a.csv
    edit a.csv --workers 2 b.csv => edit 2 a.csv b.csv
    edit --workers=2 a.csv => edit 2 a.csv
    edit - => edit 4 -
    edit -- --workers => edit 4 --workers
    edit -- -x -- => edit 4 -x --
    edit --workers 2 -- --workers 3 => edit 2 --workers 3
    edit 1 2 3 4 5 6 7 8 9 10 11 12 13 14 15 16 => edit 4 1 2 3 4 5 6 7 8 9 10 11 12 13 14 15 16
    edit 1 2 3 4 5 6 7 8 9 10 11 12 13 14 15 16 17 => refused
    edit => refused
    edit -- => refused
    edit --workers 2 => refused
    edit a.csv -b => refused
    edit a.csv --workers => refused
    edit a.csv --stop 0 => refused
    trace => trace 4 order stop
    trace --workers 2 --order 0,1,0 => trace 2 order 0 1 0 stop
    trace --stop=0 --order 0,1,0 --workers 2 => trace 2 order 0 1 0 stop 0
    trace --workers 3 --stop 0,2 => trace 3 order stop 0 2
    trace --order 4 => refused
    trace --order 3 => trace 4 order 3 stop
    trace --order _ => refused
    trace --order 0, => refused
    trace --order ,0 => refused
    trace --order 00 => refused
    trace --order 0;1 => refused
    trace --workers 2 --stop 0,1 => refused
    trace --workers 2 --stop 2 => refused
    trace --workers 2 --stop 0,0 => refused
    trace --workers 3 --stop 1,0 => refused
    trace --workers 1 --stop 0 => refused
    trace a.csv => refused
    demo 200000 => demo 4 200000
    demo --workers 64 1 => demo 64 1
    demo 16 --workers 2 => demo 2 16
    demo -- 16 => demo 4 16
    demo 0 => refused
    demo 200001 => refused
    demo 016 => refused
    demo => refused
    demo 1 2 => refused
    demo -1 => refused
    demo -- -1 => refused
";

/// How many lines the table has.
const COUNT: usize = 82;

fn push_numbers(text: &mut String, numbers: &[u8]) -> Result<(), AllocError> {
    for number in numbers {
        write!(text, " {number}")?;
    }
    Ok(())
}

/// What words ask for, as the table spells it.
fn spell(alloc: Global, asked: &Option<Asked>) -> Result<String, AllocError> {
    let mut text = String::new(alloc);
    match asked {
        None => text.push_str("refused")?,
        Some(Asked::Show { workers }) => write!(text, "show {workers}")?,
        Some(Asked::Edit { workers, files }) => {
            write!(text, "edit {workers}")?;
            for file in files {
                write!(text, " {file}")?;
            }
        }
        Some(
            Asked::Trace {
                workers,
                order,
                stopped,
            },
        ) => {
            write!(text, "trace {workers} order")?;
            push_numbers(&mut text, order)?;
            text.push_str(" stop")?;
            push_numbers(&mut text, stopped)?;
        }
        Some(Asked::Demo { workers, count }) => write!(text, "demo {workers} {count}")?,
    }
    Ok(text)
}

/// The words of a line of the table.
fn words_of(alloc: Global, line: &str) -> Result<Vec<String>, AllocError> {
    let mut words = Vec::new(alloc);
    for word in line.split(' ') {
        let word = if word == "_" { "" } else { word };
        words.push(String::from_str(alloc, word)?)?;
    }
    Ok(words)
}

#[test]
fn asks_for_what_the_words_say(rt: HostRuntime) -> Result<(), Fail> {
    let alloc = rt.alloc();
    let mut count: usize = 0;
    for line in LINES.lines() {
        let Some((words, want)) = line.trim_start().split_once(" => ") else {
            continue;
        };
        let asked = read_words(alloc, &words_of(alloc, words)?)?;
        assert_eq!(rt; spell(alloc, &asked)?.as_str(), want, "{words}");
        count = count.saturating_add(1);
    }
    assert_eq!(rt; count, COUNT);
    let none = Vec::new(alloc);
    assert!(rt; read_words(alloc, &none)?.is_none());
    Ok(())
}
