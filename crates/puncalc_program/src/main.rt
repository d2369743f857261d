//! Puncalc recalculates spreadsheets: what a cell shows follows from its formula alone, with errors as
//! values and with marks for cycles.
#![tactic(auto)]

mod commands;
mod demo;
mod desk;
#[cfg(test)]
mod device_tests;
mod files;
mod formulas;
mod input;
mod lines;
mod names;
mod refusals;
mod run;
mod script;
mod stop;
mod tally;
#[cfg(test)]
mod tests;
mod trace;
mod writing;

use byte_streams::{StdFolder, StdSink, StdSource};
use recalculation::NoPace;
use std::alloc::Global;
use std::process::ExitCode;
use std::{env, io};

fn main(rt: HostRuntime) -> ExitCode {
    let alloc = rt.alloc();
    let words = match words(&rt) {
        Ok(words) => words,
        Err(error) if error.kind() == io::ErrorKind::OutOfMemory => return ExitCode::from(7),
        // A word that is no UTF-8 is none that is accepted.
        Err(_) => Vec::new(alloc),
    };
    let mut folder = StdFolder::new(&rt);
    let mut input = StdSource::new(rt.stdin());
    let mut out = StdSink::new(rt.stdout());
    let mut kept = None;
    let status = run::run(
        &rt,
        alloc,
        &words,
        &mut folder,
        &mut input,
        &mut out,
        &NoPace,
        &mut kept,
    );
    ExitCode::from(status)
}

/// The words behind the program's name.
fn words(rt: &HostRuntime) -> io::Result<Vec<String>> {
    let words: Vec<String, Global> = env::args(rt)?.skip(1).collect(rt.alloc())?;
    Ok(words)
}
