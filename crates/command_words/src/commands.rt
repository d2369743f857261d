//! Each command, by clap's matches.

ghost use Rattle.std.specs.Prelude.{◌≡◌, ◌==◌, ◌<◌, not, IfOk, IfSome, length, drop, map, option_map, string_bytes};
ghost use Rattle.clap.specs.Words.{first_value, found_of};
ghost use Rattle.command_words.specs.Matching.{others_in};
ghost use Rattle.command_words.specs.Asking.{demos, edits, order_in, order_name, plainly, request_of, shows, stop_name, stopped_in, traced, traces, workers_in, workers_name};

use crate::numbers::{ascends, read_list, read_number};
use crate::sorting::sort_words;
use crate::{
    Asked, MAX_DEMO_CELLS, MAX_FILES, MAX_ORDERED, MAX_STOPPED, MAX_WORKERS, USUAL_WORKERS,
};
use clap::ArgMatches;
use std::alloc::{AllocError, Global};

/// The option of each command.
static WORKERS: [&str; 1] = ["workers"];

/// The options of `trace`.
static TRACED: [&str; 3] = ["workers", "order", "stop"];

/// There are words other than options and their values.
#[tactic(auto, using(crate::proofs::Requests::same_length))]
fn has_others<'a>(matches: &ArgMatches<'a>) -> bool
    ensures { result ≡ not (length (others_in (found_of matches.now)) == 0) }
{
    match matches.get_strs("others") {
        Some(words) => !words.is_empty(),
        None => false,
    }
}

/// The number of workers, and the usual one without the option.
fn workers<'a>(matches: &ArgMatches<'a>) -> Option<u8>
    ensures workers { result ≡ workers_in (first_value (found_of matches.now) workers_name) }
    ensures some { IfSome result (λ workers. 0 < workers) }
{
    match matches.get_str("workers") {
        Some(text) => match read_number(text, 1, u32::from(MAX_WORKERS)) {
            Some(number) => Some(number as u8),
            None => None,
        },
        None => Some(USUAL_WORKERS),
    }
}

/// `show` has no other words.
fn show_of<'a>(matches: &ArgMatches<'a>) -> Option<Asked>
    ensures { option_map request_of result ≡ shows (others_in (found_of matches.now)) (first_value (found_of matches.now) workers_name) }
{
    if has_others(matches) {
        return None;
    }
    let workers = workers(matches)?;
    Some(Asked::Show { workers })
}

/// `edit` has one file or more.
fn edit_of<'a>(alloc: Global, matches: &ArgMatches<'a>) -> Result<Option<Asked>, AllocError>
    ensures { IfOk result (λ read. option_map request_of read ≡ edits (others_in (found_of matches.now)) (first_value (found_of matches.now) workers_name)) }
{
    let Some(files) = matches.get_strs("others") else {
        return Ok(None);
    };
    if files.is_empty() {
        return Ok(None);
    }
    if files.len() > MAX_FILES {
        return Ok(None);
    }
    let Some(workers) = workers(matches) else {
        return Ok(None);
    };
    let files = copy_texts(alloc, files)?;
    Ok(Some(Asked::Edit { workers, files }))
}

/// The texts, owned.
fn copy_texts<'a>(alloc: Global, texts: &[&'a str]) -> Result<Vec<String>, AllocError>
    ensures { IfOk result (λ copies. map string_bytes copies.items ≡ map (λ text. text.now) texts.now) }
{
    let mut copies = Vec::new(alloc);
    for text in texts {
        let copy = String::from_str(alloc, text)?;
        copies.push(copy)?;
    }
    Ok(copies)
}

/// `demo` has one count.
fn demo_of<'a>(matches: &ArgMatches<'a>) -> Option<Asked>
    ensures { option_map request_of result ≡ demos (others_in (found_of matches.now)) (first_value (found_of matches.now) workers_name) }
{
    let Some([count]) = matches.get_strs("others") else {
        return None;
    };
    let workers = workers(matches)?;
    let count = read_number(count, 1, MAX_DEMO_CELLS)?;
    Some(Asked::Demo { workers, count })
}

/// `trace` has no other words.
fn trace_of<'a>(alloc: Global, matches: &ArgMatches<'a>) -> Result<Option<Asked>, AllocError>
    ensures { IfOk result (λ read. option_map request_of read ≡ traces (others_in (found_of matches.now)) (first_value (found_of matches.now) workers_name) (first_value (found_of matches.now) order_name) (first_value (found_of matches.now) stop_name)) }
{
    if has_others(matches) {
        return Ok(None);
    }
    let Some(workers) = workers(matches) else {
        return Ok(None);
    };
    let Some(order) = order_of(alloc, matches, workers)? else {
        return Ok(None);
    };
    let Some(stopped) = stopped_of(alloc, matches, workers)? else {
        return Ok(None);
    };
    Ok(Some(Asked::Trace {
        workers,
        order,
        stopped,
    }))
}

/// Which worker makes each step.
fn order_of<'a>(
    alloc: Global,
    matches: &ArgMatches<'a>,
    workers: u8,
) -> Result<Option<Vec<u8>>, AllocError>
    requires { 0 < workers }
    ensures { IfOk result (λ order. option_map (λ v. v.items) order ≡ order_in workers (first_value (found_of matches.now) order_name)) }
{
    match matches.get_str("order") {
        Some(text) => read_list(alloc, text, workers, MAX_ORDERED),
        None => Ok(Some(Vec::new(alloc))),
    }
}

/// The workers that stop, ascending and not all of them.
fn stopped_of<'a>(
    alloc: Global,
    matches: &ArgMatches<'a>,
    workers: u8,
) -> Result<Option<Vec<u8>>, AllocError>
    requires { 0 < workers }
    ensures { IfOk result (λ stopped. option_map (λ v. v.items) stopped ≡ stopped_in workers (first_value (found_of matches.now) stop_name)) }
{
    let Some(text) = matches.get_str("stop") else {
        return Ok(Some(Vec::new(alloc)));
    };
    let Some(stopped) = read_list(alloc, text, workers, MAX_STOPPED)? else {
        return Ok(None);
    };
    if !ascends(&stopped) {
        return Ok(None);
    }
    if stopped.len() >= usize::from(workers) {
        return Ok(None);
    }
    Ok(Some(stopped))
}

/// Reads the words of `show`.
#[tactic(auto, using(crate::proofs::Requests::show_refused, crate::proofs::Requests::show_found))]
pub(crate) fn read_show(alloc: Global, words: &[String]) -> Result<Option<Asked>, AllocError>
    requires { 0 < length words.now }
    ensures { IfOk result (λ read. option_map request_of read ≡ plainly shows (drop 1 (map string_bytes words.now))) }
{
    match sort_words(alloc, WORKERS.as_slice(), words)? {
        Some(matches) => Ok(show_of(&matches)),
        None => Ok(None),
    }
}

/// Reads the words of `edit`.
#[tactic(auto, using(crate::proofs::Requests::edit_refused, crate::proofs::Requests::edit_found))]
pub(crate) fn read_edit(alloc: Global, words: &[String]) -> Result<Option<Asked>, AllocError>
    requires { 0 < length words.now }
    ensures { IfOk result (λ read. option_map request_of read ≡ plainly edits (drop 1 (map string_bytes words.now))) }
{
    match sort_words(alloc, WORKERS.as_slice(), words)? {
        Some(matches) => edit_of(alloc, &matches),
        None => Ok(None),
    }
}

/// Reads the words of `demo`.
#[tactic(auto, using(crate::proofs::Requests::demo_refused, crate::proofs::Requests::demo_found))]
pub(crate) fn read_demo(alloc: Global, words: &[String]) -> Result<Option<Asked>, AllocError>
    requires { 0 < length words.now }
    ensures { IfOk result (λ read. option_map request_of read ≡ plainly demos (drop 1 (map string_bytes words.now))) }
{
    match sort_words(alloc, WORKERS.as_slice(), words)? {
        Some(matches) => Ok(demo_of(&matches)),
        None => Ok(None),
    }
}

/// Reads the words of `trace`.
#[tactic(auto, using(crate::proofs::Requests::traced_refused, crate::proofs::Requests::traced_found))]
pub(crate) fn read_trace(alloc: Global, words: &[String]) -> Result<Option<Asked>, AllocError>
    requires { 0 < length words.now }
    ensures { IfOk result (λ read. option_map request_of read ≡ traced (drop 1 (map string_bytes words.now))) }
{
    match sort_words(alloc, TRACED.as_slice(), words)? {
        Some(matches) => trace_of(alloc, &matches),
        None => Ok(None),
    }
}
