//! The top call.

ghost use Rattle.std.specs.Prelude.{◌≡◌, ◌≢◌, ◌≤◌, ◌+◌, [], List, true, false, None, Some, IfSome, IfOk, map, string_bytes};
ghost use Rattle.std.specs.Option.{option_map};
ghost use Rattle.byte_streams.specs.Faults.{HasRisen};
ghost use Rattle.byte_streams.specs.Folders.{StoredFile};
ghost use Rattle.command_words.specs.Asking.{asked, request_of};
ghost use Rattle.command_words.specs.Sound.{IsSound};
ghost use Rattle.puncalc_program.specs.Output.{are_accepted, ask_for_input, asks_for_files, is_edit, is_reading, is_request, output, request_output, words_refused, AreReadings, Readings};
ghost use Rattle.puncalc_program.specs.Run.{Answers, AnswersAll, CouldNotRead, Ends, IsFinal, IsStatus, NeverReads, RunEnds, StopsFor, most_reads};
ghost use Rattle.puncalc_program.specs.Writing.{sunk};

use crate::commands::{edit, show};
use crate::demo::demo;
use crate::desk::Workers;
use crate::stop::Stop;
use crate::trace::trace;
use crate::writing::refuse;
use byte_streams::{Folder, Sink, Source};
use claim_core::Outcome;
use command_words::{Asked, read_words};
use formula_grammar::laws::law_one_reading;
use recalculation::Pace;
use std::alloc::Global;
use std::thread::Threads;

/// Runs the program on the words that stand behind its name, and answers its status.
///
/// `show` and `trace` read one sheet from the input; `edit` fetches its sheets from the folder, and reads a script from the
/// input; `demo` reads nothing.
/// The status is 0 where all was accepted, 2 where the words are refused, 3 where a sheet or its name is refused, 4 where
/// the script or a line of it is refused, 5 where the input or a file could not be read, 6 where the output could not be
/// written, and 7 where there was no memory. `kept` gets the closed round of the last recalculation that had something to
/// do, or nothing; where the status is 5, 6 or 7 it may hold anything.
pub fn run<R: Threads + Sync, D: Folder, S: Source, K: Sink, P: Pace>(
    rt: &R,
    alloc: Global,
    words: &Vec<String>,
    folder: &mut D,
    input: &mut S,
    out: &mut K,
    pace: &P,
    kept: &mut Option<Outcome>,
) -> u8
    ensures ends { (files : List StoredFile) → (asks_for_files (map string_bytes words.now.items) ≡ true → D.files folder.old ≡ Some files) →
        IfSome (S.left input.old) (λ bytes. (read : Readings) → AreReadings read →
        Ends (output read (map string_bytes words.now.items) files bytes) result (sunk K.written K.faults K.calls out.old) (sunk K.written K.faults K.calls out.new) kept.new) }
    // There is a reading of all texts, and any two agree on each formula.
    ensures readable { (read : Readings) × AreReadings read }
    ensures statuses { IsStatus result }
    ensures read_whole { ask_for_input (map string_bytes words.now.items) ≡ true → result ≡ 0 → S.left input.new ≡ option_map (λ _. []) (S.left input.old) }

    // The words alone decide on status 2. Nothing is read then, and nothing by `demo`.
    ensures refused_words { are_accepted (map string_bytes words.now.items) ≡ false →
        RunEnds words_refused result (sunk K.written K.faults K.calls out.old) (sunk K.written K.faults K.calls out.new) kept.new }
    ensures unread { ask_for_input (map string_bytes words.now.items) ≡ false →
        (S.left input.new ≡ S.left input.old) × (S.faults input.new ≡ S.faults input.old) × (S.calls input.new ≡ S.calls input.old) × (result ≢ 5) }
    ensures words_alone { result ≡ 2 → are_accepted (map string_bytes words.now.items) ≡ false }

    // The folder is asked for the files of `edit` alone, and goes on telling what it told.
    ensures unfetched { asks_for_files (map string_bytes words.now.items) ≡ false → D.faults folder.new ≡ D.faults folder.old }
    ensures same_files { D.files folder.new ≡ D.files folder.old }

    ensures read_failed { result ≡ 5 → CouldNotRead (asked (map string_bytes words.now.items)) (S.faults input.old, S.faults input.new) (D.faults folder.old, D.faults folder.new) (D.files folder.old) }
    ensures write_failed { result ≡ 6 → HasRisen (K.faults out.old) (K.faults out.new) }
    ensures few_reads { S.calls input.new ≤ S.calls input.old + most_reads (asked (map string_bytes words.now.items)) }
{
    law_one_reading();
    *kept = None;
    match answer(rt, alloc, words, folder, input, out, pace, kept) {
        Ok(status) => status,
        Err(Stop::Read) => 5,
        Err(Stop::Write) => 6,
        Err(Stop::Memory) => 7,
    }
}

/// The status of a run that did not have to stop.
#[tactic(auto, unfolding(crate::specs::Output::output))]
fn answer<R: Threads + Sync, D: Folder, S: Source, K: Sink, P: Pace>(
    rt: &R,
    alloc: Global,
    words: &Vec<String>,
    folder: &mut D,
    input: &mut S,
    out: &mut K,
    pace: &P,
    kept: &mut Option<Outcome>,
) -> Result<u8, Stop>
    requires { kept.old ≡ None }
    ensures answers { (files : List StoredFile) → (is_edit (asked (map string_bytes words.now.items)) ≡ true → D.files folder.old ≡ Some files) →
        IfSome (S.left input.old) (λ bytes. (read : Readings) → AreReadings read →
        AnswersAll (request_output read (asked (map string_bytes words.now.items)) files bytes) (sunk K.written K.faults K.calls out.old) (sunk K.written K.faults K.calls out.new) kept.new result) }
    ensures read_whole { is_reading (asked (map string_bytes words.now.items)) ≡ true → IfOk result (λ status. status ≡ 0 → S.left input.new ≡ option_map (λ _. []) (S.left input.old)) }
    ensures refused_words { is_request (asked (map string_bytes words.now.items)) ≡ false →
        Answers words_refused (sunk K.written K.faults K.calls out.old) (sunk K.written K.faults K.calls out.new) kept.new result }
    ensures unread { is_reading (asked (map string_bytes words.now.items)) ≡ false →
        (S.left input.new ≡ S.left input.old) × (S.faults input.new ≡ S.faults input.old) × (S.calls input.new ≡ S.calls input.old) × NeverReads result }
    ensures words_alone { IfOk result (λ status. status ≡ 2 → is_request (asked (map string_bytes words.now.items)) ≡ false) }
    ensures unfetched { is_edit (asked (map string_bytes words.now.items)) ≡ false → D.faults folder.new ≡ D.faults folder.old }
    ensures same_files { D.files folder.new ≡ D.files folder.old }
    ensures ended { IfOk result IsFinal }
    ensures causes { StopsFor (CouldNotRead (asked (map string_bytes words.now.items)) (S.faults input.old, S.faults input.new) (D.faults folder.old, D.faults folder.new) (D.files folder.old))
        (sunk K.written K.faults K.calls out.old) (sunk K.written K.faults K.calls out.new) result }
    ensures few_reads { S.calls input.new ≤ S.calls input.old + most_reads (asked (map string_bytes words.now.items)) }
{
    let asked = read_words(alloc, words)?;
    act(rt, alloc, asked, folder, input, out, pace, kept)
}

/// The same, of what the words ask for.
fn act<R: Threads + Sync, D: Folder, S: Source, K: Sink, P: Pace>(
    rt: &R,
    alloc: Global,
    asked: Option<Asked>,
    folder: &mut D,
    input: &mut S,
    out: &mut K,
    pace: &P,
    kept: &mut Option<Outcome>,
) -> Result<u8, Stop>
    requires sound { IfSome asked (λ a. IsSound (request_of a)) }
    requires kept { kept.old ≡ None }
    ensures answers { (files : List StoredFile) → (is_edit (option_map request_of asked) ≡ true → D.files folder.old ≡ Some files) →
        IfSome (S.left input.old) (λ bytes. (read : Readings) → AreReadings read →
        AnswersAll (request_output read (option_map request_of asked) files bytes) (sunk K.written K.faults K.calls out.old) (sunk K.written K.faults K.calls out.new) kept.new result) }
    ensures read_whole { is_reading (option_map request_of asked) ≡ true → IfOk result (λ status. status ≡ 0 → S.left input.new ≡ option_map (λ _. []) (S.left input.old)) }
    ensures refused_words { is_request (option_map request_of asked) ≡ false →
        Answers words_refused (sunk K.written K.faults K.calls out.old) (sunk K.written K.faults K.calls out.new) kept.new result }
    ensures unread { is_reading (option_map request_of asked) ≡ false →
        (S.left input.new ≡ S.left input.old) × (S.faults input.new ≡ S.faults input.old) × (S.calls input.new ≡ S.calls input.old) × NeverReads result }
    ensures words_alone { IfOk result (λ status. status ≡ 2 → is_request (option_map request_of asked) ≡ false) }
    ensures unfetched { is_edit (option_map request_of asked) ≡ false → D.faults folder.new ≡ D.faults folder.old }
    ensures same_files { D.files folder.new ≡ D.files folder.old }
    ensures ended { IfOk result IsFinal }
    ensures causes { StopsFor (CouldNotRead (option_map request_of asked) (S.faults input.old, S.faults input.new) (D.faults folder.old, D.faults folder.new) (D.files folder.old))
        (sunk K.written K.faults K.calls out.old) (sunk K.written K.faults K.calls out.new) result }
    ensures few_reads { S.calls input.new ≤ S.calls input.old + most_reads (option_map request_of asked) }
{
    match asked {
        Some(Asked::Show { workers }) => {
            let workers = Workers {
                rt,
                pace,
                count: workers,
            };
            show(alloc, &workers, input, out, kept)
        }
        Some(Asked::Edit { workers, files }) => {
            let workers = Workers {
                rt,
                pace,
                count: workers,
            };
            edit(alloc, &workers, &files, folder, input, out, kept)
        }
        Some(
            Asked::Trace {
                workers,
                order,
                stopped,
            },
        ) => trace(alloc, workers, &order, &stopped, input, out, kept),
        Some(Asked::Demo { workers, count }) => {
            let workers = Workers {
                rt,
                pace,
                count: workers,
            };
            demo(alloc, &workers, count, out, kept)
        }
        None => refuse(alloc, 2, "words", out),
    }
}
