//! The files of a run, as one workbook.

ghost use Rattle.std.specs.Prelude.{◌≡◌, ◌≤◌, ◌<◌, ◌+◌, ◌⊎◌, List, length, map, Some, string_bytes, IfOk, IfNone, MatchOption};
ghost use Rattle.byte_streams.specs.Faults.{HasRisen};
ghost use Rattle.byte_streams.specs.Folders.{StoredFile};
ghost use Rattle.formula_grammar.specs.Reading.{Reading, IsReading};
ghost use Rattle.sheet_loading.specs.declared.TheConstants.{SHEET_BYTES};
ghost use Rattle.sheet_loading.specs.Faults.{IsInSheet};
ghost use Rattle.sheet_loading.specs.Sheets.{no_cells, sheet_added};
ghost use Rattle.puncalc_program.specs.Files.{files_loaded, AddsFile, HasNames, IsLoadOf, IsSheetOf, LacksFile, LacksFiles, RefusesFile, StopsReading};
ghost use Rattle.puncalc_program.specs.Refusals.{sheet_refused};

use crate::refusals::sheet_refused;
use crate::stop::Stop;
use byte_streams::{FetchFault, Folder};
use cell_values::SheetNames;
use sheet_loading::{LoadFault, Loader, SheetRefusal};
use std::alloc::{AllocError, Global};
use workbook_core::Workbook;

/// What the sheets of a run come to.
#[derive(Drop)]
pub(crate) enum Loaded {
    /// The workbook of all sheets.
    Whole(Workbook),
    /// A sheet is refused: what stands behind `refused` in the line that tells it.
    Refused(String),
}

/// The workbook of one sheet.
pub(crate) fn load_sheet(
    alloc: Global,
    names: SheetNames,
    bytes: &[u8],
) -> Result<Loaded, AllocError>
    ensures loaded { (read : Reading) → IsReading names read → IfOk result (IsSheetOf names (sheet_added read names 0 SHEET_BYTES no_cells bytes.now)) }
    ensures names { IfOk result (HasNames names) }
{
    let mut loader = Loader::new(alloc, names);
    match loader.add(alloc, bytes) {
        Ok(()) => Ok(Loaded::Whole(loader.finish(alloc)?)),
        Err(LoadFault::Refused(why)) => Ok(Loaded::Refused(tell_refusal(alloc, &loader, why)?)),
        Err(LoadFault::OutOfMemory) => Err(AllocError),
    }
}

/// The refusal of the sheet that was to come next, in words.
fn tell_refusal(alloc: Global, loader: &Loader, why: SheetRefusal) -> Result<String, AllocError>
    requires next { loader.now.sheet < length loader.now.names }
    requires place { IsInSheet loader.now.sheet why }
    ensures { IfOk result (λ what. string_bytes what ≡ sheet_refused loader.now.names loader.now.sheet why) }
{
    sheet_refused(alloc, loader.names(), loader.sheet(), why)
}

/// The workbook of the files' sheets, in order.
pub(crate) fn load_files<D: Folder>(
    alloc: Global,
    names: SheetNames,
    files: &[String],
    folder: &mut D,
) -> Result<Loaded, Stop>
    requires { length files.now ≤ length names }
    ensures loaded { (read : Reading) → IsReading names read → (told : List StoredFile) → D.files folder.old ≡ Some told →
        IfOk result (IsLoadOf names (files_loaded read names told (map string_bytes files.now))) }
    ensures names { IfOk result (HasNames names) }
    ensures files { D.files folder.new ≡ D.files folder.old }
    ensures causes { StopsReading (HasRisen (D.faults folder.old) (D.faults folder.new) ⊎ LacksFiles names (D.files folder.old) (map string_bytes files.now)) result }
    ensures never_falls { D.faults folder.old ≤ D.faults folder.new }
{
    let mut loader = Loader::new(alloc, names);
    for file in files {
        match add_file(alloc, &mut loader, file, folder)? {
            Some(what) => return Ok(Loaded::Refused(what)),
            None => {}
        }
    }
    Ok(Loaded::Whole(loader.finish(alloc)?))
}

/// Adds the sheet of one file. Answers its refusal in words, if it is refused.
fn add_file<D: Folder>(
    alloc: Global,
    loader: &mut Loader,
    file: &str,
    folder: &mut D,
) -> Result<Option<String>, Stop>
    requires { loader.old.sheet < length loader.old.names }
    ensures added { (read : Reading) → IsReading loader.old.names read → (told : List StoredFile) → D.files folder.old ≡ Some told →
        IfOk result (λ refused. MatchOption refused (AddsFile read told file.now loader.old loader.new) (λ what. RefusesFile read told file.now loader.old (string_bytes what))) }
    ensures sheet { IfOk result (λ refused. IfNone refused (loader.new.sheet ≡ loader.old.sheet + 1)) }
    ensures names { loader.new.names ≡ loader.old.names }
    ensures files { D.files folder.new ≡ D.files folder.old }
    ensures causes { StopsReading (HasRisen (D.faults folder.old) (D.faults folder.new) ⊎ LacksFile (D.files folder.old) file.now) result }
    ensures never_falls { D.faults folder.old ≤ D.faults folder.new }
{
    let bytes = match folder.fetch(alloc, file, loader.left()) {
        Ok(bytes) => bytes,
        Err(FetchFault::TooLong) => {
            return Ok(Some(tell_refusal(alloc, loader, SheetRefusal::TooLong)?));
        }
        Err(FetchFault::Failed | FetchFault::NotThere) => return Err(Stop::Read),
        Err(FetchFault::OutOfMemory) => return Err(Stop::Memory),
    };
    match loader.add(alloc, &bytes) {
        Ok(()) => Ok(None),
        Err(LoadFault::Refused(why)) => Ok(Some(tell_refusal(alloc, loader, why)?)),
        Err(LoadFault::OutOfMemory) => Err(Stop::Memory),
    }
}
