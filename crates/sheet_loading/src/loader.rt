//! Sheets that are loaded one after the other.

ghost use Rattle.std.specs.Prelude.{◌≡◌, ◌<◌, ◌≤◌, ◌+◌, ◌-◌, [], ◌++◌, length, map, Ok, IfOk, IfErr, OnOk, OnErr, MatchResult};
ghost use Rattle.std.specs.List.{AllByRecursion};
ghost use Rattle.cell_values.specs.Addresses.{IsOnSheet};
ghost use Rattle.cell_values.specs.Fields.{IsRawOf};
ghost use Rattle.cell_values.specs.Interned.{KeepsTexts};
ghost use Rattle.cell_values.specs.Order.{addresses, InOrder, IsAfterAll};
ghost use Rattle.demand_spec.specs.Edits.{with_cell};
ghost use Rattle.workbook_core.specs.Edits.{IsField};
ghost use Rattle.formula_grammar.specs.Reading.{Reading, IsReading};
ghost use Rattle.sheet_loading.specs.declared.TheConstants.{SHEET_BYTES};
ghost use Rattle.sheet_loading.specs.Faults.{IsFaultInSheet, IsLoadFault, IsSheetsFault};
ghost use Rattle.sheet_loading.specs.Loaded.{HasTree, HaveTrees, IsPlaced, book_of, cells_in, held_by};
ghost use Rattle.sheet_loading.specs.Sheets.{sheet_added, sheets_read};

use crate::SHEET_BYTES;
use crate::faults::{LoadFault, SheetRefusal, SheetsFault};
use crate::fields::read_fields;
use cell_values::{Addr, MAX_BOOK_CELLS, Raw, SheetNames, Texts};
use std::alloc::{AllocError, Global};
use std::marker::Model;
use workbook_core::{EditFault, Workbook};

/// The sheets of a run, which come one after the other. Formulas may name each sheet of the run, those that are not
/// loaded yet too. Contracts see the fields so far with their texts, and what may still come; `book_of` is the book
/// of these fields.
#[derive(Drop)]
pub struct Loader {
    names: SheetNames,
    texts: Texts,
    fields: Vec<(Addr, Raw)>,
    left: usize,
    sheet: u8,
}

impl Model for Loader {
    ghost use Rattle.sheet_loading.specs.Loaded.{IsLoader, LoadedSheets};

    ghost Value = { LoadedSheets };

    ghost view = { λ s. record { names = s.names; texts = s.texts; fields = s.fields.items; left = s.left; sheet = s.sheet } };

    ghost invariant = { λ s. IsLoader s.names s.texts s.fields.items s.left s.sheet };
}

impl Loader {
    /// A loader without sheets. The names are those of all sheets that will come, in order.
    pub fn new(alloc: Global, names: SheetNames) -> Loader
        ensures { result ≡ record { names = names; texts = []; fields = []; left = SHEET_BYTES; sheet = 0 } }
    {
        Loader {
            names,
            texts: Texts::new(alloc),
            fields: Vec::new(alloc),
            left: SHEET_BYTES,
            sheet: 0,
        }
    }

    /// The names of all sheets of the run, in order.
    pub fn names(&self) -> &SheetNames
        ensures { result.now ≡ self.now.names }
    {
        &self.names
    }

    /// The number of the next sheet, counted from 0: as many are loaded.
    pub fn sheet(&self) -> u8
        ensures sheet { result ≡ self.now.sheet }
        ensures within { result ≤ length self.now.names }
    {
        self.sheet
    }

    /// How many bytes may still come: all sheets share 64 MiB.
    pub fn left(&self) -> usize
        ensures left { result ≡ self.now.left }
        ensures within { result ≤ SHEET_BYTES }
    {
        self.left
    }

    /// Adds the next sheet. Its fields are looked at first, then its formulas, both in order; the first fault is its
    /// refusal. A sheet that is refused leaves the book as it was, with more texts perhaps.
    pub fn add(&mut self, alloc: Global, bytes: &[u8]) -> Result<(), LoadFault>
        requires next { self.old.sheet < length self.old.names }
        ensures added { (read : Reading) → IsReading self.old.names read → MatchResult result
            (λ _. sheet_added read self.old.names self.old.sheet self.old.left (book_of read self.old) bytes.now ≡ Ok (book_of read self.new))
            (λ fault. IsLoadFault fault (sheet_added read self.old.names self.old.sheet self.old.left (book_of read self.old) bytes.now)) }
        ensures sheet { OnOk result (self.new.sheet ≡ self.old.sheet + 1) }
        ensures left { OnOk result (self.new.left + length bytes.now ≡ self.old.left) }
        ensures names { self.new.names ≡ self.old.names }
        ensures kept { KeepsTexts self.old.texts self.new.texts }
        ensures place { IfErr result (IsFaultInSheet self.old.sheet) }
        ensures err { OnErr result (self.new ≡ record self.old { texts = self.new.texts }) }
        ensures unchanged { OnErr result ((read : Reading) → IsReading self.old.names read →
            book_of read self.new ≡ record { cells = (book_of read self.old).cells; texts = self.new.texts }) }
    {
        if bytes.len() > self.left {
            return Err(LoadFault::Refused(SheetRefusal::TooLong));
        }
        let room = MAX_BOOK_CELLS - self.fields.len() as u32;
        let mut fields = read_fields(alloc, bytes, self.sheet, room, &self.names, &mut self.texts)?;
        self.fields.append(&mut fields)?;
        self.left -= bytes.len();
        self.sheet += 1;
        Ok(())
    }

    /// The workbook of the sheets that were added. It fails only for want of memory.
    pub fn finish(self, alloc: Global) -> Result<Workbook, AllocError>
        ensures book { IfOk result (λ workbook. (read : Reading) → IsReading self.names read → workbook.book ≡ book_of read self) }
        ensures names { IfOk result (λ workbook. workbook.names ≡ self.names) }
    {
        let workbook = fill_workbook(alloc, self.names, self.texts, &self.fields)?;
        Ok(workbook)
    }
}

/// The workbook of the fields.
fn fill_workbook(
    alloc: Global,
    names: SheetNames,
    texts: Texts,
    fields: &[(Addr, Raw)],
) -> Result<Workbook, AllocError>
    requires order { InOrder (addresses fields.now) }
    requires few { length fields.now ≤ MAX_BOOK_CELLS }
    requires placed { AllByRecursion (IsPlaced texts (length names)) fields.now }
    requires trees { HaveTrees names texts fields.now }
    ensures cells { IfOk result (λ workbook. (read : Reading) → IsReading names read → workbook.book.cells ≡ cells_in read texts fields.now) }
    ensures texts { IfOk result (λ workbook. workbook.book.texts ≡ texts) }
    ensures names { IfOk result (λ workbook. workbook.names ≡ names) }
{
    let mut workbook = Workbook::new(alloc, names, texts);
    for (at, raw) in fields {
        put_field(alloc, &mut workbook, *at, raw)?;
    }
    Ok(workbook)
}

/// Puts a field into a cell behind all others.
fn put_field(alloc: Global, workbook: &mut Workbook, at: Addr, raw: &Raw) -> Result<(), AllocError>
    requires on_sheet { IsOnSheet at }
    requires sheet { at.sheet < length workbook.old.names }
    requires text { IsRawOf workbook.old.book.texts raw.now }
    requires field { IsField raw.now }
    requires tree { HasTree workbook.old.names workbook.old.book.texts at raw.now }
    requires order { InOrder (addresses workbook.old.book.cells) }
    requires after { IsAfterAll at (addresses workbook.old.book.cells) }
    requires room { length workbook.old.book.cells < MAX_BOOK_CELLS }
    ensures cells { OnOk result ((read : Reading) → IsReading workbook.old.names read → workbook.new.book.cells ≡ workbook.old.book.cells ++ with_cell at (held_by read workbook.old.book.texts at raw.now) []) }
    ensures texts { OnOk result (workbook.new.book.texts ≡ workbook.old.book.texts) }
    ensures names { workbook.new.names ≡ workbook.old.names }
    ensures order { OnOk result (InOrder (addresses workbook.new.book.cells)) }
{
    match workbook.put(alloc, at, raw) {
        Ok(()) => Ok(()),
        Err(EditFault::OutOfMemory) => Err(AllocError),
        // The formula has a tree.
        Err(EditFault::BadFormula { .. }) => unreachable!(),
        // There is room.
        Err(EditFault::TooManyCells) => unreachable!(),
    }
}

/// The workbook of sheets in order, each with its name. The first that is refused decides.
pub fn load_sheets(
    alloc: Global,
    names: SheetNames,
    sheets: &[Vec<u8>],
) -> Result<Workbook, SheetsFault>
    requires { length sheets.now ≤ length names }
    ensures loaded { (read : Reading) → IsReading names read → MatchResult result
        (λ workbook. sheets_read read names (map (λ sheet. sheet.items) sheets.now) ≡ Ok workbook.book)
        (λ fault. IsSheetsFault fault (sheets_read read names (map (λ sheet. sheet.items) sheets.now))) }
    ensures names { IfOk result (λ workbook. workbook.names ≡ names) }
{
    let mut loader = Loader::new(alloc, names);
    for bytes in sheets {
        let sheet = loader.sheet();
        if let Err(fault) = loader.add(alloc, bytes) {
            return Err(fault.of_sheet(sheet));
        }
    }
    let workbook = loader.finish(alloc)?;
    Ok(workbook)
}
