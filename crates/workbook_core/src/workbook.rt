//! Workbooks.
ghost use Rattle.std.specs.Prelude.{◌≡◌, ℕ, ℤ, ◌<◌, ◌≤◌, ◌*◌, ◌&&◌, nat_le, nat_lt, [], Some, None, true, is_some, is_none, length, option_map, IfOk, IfErr, IfSome, OnOk, OnErr, MatchResult, All};
ghost use Rattle.cell_values.specs.declared.TheConstants.{MAX_BOOK_CELLS};
ghost use Rattle.cell_values.specs.Addresses.{IsOnSheet};
ghost use Rattle.cell_values.specs.Areas.{height, width, is_inside, IsArea};
ghost use Rattle.cell_values.specs.Fields.{raw_of, IsRawOf};
ghost use Rattle.std.specs.Str.{IsUtf8};
ghost use Rattle.cell_values.specs.Interned.{AreDistinct, KeepsTexts};
ghost use Rattle.cell_values.specs.Names.{AreSheetNames};
ghost use Rattle.cell_values.specs.declared.fields.Raw.{Raw};
ghost use Rattle.cell_values.specs.Order.{addresses, entry_at};
ghost use Rattle.formula_tokens.specs.Words.{begins_with};
ghost use Rattle.formula_grammar.specs.declared.faults.FaultKind.{FaultKind};
ghost use Rattle.demand_spec.specs.Book.{Content};
ghost use Rattle.shared_expressions.specs.Trees.{KeepsTrees};
ghost use Rattle.workbook_core.specs.Apart.{cells_of, with_cells};
ghost use Rattle.workbook_core.specs.Copies.{CopiesAreThere, StaysOn};
ghost use Rattle.workbook_core.specs.Books.{next_in, extent_in, IsWorkbook};
ghost use Rattle.demand_spec.specs.Edits.{Put, Copy, IsApplied, IsTooLarge};
ghost use Rattle.workbook_core.specs.Edits.{Puts, with_field, FieldHasFault, IsField, IsPutFault, IsCopyFault, IsThisFault, IsTooMany};
ghost use Rattle.workbook_core.specs.Faults.{IsFieldFault, IsOutOfMemory, IsRead, IsWithoutRoom};
ghost use Rattle.workbook_core.specs.Held.{content_in, holds_formula, IsHeldOf, SetsHeld};
ghost use Rattle.workbook_core.specs.WithNumber.{with_number};

use crate::apart::CellsApart;
use crate::cells::CellMap;
use crate::copies::{addresses_of, copy_cells};
use crate::{Content, EditFault};
use cell_values::{Addr, Area, FieldText, MAX_BOOK_CELLS, MAX_RANGE_CELLS, Raw, SheetNames, Texts};
use demand_spec::BookView;
use formula_grammar::{FormulaFault, read_formula};
use shared_expressions::Pool;
use std::alloc::{AllocError, Global};
use std::marker::Model;

/// The cells of all sheets, with the names of the sheets and the texts. Formulas that are copies of one another
/// share one expression. Contracts see a finite map from addresses to cells, as a list in order of address.
#[derive(Drop)]
pub struct Workbook {
    cells: CellMap,
    sheets: SheetNames,
    texts: Texts,
    pool: Pool,
}

impl Model for Workbook {
    ghost use Rattle.workbook_core.specs.Books.{SharedBook};

    ghost Value = { SharedBook };

    ghost use Rattle.std.specs.Coded.{codes};
    ghost use Rattle.formula_trees.specs.ExprCode.{expr_code};

    ghost coded = { Prim.hlevel (codes, expr_code) };

    ghost use Rattle.workbook_core.specs.Books.{shared_book, IsKept};

    ghost view = { λ w. shared_book w.cells w.texts w.sheets w.pool };

    ghost invariant = { λ w. IsKept w.cells w.texts w.sheets w.pool };
}

impl Workbook {
    /// A workbook without cells.
    pub fn new(alloc: Global, sheets: SheetNames, texts: Texts) -> Workbook
        ensures { result ≡ record { book = record { cells = []; texts = texts }; names = sheets; pool = [] } }
    {
        Workbook {
            cells: CellMap::new(alloc),
            sheets,
            texts,
            pool: Pool::new(alloc),
        }
    }

    /// What a cell holds, None where it is empty.
    pub fn content(&self, at: Addr) -> Option<Content>
        ensures content { option_map (content_in self.now.pool) result ≡ entry_at self.now.book.cells at }
        ensures id { IfSome result (IsHeldOf self.now.pool) }
        ensures workbook { IsWorkbook self.now }
    {
        self.cells.get(at)
    }

    /// How many cells are not empty.
    pub fn count(&self) -> u32
        ensures count { result ≡ length self.now.book.cells }
        ensures few { result ≤ MAX_BOOK_CELLS }
        ensures workbook { IsWorkbook self.now }
    {
        self.cells.len() as u32
    }

    /// Whether there would be too many cells with a number in this one.
    pub fn is_full_for(&self, at: Addr) -> bool
        ensures { (n : ℤ) → result ≡ nat_lt MAX_BOOK_CELLS (length (with_number self.now.book at n).cells) }
    {
        is_full(self.content(at), self.count())
    }

    /// The first cell that is not empty and lies behind the given address, or the first of all.
    pub fn next_cell(&self, after: Option<Addr>) -> Option<Addr>
        ensures { result ≡ next_in self.now.book.cells after }
    {
        self.cells.next(after)
    }

    /// The last row and the last column that hold a cell of the sheet, None for an empty sheet.
    pub fn extent(&self, sheet: u8) -> Option<(u32, u16)>
        ensures { result ≡ extent_in sheet self.now.book.cells }
    {
        self.cells.extent(sheet)
    }

    /// The names of the sheets.
    pub fn sheets(&self) -> &SheetNames
        ensures names { result.now ≡ self.now.names }
        ensures sound { AreSheetNames self.now.names }
    {
        // `count` tells what all lists of names keep.
        let _count = self.sheets.count();
        &self.sheets
    }

    /// The texts of the cells and formulas.
    pub fn texts(&self) -> &Texts
        ensures texts { result.now ≡ self.now.book.texts }
        ensures distinct { AreDistinct self.now.book.texts }
        ensures utf8 { All IsUtf8 self.now.book.texts }
    {
        // `count` tells what all interned texts keep.
        let _count = self.texts.count();
        &self.texts
    }

    /// The expressions of the formulas.
    pub fn pool(&self) -> &Pool
        ensures { result.now ≡ self.now.pool }
    {
        &self.pool
    }

    /// Reads a field on the workbook's own texts.
    pub fn read_raw(&mut self, alloc: Global, field: &str) -> Result<Raw, AllocError>
        ensures ok { IfOk result (λ raw. (self.new.book.texts, raw) ≡ raw_of self.old.book.texts field.now) }
        ensures there { IfOk result (IsRawOf self.new.book.texts) }
        ensures field { IfOk result IsField }
        ensures cells { self.new.book.cells ≡ self.old.book.cells }
        ensures names { self.new.names ≡ self.old.names }
        ensures pool { self.new.pool ≡ self.old.pool }
        ensures kept { KeepsTexts self.old.book.texts self.new.book.texts }
        ensures err { OnErr result (self.new.book.texts ≡ self.old.book.texts) }
    {
        Raw::read(alloc, field, &mut self.texts)
    }

    /// Clears a cell.
    pub fn clear(&mut self, at: Addr)
        ensures applied { IsApplied (Put at None) self.old.book.cells self.new.book.cells }
        ensures texts { self.new.book.texts ≡ self.old.book.texts }
        ensures names { self.new.names ≡ self.old.names }
        ensures pool { self.new.pool ≡ self.old.pool }
    {
        self.cells.remove(at);
    }

    /// Puts a field into a cell. An empty field clears it.
    pub fn put(&mut self, alloc: Global, at: Addr, raw: &Raw) -> Result<(), EditFault>
        requires on_sheet { IsOnSheet at }
        requires sheet { at.sheet < length self.old.names }
        requires text { IsRawOf self.old.book.texts raw.now }
        requires formula { IsField raw.now }
        ensures ok { OnOk result ((held : _) × Puts self.old.names self.old.book.texts at raw.now held × IsApplied (Put at held) self.old.book.cells self.new.book.cells) }
        ensures texts { OnOk result (self.new.book.texts ≡ with_field self.old.names self.old.book.texts raw.now) }
        ensures fault { IfErr result (IsPutFault self.old.names self.old.book.texts self.old.book.cells at raw.now) }
        ensures err { OnErr result (self.new.book.cells ≡ self.old.book.cells) }

        // A formula with a fault is refused for it, and a field that makes the book too large for that, want of
        // memory apart.
        ensures refused { (place : ℕ) (kind : FaultKind) → FieldHasFault self.old.names self.old.book.texts raw.now place kind →
            MatchResult result (λ _. ⊥) (IsThisFault place kind) }
        ensures large { (held : _) → Puts self.old.names self.old.book.texts at raw.now held →
            IsTooLarge (Put at held) self.old.book.cells → MatchResult result (λ _. ⊥) IsTooMany }
        ensures names { self.new.names ≡ self.old.names }
        ensures kept_texts { KeepsTexts self.old.book.texts self.new.book.texts }
        ensures kept_trees { KeepsTrees self.old.pool self.new.pool }
    {
        match read_content(
            alloc,
            at,
            raw,
            &self.sheets,
            &mut self.texts,
            &mut self.pool,
        )? {
            Some(content) => set_cell(&mut self.cells, at, content),
            None => {
                self.cells.remove(at);
                Ok(())
            }
        }
    }

    /// Puts what a cell holds into each cell of an area, with formulas shifted there. An empty cell clears the
    /// area.
    pub fn copy(&mut self, alloc: Global, from: Addr, to: Area) -> Result<(), EditFault>
        requires area { IsArea to }
        requires sheet { to.sheet < length self.old.names }
        requires small { height to * width to ≤ MAX_RANGE_CELLS }
        ensures ok { OnOk result (IsApplied (Copy from to) self.old.book.cells self.new.book.cells) }
        ensures fault { IfErr result (IsCopyFault self.old.book.cells from to) }
        ensures err { OnErr result (self.new.book.cells ≡ self.old.book.cells) }

        // A copy that makes the book too large is refused for that, want of memory apart.
        ensures large { IsTooLarge (Copy from to) self.old.book.cells → MatchResult result (λ _. ⊥) IsTooMany }
        ensures texts { self.new.book.texts ≡ self.old.book.texts }
        ensures names { self.new.names ≡ self.old.names }
        ensures kept_trees { KeepsTrees self.old.pool self.new.pool }

        // A formula that loses no reference in the area stands there as the same tree. So this copy, as any whose trees the
        // pool has, adds none.
        ensures same_pool { StaysOn (is_inside to) (entry_at self.old.book.cells from) → self.new.pool ≡ self.old.pool }
        ensures there { CopiesAreThere self.old.pool (is_inside to) (entry_at self.old.book.cells from) → self.new.pool ≡ self.old.pool }
    {
        let addresses = addresses_of(alloc, to)?;
        match self.cells.get(from) {
            Some(content) => copy_cells(
                alloc,
                &mut self.cells,
                &mut self.pool,
                content,
                from,
                &addresses,
            ),
            None => {
                self.cells.remove_all(&addresses);
                Ok(())
            }
        }
    }

    /// Lays the cells out anew, in as little memory as they need.
    pub fn pack(&mut self, alloc: Global) -> Result<(), AllocError>
        ensures { self.new ≡ self.old }
    {
        self.cells.pack(alloc)
    }

    /// Exchanges the cells with others that fit the workbook's sheets and texts. It takes no memory, and undoes itself.
    pub fn swap_cells(&mut self, apart: &mut CellsApart)
        requires { IsWorkbook (with_cells self.old apart.old) }
        ensures workbook { self.new ≡ with_cells self.old apart.old }
        ensures apart { apart.new ≡ cells_of self.old }
    {
        apart.exchange(&mut self.cells, &mut self.pool);
    }
}

/// What a field puts into a cell.
fn read_content(
    alloc: Global,
    at: Addr,
    raw: &Raw,
    sheets: &SheetNames,
    texts: &mut Texts,
    pool: &mut Pool,
) -> Result<Option<Content>, EditFault>
    requires on_sheet { IsOnSheet at }
    requires sheet { at.sheet < length sheets.now }
    requires text { IsRawOf texts.old raw.now }
    requires formula { IsField raw.now }
    ensures ok { IfOk result (IsRead sheets.now texts.old texts.new pool.new at raw.now) }
    ensures fault { IfErr result (IsFieldFault sheets.now texts.old raw.now) }
    ensures refused { (place : ℕ) (kind : FaultKind) → FieldHasFault sheets.now texts.old raw.now place kind → MatchResult result (λ _. ⊥) (IsThisFault place kind) }
    ensures read { (held : _) → Puts sheets.now texts.old at raw.now held → MatchResult result (λ found. option_map (content_in pool.new) found ≡ held) IsOutOfMemory }
    ensures kept_texts { KeepsTexts texts.old texts.new }
    ensures kept_trees { KeepsTrees pool.old pool.new }
{
    match raw {
        Raw::Nothing => Ok(None),
        Raw::Number(n) => Ok(Some(Content::Number(*n))),
        Raw::Text(t) => Ok(Some(Content::Text(*t))),
        Raw::Bool(b) => Ok(Some(Content::Bool(*b))),
        Raw::Formula(text) => read_shared(alloc, at, text, sheets, texts, pool),
    }
}

/// What a formula puts into a cell.
fn read_shared(
    alloc: Global,
    at: Addr,
    text: &FieldText,
    sheets: &SheetNames,
    texts: &mut Texts,
    pool: &mut Pool,
) -> Result<Option<Content>, EditFault>
    requires on_sheet { IsOnSheet at }
    requires sheet { at.sheet < length sheets.now }
    requires formula { begins_with 61 text.now ≡ true }
    ensures ok { IfOk result (IsRead sheets.now texts.old texts.new pool.new at (Raw.Formula text.now)) }
    ensures fault { IfErr result (IsFieldFault sheets.now texts.old (Raw.Formula text.now)) }
    ensures refused { (place : ℕ) (kind : FaultKind) → FieldHasFault sheets.now texts.old (Raw.Formula text.now) place kind → MatchResult result (λ _. ⊥) (IsThisFault place kind) }
    ensures read { (held : _) → Puts sheets.now texts.old at (Raw.Formula text.now) held → MatchResult result (λ found. option_map (content_in pool.new) found ≡ held) IsOutOfMemory }
    ensures kept_texts { KeepsTexts texts.old texts.new }
    ensures kept_trees { KeepsTrees pool.old pool.new }
{
    let tree = read_formula(alloc, text.as_str(), at, sheets, texts)?;
    let id = pool.intern(alloc, &tree)?;
    Ok(Some(Content::Formula(id)))
}

/// Puts a content into a cell, unless there would be too many cells.
fn set_cell(cells: &mut CellMap, at: Addr, content: Content) -> Result<(), EditFault>
    requires { length cells.old ≤ MAX_BOOK_CELLS }
    ensures ok { OnOk result (SetsHeld at (Some content) cells.old cells.new) }
    ensures few { length cells.new ≤ MAX_BOOK_CELLS }
    ensures fault { IfErr result (IsWithoutRoom cells.old at) }
    ensures err { OnErr result (cells.new ≡ cells.old) }
{
    if cells.get(at).is_none() && cells.len() >= MAX_BOOK_CELLS as usize {
        return Err(EditFault::TooManyCells);
    }
    cells.set(at, content)?;
    Ok(())
}

/// Whether a cell is empty, in a workbook with so many cells as there may be.
fn is_full(content: Option<Content>, count: u32) -> bool
    ensures { result ≡ (is_none content && nat_le MAX_BOOK_CELLS count) }
{
    content.is_none() && count >= MAX_BOOK_CELLS
}

/// Whether a cell holds a formula.
fn holds_formula(content: Option<Content>) -> bool
    ensures { result ≡ holds_formula content }
{
    matches!(content, Some(Content::Formula(_)))
}

impl BookView for Workbook {
    ghost book = { λ w. w.book };

    fn has_formula(&self, at: Addr) -> bool {
        holds_formula(self.cells.get(at))
    }
}
