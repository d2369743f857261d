//! Where cells stand.

ghost use Rattle.std.specs.Prelude.{◌≡◌, ◌≤◌, ◌<◌, ◌∷◌, ◌+◌, ◌*◌, length, drop, IfOk, IfSome, All, string_bytes};
ghost use Rattle.std.specs.List.{prefix_len};
ghost use Rattle.std.specs.Char.{IsAsciiAlphabetic, is_ascii_alphabetic};
ghost use Rattle.cell_values.specs.declared.TheConstants.{LAST_COLUMN, LAST_ROW};

use crate::{LAST_COLUMN, LAST_ROW};
use std::alloc::{AllocError, Global};

/// A cell's place: the sheet from 0, the row and the column from 1. Addresses are ordered by sheet,
/// then row, then column.
#[derive(Clone, Copy, Debug, PartialEq, Eq, PartialOrd, Ord)]
pub struct Addr {
    pub sheet: u8,
    pub row: u32,
    pub col: u16,
}

/// A rectangle of cells, with both corners in it. `top` is at most `bottom`, and `left` at most `right`.
/// It is walked row by row, each row from left to right.
#[derive(Clone, Copy, Debug, PartialEq, Eq)]
pub struct Area {
    pub sheet: u8,
    pub top: u32,
    pub left: u16,
    pub bottom: u32,
    pub right: u16,
}

impl Addr {
    ghost use Rattle.cell_values.specs.Addresses.{IsOnSheet};
    ghost use Rattle.cell_values.specs.CellText.{read_addr, cell_text};

    /// Reads a cell's text, as `B7` or `iv65536`: letters of either case, then digits. None where the
    /// text has another form, or the column or the row is outside a sheet.
    #[tactic(auto, using(crate::proofs::CellTexts::letters_within, crate::proofs::CellTexts::letters_pass))]
    pub fn read(sheet: u8, text: &str) -> Option<Addr>
        ensures same { result ≡ read_addr sheet text.now }
        ensures within { IfSome result IsOnSheet }
    {
        let text = text.as_bytes();
        let (letters, digits) = text.split_at(letter_count(text));
        let col = read_column(letters)?;
        let row = read_row(digits)?;
        Some(Addr { sheet, row, col })
    }

    /// The column in capitals and the row, as `IV65536`.
    pub fn cell_text(&self, alloc: Global) -> Result<String, AllocError>
        requires { IsOnSheet self.now }
        ensures { IfOk result (λ text. string_bytes text ≡ cell_text self.now) }
    {
        let column = column_text(alloc, self.col)?;
        format!(in alloc; "{column}{}", self.row)
    }
}

impl Area {
    ghost use Rattle.cell_values.specs.declared.TheConstants.{LAST_COLUMN, LAST_ROW};
    ghost use Rattle.cell_values.specs.Addresses.{IsOnSheet};
    ghost use Rattle.cell_values.specs.Areas.{between_cells, one_cell, height, width, cell_of, walk, is_inside, IsArea};

    /// The area of one cell.
    pub fn of(at: Addr) -> Area
        requires { IsOnSheet at }
        ensures same { result ≡ one_cell at }
        ensures within { IsArea result }
    {
        Area {
            sheet: at.sheet,
            top: at.row,
            left: at.col,
            bottom: at.row,
            right: at.col,
        }
    }

    /// The rectangle between two cells, on the sheet of the first one.
    pub fn between(a: Addr, b: Addr) -> Area
        requires first { IsOnSheet a }
        requires second { IsOnSheet b }
        ensures same { result ≡ between_cells a b }
        ensures within { IsArea result }
    {
        Area {
            sheet: a.sheet,
            top: a.row.min(b.row),
            left: a.col.min(b.col),
            bottom: a.row.max(b.row),
            right: a.col.max(b.col),
        }
    }

    /// How many rows it has.
    #[tactic(auto, unfolding(crate::specs::Areas::height))]
    pub fn rows(&self) -> u32
        requires { IsArea self.now }
        ensures same { result ≡ height self.now }
        ensures some { 0 < result }
        ensures few { result ≤ LAST_ROW }
    {
        self.bottom + 1 - self.top
    }

    /// How many columns it has.
    #[tactic(auto, unfolding(crate::specs::Areas::width))]
    pub fn columns(&self) -> u32
        requires { IsArea self.now }
        ensures same { result ≡ width self.now }
        ensures some { 0 < result }
        ensures few { result ≤ LAST_COLUMN }
    {
        u32::from(self.right) + 1 - u32::from(self.left)
    }

    /// How many cells it has.
    #[tactic(auto, using(crate::proofs::Walking::area_counted))]
    pub fn size(&self) -> u32
        requires { IsArea self.now }
        ensures size { result ≡ height self.now * width self.now }
        ensures count { result ≡ length (walk self.now) }
        ensures some { 0 < result }
        ensures few { result ≤ 16777216 }
    {
        self.rows() * self.columns()
    }

    /// The cell `i` rows below and `j` columns beside the first one.
    #[tactic(auto, unfolding(crate::specs::Areas::height, crate::specs::Areas::width))]
    pub fn cell(&self, i: u32, j: u32) -> Addr
        requires area { IsArea self.now }
        requires row { i < height self.now }
        requires column { j < width self.now }
        ensures { result ≡ cell_of self.now i j }
    {
        Addr {
            sheet: self.sheet,
            row: self.top + i,
            col: self.left + j as u16,
        }
    }

    /// The cell with this number in its walk, counted from 0.
    pub fn nth(&self, n: u32) -> Addr
        requires area { IsArea self.now }
        requires within { n < length (walk self.now) }
        ensures { drop n (walk self.now) ≡ result ∷ drop (n + 1) (walk self.now) }
    {
        let columns = self.columns();
        Addr {
            sheet: self.sheet,
            row: self.top + n / columns,
            col: self.left + (n % columns) as u16,
        }
    }

    /// Whether the cell stands in it.
    pub fn holds(&self, at: Addr) -> bool
        ensures { result ≡ is_inside self.now at }
    {
        self.sheet == at.sheet
            && (self.top <= at.row && at.row <= self.bottom)
            && (self.left <= at.col && at.col <= self.right)
    }
}

ghost use Rattle.cell_values.specs.CellText.{named_column, named_row, column_letters};

/// How many letters a text begins with.
fn letter_count(text: &[u8]) -> usize
    ensures { result ≡ prefix_len is_ascii_alphabetic text.now }
{
    text.iter().take_while(|c| c.is_ascii_alphabetic()).count()
}

/// The column that letters name.
#[tactic(auto, using(crate::proofs::CellTexts::column_start, crate::proofs::CellTexts::column_step, crate::proofs::CellTexts::column_done, crate::proofs::CellTexts::column_over))]
fn read_column(letters: &[u8]) -> Option<u16>
    requires { All IsAsciiAlphabetic letters.now }
    ensures same { result ≡ named_column letters.now }
    ensures within { IfSome result (λ col. (1 ≤ col) × (col ≤ LAST_COLUMN)) }
{
    let mut col = 0;
    for letter in letters {
        col = 26 * col + u16::from(letter.to_ascii_uppercase() - b'@');
        if col > LAST_COLUMN {
            return None;
        }
    }
    if col == 0 { None } else { Some(col) }
}

/// The row that digits name.
#[tactic(auto, using(crate::proofs::CellTexts::row_start, crate::proofs::CellTexts::row_step, crate::proofs::CellTexts::row_done, crate::proofs::CellTexts::row_over, crate::proofs::CellTexts::row_ends))]
fn read_row(digits: &[u8]) -> Option<u32>
    ensures same { result ≡ named_row digits.now }
    ensures within { IfSome result (λ row. (1 ≤ row) × (row ≤ LAST_ROW)) }
{
    let mut row = 0;
    for digit in digits {
        if !digit.is_ascii_digit() {
            return None;
        }
        row = 10 * row + u32::from(digit - b'0');
        if row > LAST_ROW {
            return None;
        }
    }
    if row == 0 { None } else { Some(row) }
}

/// The letters of a column in capitals, such as `IV`.
#[tactic(auto, using(std::proofs::lemmas::Str::encode_ascii), unfolding(crate::specs::CellText::column_letters))]
pub fn column_text(alloc: Global, col: u16) -> Result<String, AllocError>
    requires from { 1 ≤ col }
    requires to { col ≤ LAST_COLUMN }
    ensures { IfOk result (λ text. string_bytes text ≡ column_letters col) }
{
    let mut text = String::new(alloc);
    if col > 26 {
        text.push((b'@' + ((col - 1) / 26) as u8) as char)?;
    }
    text.push((b'A' + ((col - 1) % 26) as u8) as char)?;
    Ok(text)
}

ghost use Rattle.cell_values.specs.CellText.{CellTextReadsBack};

/// The text of each cell of a sheet is read as that cell.
#[tactic(auto, using(crate::proofs::ReadBack::cell_text_reads_back))]
pub fn law_cell_text_reads_back()
    ensures { CellTextReadsBack }
{}
