//! A workbook as it is, or with a number in one cell.

ghost use Rattle.std.specs.Prelude.{◌≡◌, option_map, IfSome, All};
ghost use Rattle.std.specs.Str.{IsUtf8};
ghost use Rattle.cell_values.specs.Interned.{AreDistinct};
ghost use Rattle.cell_values.specs.Order.{entry_at};
ghost use Rattle.workbook_core.specs.Held.{content_in, IsHeldOf};
ghost use Rattle.workbook_core.specs.WithNumber.{held_with, shared_with_number, AreAskable};

use crate::{Content, Workbook};
use cell_values::{Addr, Int, Texts};
use shared_expressions::Pool;
use std::marker::Model;

/// A workbook as it is, or with a number in one cell in place of what that cell holds. It takes no memory, and the
/// workbook stays as it is. Contracts see the workbook that it stands for, which may have one cell more than a workbook
/// may have.
#[derive(Drop)]
pub struct BookWith<'a> {
    book: &'a Workbook,
    number: Option<(Addr, Int)>,
}

impl<'a> Model for BookWith<'a> {
    ghost use Rattle.workbook_core.specs.Books.{SharedBook};

    ghost Value = { SharedBook };

    ghost use Rattle.std.specs.Coded.{codes};
    ghost use Rattle.formula_trees.specs.ExprCode.{expr_code};

    ghost coded = { Prim.hlevel (codes, expr_code) };

    ghost use Rattle.workbook_core.specs.WithNumber.{shared_with};

    ghost view = { λ w. shared_with w.book.now w.number };
}

impl<'a> BookWith<'a> {
    /// The workbook as it is.
    pub fn new(book: &'a Workbook) -> BookWith<'a>
        ensures { result ≡ book.now }
    {
        BookWith { book, number: None }
    }

    /// The workbook with the number in the cell.
    pub fn with_number(book: &'a Workbook, at: Addr, number: Int) -> BookWith<'a>
        ensures { result ≡ shared_with_number book.now at number }
    {
        BookWith {
            book,
            number: Some((at, number)),
        }
    }

    /// What a cell holds, None where it is empty.
    pub fn content(&self, at: Addr) -> Option<Content>
        ensures content { option_map (content_in self.now.pool) result ≡ entry_at self.now.book.cells at }
        ensures id { IfSome result (IsHeldOf self.now.pool) }
        ensures askable { AreAskable self.now }
    {
        content_with(self.book.content(at), self.number, at)
    }

    /// The texts of the cells and formulas.
    pub fn texts(&self) -> &Texts
        ensures texts { result.now ≡ self.now.book.texts }
        ensures distinct { AreDistinct self.now.book.texts }
        ensures utf8 { All IsUtf8 self.now.book.texts }
        ensures askable { AreAskable self.now }
    {
        // `count` tells what all workbooks keep.
        let _count = self.book.count();
        self.book.texts()
    }

    /// The expressions of the formulas.
    pub fn pool(&self) -> &Pool
        ensures { result.now ≡ self.now.pool }
    {
        self.book.pool()
    }
}

/// What a cell holds, where this is what it holds in the workbook as it is.
fn content_with(held: Option<Content>, number: Option<(Addr, Int)>, at: Addr) -> Option<Content>
    ensures { result ≡ held_with number at held }
{
    match number {
        Some((cell, number)) => {
            if cell == at {
                Some(Content::Number(number))
            } else {
                held
            }
        }
        None => held,
    }
}
