//! Formulas as texts.
ghost use Rattle.std.specs.Prelude.{◌≡◌, ◌++◌, ◌==◌, ◌∷◌, [], suc, ◌<◌, ◌≤◌, length, flat_map, if◌then◌else◌, nat_lt, OnOk, IfOk, string_bytes, codes};
ghost use Rattle.cell_values.specs.ShownText.{int_text, bool_text};
ghost use Rattle.cell_values.specs.Texts.{IsTextOf, text_at};
ghost use Rattle.formula_trees.specs.Expr.{expr_of, exprs_of};
ghost use Rattle.formula_trees.specs.SheetNumbers.{SheetBelow, SheetsBelow, AllSheetsBelow};
ghost use Rattle.formula_trees.specs.Sound.{level_of};
ghost use Rattle.formula_trees.specs.TextNumbers.{TextsBelow, AllTextsBelow};
ghost use Rattle.formula_tokens.specs.Spelling.{doubled, quoted, op_text};
ghost use Rattle.formula_grammar.specs.Printed.{printed, sign_text, dollar, corner_text, prefix_of, reference_text, enclosed, text_of, arguments_text, further_text};

use cell_values::{Addr, Int, SheetNames, Texts, column_text};
use formula_tokens::function_name;
use formula_trees::levels::{SIGN_LEVEL, level_of, op_level};
use formula_trees::{Args, Op, Part, Reference, Sign, Tree, resolve};
use std::alloc::{AllocError, Global};
use std::marker::Model;

/// The text of a cell's formula, without blanks and with the fewest parentheses: names and columns in capitals,
/// numbers in decimal.
pub fn print_formula(
    alloc: Global,
    tree: &Tree,
    at: Addr,
    sheets: &SheetNames,
    texts: &Texts,
) -> Result<String, AllocError>
    requires texts { TextsBelow (λ i. i < length texts.now) (expr_of tree.now) }
    requires sheets { SheetsBelow (length sheets.now) (expr_of tree.now) }
    ensures { IfOk result (λ text. string_bytes text ≡ printed sheets.now texts.now at (expr_of tree.now)) }
{
    let mut out = String::from_str(alloc, "=")?;
    let page = Page { sheets, texts, at };
    page.write_tree(alloc, tree, &mut out)?;
    Ok(out)
}

/// Where a formula is printed: the sheets, the texts, and the formula's cell.
#[derive(Drop)]
struct Page<'a> {
    sheets: &'a SheetNames,
    texts: &'a Texts,
    at: Addr,
}

impl<'a> Model for Page<'a> {
    ghost use Rattle.formula_grammar.specs.Printed.{Page as Setting};

    ghost Value = { Setting };

    ghost view = { λ p. record { names = p.sheets.now; texts = p.texts.now; at = p.at } };
}

impl<'a> Page<'a> {
    #[cycle(write)]
    fn write_tree(&self, alloc: Global, tree: &Tree, out: &mut String) -> Result<(), AllocError>
        requires texts { TextsBelow (λ i. i < length self.now.texts) (expr_of tree.now) }
        requires sheets { SheetsBelow (length self.now.names) (expr_of tree.now) }
        ensures { OnOk result (string_bytes out.new ≡ string_bytes out.old ++ text_of self.now.names self.now.texts self.now.at (expr_of tree.now)) }
    {
        match tree {
            Tree::Number(n) => write_number(*n, out),
            Tree::Text(id) => write_quoted(self.texts.get(*id), out),
            Tree::Bool(b) => out.push_str(bool_text(*b)),
            Tree::Ref(r) => self.write_reference(alloc, r, out),
            Tree::Range(r, s) => self.write_range(alloc, r, s, out),
            Tree::RefError => out.push_str("#REF!"),
            Tree::Unary(sign, a) => {
                out.push_str(sign_text(*sign))?;
                self.write_enclosed(alloc, SIGN_LEVEL, a, out)
            }
            Tree::Binary(op, a, b) => {
                self.write_enclosed(alloc, op_level(*op), a, out)?;
                out.push_str(op_text(*op))?;
                self.write_enclosed(alloc, op_level(*op) + 1, b, out)
            }
            Tree::Call(f, args) => {
                out.push_str(function_name(*f))?;
                out.push_str("(")?;
                self.write_arguments(alloc, args, out)?;
                out.push_str(")")
            }
        }
    }

    /// In parentheses where the root's level is lower than `least`.
    #[cycle(write)]
    fn write_enclosed(
        &self,
        alloc: Global,
        least: u8,
        tree: &Tree,
        out: &mut String,
    ) -> Result<(), AllocError>
        requires texts { TextsBelow (λ i. i < length self.now.texts) (expr_of tree.now) }
        requires sheets { SheetsBelow (length self.now.names) (expr_of tree.now) }
        ensures { OnOk result (string_bytes out.new ≡ string_bytes out.old ++ enclosed least (expr_of tree.now) (text_of self.now.names self.now.texts self.now.at (expr_of tree.now))) }
    {
        if level_of(tree) < least {
            out.push_str("(")?;
            self.write_tree(alloc, tree, out)?;
            out.push_str(")")
        } else {
            self.write_tree(alloc, tree, out)
        }
    }

    /// The arguments with commas between them.
    #[cycle(write)]
    fn write_arguments(
        &self,
        alloc: Global,
        args: &Args,
        out: &mut String,
    ) -> Result<(), AllocError>
        requires texts { AllTextsBelow (λ i. i < length self.now.texts) (exprs_of args.now) }
        requires sheets { AllSheetsBelow (length self.now.names) (exprs_of args.now) }
        ensures { OnOk result (string_bytes out.new ≡ string_bytes out.old ++ arguments_text self.now.names self.now.texts self.now.at (exprs_of args.now)) }
    {
        match args {
            Args::End => Ok(()),
            Args::More(a, rest) => {
                self.write_tree(alloc, a, out)?;
                self.write_further(alloc, rest, out)
            }
        }
    }

    /// Each argument behind a comma.
    #[cycle(write)]
    fn write_further(&self, alloc: Global, args: &Args, out: &mut String) -> Result<(), AllocError>
        requires texts { AllTextsBelow (λ i. i < length self.now.texts) (exprs_of args.now) }
        requires sheets { AllSheetsBelow (length self.now.names) (exprs_of args.now) }
        ensures { OnOk result (string_bytes out.new ≡ string_bytes out.old ++ further_text self.now.names self.now.texts self.now.at (exprs_of args.now)) }
    {
        match args {
            Args::End => Ok(()),
            Args::More(a, rest) => {
                out.push_str(",")?;
                self.write_tree(alloc, a, out)?;
                self.write_further(alloc, rest, out)
            }
        }
    }

    fn write_range(
        &self,
        alloc: Global,
        first: &Reference,
        second: &Reference,
        out: &mut String,
    ) -> Result<(), AllocError>
        requires { SheetBelow (length self.now.names) first.now.sheet }
        ensures { OnOk result (string_bytes out.new ≡ string_bytes out.old ++ (reference_text self.now.names self.now.at first.now ++ (codes ":" ++ corner_text self.now.at second.now))) }
    {
        self.write_reference(alloc, first, out)?;
        out.push_str(":")?;
        write_corner(alloc, second, self.at, out)
    }

    fn write_reference(
        &self,
        alloc: Global,
        reference: &Reference,
        out: &mut String,
    ) -> Result<(), AllocError>
        requires { SheetBelow (length self.now.names) reference.now.sheet }
        ensures { OnOk result (string_bytes out.new ≡ string_bytes out.old ++ reference_text self.now.names self.now.at reference.now) }
    {
        if let Some(sheet) = reference.sheet {
            let prefix = self.sheets.prefix(alloc, sheet)?;
            out.push_str(&prefix)?;
        }
        write_corner(alloc, reference, self.at, out)
    }
}

/// The cell that a reference names, with `$` before each absolute part.
fn write_corner(
    alloc: Global,
    reference: &Reference,
    at: Addr,
    out: &mut String,
) -> Result<(), AllocError>
    ensures { OnOk result (string_bytes out.new ≡ string_bytes out.old ++ corner_text at reference.now) }
{
    let Some(cell) = resolve(reference, at) else {
        return out.push_str("#REF!");
    };
    let column = column_text(alloc, cell.col)?;
    let row = cell.row;
    out.push_str(dollar(reference.col))?;
    out.push_str(&column)?;
    out.push_str(dollar(reference.row))?;
    write!(out, "{row}")
}

fn write_number(n: Int, out: &mut String) -> Result<(), AllocError>
    ensures { OnOk result (string_bytes out.new ≡ string_bytes out.old ++ int_text n) }
{
    write!(out, "{n}")
}

/// The text in double quotes, with its double quotes doubled.
fn write_quoted(text: &str, out: &mut String) -> Result<(), AllocError>
    ensures { OnOk result (string_bytes out.new ≡ string_bytes out.old ++ quoted text.now) }
{
    out.push_str("\"")?;
    write_doubled(text, out)?;
    out.push_str("\"")
}

/// The text with each double quote doubled.
#[tactic(auto, using(crate::proofs::Quotes::doubled_parts))]
fn write_doubled(text: &str, out: &mut String) -> Result<(), AllocError>
    ensures { OnOk result (string_bytes out.new ≡ string_bytes out.old ++ doubled text.now) }
{
    match text.split_once('"') {
        Some((before, after)) => {
            out.push_str(before)?;
            out.push_str("\"\"")?;
            write_doubled(after, out)
        }
        None => out.push_str(text),
    }
}

fn bool_text(b: bool) -> &'static str
    ensures { result.now ≡ bool_text b }
{
    if b { "TRUE" } else { "FALSE" }
}

fn sign_text(sign: Sign) -> &'static str
    ensures { result.now ≡ sign_text sign }
{
    match sign {
        Sign::Minus => "-",
        Sign::Plus => "+",
    }
}

fn op_text(op: Op) -> &'static str
    ensures { result.now ≡ op_text op }
{
    match op {
        Op::Add => "+",
        Op::Sub => "-",
        Op::Mul => "*",
        Op::Div => "/",
        Op::Join => "&",
        Op::Eq => "=",
        Op::Ne => "<>",
        Op::Lt => "<",
        Op::Le => "<=",
        Op::Gt => ">",
        Op::Ge => ">=",
    }
}

/// `$` before an absolute part.
fn dollar(part: Part) -> &'static str
    ensures { result.now ≡ dollar part }
{
    match part {
        Part::At(_) => "$",
        Part::By(_) => "",
    }
}
