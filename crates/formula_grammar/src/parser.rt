//! The tokens of a formula are read to a tree, or to their first fault.

ghost use Rattle.std.specs.Prelude.{◌≡◌, ◌≢◌, ◌<◌, ◌≤◌, ◌+◌, ◌^◌, ◌⊎◌, ℕ, Some, IfOk, IfErr, OnOk, IsTrue, ◌↔◌, [], true, false, None, length};
ghost use Rattle.cell_values.specs.Addresses.{IsOnSheet};
ghost use Rattle.formula_trees.specs.Expr.{Binary, expr_of, exprs_of};
ghost use Rattle.formula_trees.specs.declared.functions.Kind.TheVariants.{Place, Many};
ghost use Rattle.formula_trees.specs.declared.TheConstants.{MAX_NODES};
ghost use Rattle.formula_grammar.specs.Fault.{Reads, own_fault, named_fault, corner_fault, tokens_of};
ghost use Rattle.formula_grammar.specs.Steps.{operand, run};
ghost use Rattle.formula_grammar.specs.Rest.{next_token, next_place, behind_next, tokens_left, misfit, token_level, sign_token, begins_target, begins_colon, range_ahead, sheet_range_ahead};
ghost use Rattle.formula_grammar.specs.Parts.{Fails, FailsNode, FailsOperand, FailsSigned, FailsArguments, FailsArgument, FailsAlone, FailsTarget, FailsSecond, FailsSheetWord, FailsSecondWord, ReadsExpression, ReadsJoins, ReadsSums, ReadsTerm, ReadsSigned, ReadsPrimary, ReadsArguments, ReadsArgument, ReadsAlone, ReadsLone, ReadsTarget, ReadsSecond, ReadsSheetWord, ReadsSecondWord};

use crate::faults::{FaultKind, FormulaFault, misfit, named_fault, own_fault};
use crate::kinds::is_alone;
use crate::meanings::{is_too_large, literal_tree, operator_at, reference_at, sign_at};
use cell_values::Addr;
use formula_tokens::{Literal, Spot, Token, Word};
use formula_trees::levels::{COMPARISON_LEVEL, JOIN_LEVEL, SUM_LEVEL, TERM_LEVEL};
use formula_trees::{
    Args, Fun, Kind, MAX_LEVELS, MAX_NODES, Op, Tree, are_enough, kind_of, may_go_on,
};
use std::alloc::{AllocError, Global};
use std::marker::Model;

/// A reference as it is written: the sheet of its prefix, if it has one, and its word.
#[derive(Clone, Copy, Debug)]
pub(crate) struct Named {
    sheet: Option<u8>,
    word: Word,
}

/// What is left to read: the tokens with their places, the end of the text, and how many nodes there were.
#[derive(Drop)]
pub(crate) struct Reader<'a> {
    spots: &'a [Spot],
    end: u32,
    nodes: usize,
}

impl<'a> Model for Reader<'a> {
    ghost use Rattle.formula_grammar.specs.Rest.{Rest};

    ghost Value = { Rest };

    ghost view = { λ a. record { spots = a.spots.now; end = a.end; nodes = a.nodes } };
}

/// A tree of two sides.
fn binary(alloc: Global, op: Op, left: Tree, right: Tree) -> Result<Tree, FormulaFault>
    ensures ok { IfOk result (λ tree. expr_of tree ≡ Binary op (expr_of left) (expr_of right)) }
    ensures err { IfErr result (λ e. e ≡ FormulaFault.OutOfMemory) }
{
    Ok(Tree::Binary(op, Box::new(alloc, left)?, Box::new(alloc, right)?))
}

/// The tokens begin with a colon.
fn begins_colon(spots: &[Spot]) -> bool
    ensures { result ≡ begins_colon (tokens_of spots.now) }
{
    match spots.first() {
        Some(spot) => matches!(spot.token, Token::Colon),
        None => false,
    }
}

/// The tokens begin with a reference behind a prefix, and a colon.
fn sheet_range_ahead(spots: &[Spot]) -> bool
    ensures { result ≡ sheet_range_ahead (tokens_of spots.now) }
{
    match spots.split_first() {
        Some((first, rest)) => match first.token {
            Token::SheetReference(_) => begins_colon(rest),
            _ => false,
        },
        None => false,
    }
}

/// The tokens begin with a reference and a colon.
fn range_ahead(spots: &[Spot]) -> bool
    ensures { result ≡ range_ahead (tokens_of spots.now) }
{
    match spots.split_first() {
        Some((first, rest)) => match first.token {
            Token::Reference(_) => begins_colon(rest),
            Token::Prefix(_) => sheet_range_ahead(rest),
            _ => false,
        },
        None => false,
    }
}

impl<'a> Reader<'a> {
    /// The next token, or the end.
    fn peek(&self) -> Token
        ensures { result ≡ next_token self.now }
    {
        match self.spots.first() {
            Some(spot) => spot.token,
            None => Token::End,
        }
    }

    /// Whether all tokens are read.
    fn is_done(&self) -> bool
        ensures { IsTrue result ↔ (self.now.spots ≡ []) }
    {
        self.spots.is_empty()
    }

    /// Whether a range begins.
    fn is_range_ahead(&self) -> bool
        ensures { result ≡ range_ahead (tokens_left self.now) }
    {
        range_ahead(self.spots)
    }

    /// Goes past the next token, which makes no node.
    fn advance(&mut self)
        ensures { self.new ≡ behind_next self.old 0 }
    {
        if let Some((_, spots)) = self.spots.split_first() {
            self.spots = spots;
        }
    }

    /// A fault at the next token.
    fn fault(&self, kind: FaultKind) -> FormulaFault
        ensures { result ≡ FormulaFault.Bad (next_place self.now) kind }
    {
        let place = match self.spots.first() {
            Some(spot) => spot.place,
            None => self.end,
        };
        FormulaFault::Bad { place, kind }
    }

    /// The next token cannot stand where it is.
    fn unexpected(&self) -> FormulaFault
        ensures { result ≡ FormulaFault.Bad (next_place self.now) (misfit (next_token self.now)) }
    {
        self.fault(misfit(self.peek()))
    }

    /// Goes past the next token, which may stand where it is and makes a node.
    fn take(&mut self) -> Result<(), FormulaFault>
        ensures ok { OnOk result (self.new ≡ behind_next self.old 1) }
        ensures room { OnOk result (self.old.nodes < MAX_NODES) }
        ensures known { OnOk result (own_fault (next_token self.old) ≡ None) }
        ensures inside { OnOk result (named_fault (next_token self.old) ≡ None) }
        ensures err { IfErr result (λ e. FailsNode self.old e) }
    {
        let token = self.peek();
        if let Some(kind) = own_fault(token) {
            return Err(self.fault(kind));
        }
        if self.nodes >= MAX_NODES {
            return Err(self.fault(FaultKind::TooLong));
        }
        if let Some(kind) = named_fault(token) {
            return Err(self.fault(kind));
        }
        self.nodes += 1;
        self.advance();
        Ok(())
    }

    /// The word behind a sheet prefix.
    fn sheet_word(&mut self) -> Result<Word, FormulaFault>
        ensures ok { IfOk result (λ word. ReadsSheetWord self.old self.new word) }
        ensures err { IfErr result (λ e. FailsSheetWord self.old e) }
        ensures shorter { OnOk result (length self.new.spots < length self.old.spots) }
    {
        match self.peek() {
            Token::SheetReference(word) => {
                self.take()?;
                Ok(word)
            }
            _ => Err(self.unexpected()),
        }
    }

    /// A reference, with a sheet prefix or without.
    fn target(&mut self) -> Result<Named, FormulaFault>
        ensures ok { IfOk result (λ named. ReadsTarget self.old self.new named.sheet named.word) }
        ensures err { IfErr result (λ e. FailsTarget self.old e) }
        ensures shorter { OnOk result (length self.new.spots < length self.old.spots) }
    {
        match self.peek() {
            Token::Reference(word) => {
                self.take()?;
                Ok(Named { sheet: None, word })
            }
            Token::Prefix(Some(sheet)) => {
                self.advance();
                let word = self.sheet_word()?;
                Ok(Named {
                    sheet: Some(sheet),
                    word,
                })
            }
            Token::Prefix(None) => Err(self.fault(FaultKind::UnknownSheet)),
            _ => Err(self.unexpected()),
        }
    }

    /// The second corner of a range.
    fn second_word(&mut self, first: Word) -> Result<Word, FormulaFault>
        ensures ok { IfOk result (λ word. ReadsSecondWord first self.old self.new word) }
        ensures err { IfErr result (λ e. FailsSecondWord first self.old e) }
        ensures shorter { OnOk result (length self.new.spots < length self.old.spots) }
    {
        let token = self.peek();
        let Token::Reference(second) = token else {
            return Err(self.unexpected());
        };
        if let Some(kind) = own_fault(token) {
            return Err(self.fault(kind));
        }
        if is_too_large(first, second) {
            return Err(self.fault(FaultKind::LargeRange));
        }
        if let Some(kind) = named_fault(token) {
            return Err(self.fault(kind));
        }
        self.advance();
        Ok(second)
    }

    /// The colon and the second corner behind the first one.
    fn second(&mut self, at: Addr, first: Named) -> Result<Tree, FormulaFault>
        requires colon { next_token self.old ≡ Token.Colon }
        requires inside { corner_fault first.word ≡ None }
        requires on_sheet { IsOnSheet at }
        ensures ok { IfOk result (λ tree. ReadsSecond at first.sheet first.word self.old self.new (expr_of tree)) }
        ensures err { IfErr result (λ e. FailsSecond first.word self.old e) }
        ensures shorter { OnOk result (length self.new.spots < length self.old.spots) }
    {
        self.advance();
        let second = self.second_word(first.word)?;
        Ok(Tree::Range(
            reference_at(at, first.sheet, first.word),
            reference_at(at, first.sheet, second),
        ))
    }

    /// A range.
    fn range(&mut self, at: Addr) -> Result<Tree, FormulaFault>
        requires ahead { range_ahead (tokens_left self.old) ≡ true }
        requires on_sheet { IsOnSheet at }
        ensures ok { IfOk result (λ tree. ReadsAlone at Many self.old self.new (expr_of tree)) }
        ensures err { IfErr result (λ e. FailsAlone Many self.old e) }
        ensures shorter { OnOk result (length self.new.spots < length self.old.spots) }
    {
        let first = self.target()?;
        self.second(at, first)
    }

    /// A literal that has to be an argument by itself.
    fn lone(&mut self, kind: Kind, literal: Literal) -> Result<Tree, FormulaFault>
        requires next { next_token self.old ≡ Token.Literal literal }
        requires kind { (kind ≡ Kind.Place) ⊎ (kind ≡ Kind.Exact) }
        ensures ok { IfOk result (λ tree. ReadsLone kind literal self.old self.new (expr_of tree)) }
        ensures err { IfErr result (λ e. FailsAlone kind self.old e) }
        ensures shorter { OnOk result (length self.new.spots < length self.old.spots) }
    {
        if !is_alone(kind, literal) {
            return Err(self.unexpected());
        }
        self.take()?;
        Ok(literal_tree(literal))
    }

    /// A reference or a range.
    fn cells(&mut self, at: Addr) -> Result<Tree, FormulaFault>
        requires next { (literal : Literal) → next_token self.old ≢ Token.Literal literal }
        requires on_sheet { IsOnSheet at }
        ensures ok { IfOk result (λ tree. ReadsAlone at Place self.old self.new (expr_of tree)) }
        ensures err { IfErr result (λ e. FailsAlone Place self.old e) }
        ensures shorter { OnOk result (length self.new.spots < length self.old.spots) }
    {
        let first = self.target()?;
        match self.peek() {
            Token::Colon => self.second(at, first),
            _ => Ok(Tree::Ref(reference_at(at, first.sheet, first.word))),
        }
    }

    /// A lone reference in an expression.
    fn reference(&mut self, at: Addr) -> Result<Tree, FormulaFault>
        requires next { begins_target (next_token self.old) ≡ true }
        requires on_sheet { IsOnSheet at }
        ensures ok { IfOk result (λ tree. (depth : ℕ) → ReadsPrimary at depth self.old self.new (expr_of tree)) }
        ensures err { IfErr result (λ e. (depth : ℕ) → FailsSigned depth self.old e) }
        ensures shorter { OnOk result (length self.new.spots < length self.old.spots) }
    {
        let named = self.target()?;
        Ok(Tree::Ref(reference_at(at, named.sheet, named.word)))
    }

    #[cycle(parts)]
    fn expression(&mut self, alloc: Global, at: Addr, depth: usize) -> Result<Tree, FormulaFault>
        requires short { length self.old.spots < 2 ^ 60 }
        requires on_sheet { IsOnSheet at }
        ensures ok { IfOk result (λ tree. ReadsExpression at depth self.old self.new (expr_of tree)) }
        ensures err { IfErr result (λ e. FailsOperand depth self.old e) }
        ensures next { OnOk result (token_level (next_token self.new) ≡ 0) }
        ensures shorter { OnOk result (length self.new.spots < length self.old.spots) }
    {
        let mut left = self.joins(alloc, at, depth)?;
        while let Some(op) = operator_at(self.peek(), COMPARISON_LEVEL) {
            self.take()?;
            let right = self.joins(alloc, at, depth)?;
            left = binary(alloc, op, left, right)?;
        }
        Ok(left)
    }

    #[cycle(parts)]
    fn joins(&mut self, alloc: Global, at: Addr, depth: usize) -> Result<Tree, FormulaFault>
        requires short { length self.old.spots < 2 ^ 60 }
        requires on_sheet { IsOnSheet at }
        ensures ok { IfOk result (λ tree. ReadsJoins at depth self.old self.new (expr_of tree)) }
        ensures err { IfErr result (λ e. FailsOperand depth self.old e) }
        ensures next { OnOk result (token_level (next_token self.new) ≤ COMPARISON_LEVEL) }
        ensures shorter { OnOk result (length self.new.spots < length self.old.spots) }
    {
        let mut left = self.sums(alloc, at, depth)?;
        while let Some(op) = operator_at(self.peek(), JOIN_LEVEL) {
            self.take()?;
            let right = self.sums(alloc, at, depth)?;
            left = binary(alloc, op, left, right)?;
        }
        Ok(left)
    }

    #[cycle(parts)]
    fn sums(&mut self, alloc: Global, at: Addr, depth: usize) -> Result<Tree, FormulaFault>
        requires short { length self.old.spots < 2 ^ 60 }
        requires on_sheet { IsOnSheet at }
        ensures ok { IfOk result (λ tree. ReadsSums at depth self.old self.new (expr_of tree)) }
        ensures err { IfErr result (λ e. FailsOperand depth self.old e) }
        ensures next { OnOk result (token_level (next_token self.new) ≤ JOIN_LEVEL) }
        ensures shorter { OnOk result (length self.new.spots < length self.old.spots) }
    {
        let mut left = self.term(alloc, at, depth)?;
        while let Some(op) = operator_at(self.peek(), SUM_LEVEL) {
            self.take()?;
            let right = self.term(alloc, at, depth)?;
            left = binary(alloc, op, left, right)?;
        }
        Ok(left)
    }

    #[cycle(parts)]
    fn term(&mut self, alloc: Global, at: Addr, depth: usize) -> Result<Tree, FormulaFault>
        requires short { length self.old.spots < 2 ^ 60 }
        requires on_sheet { IsOnSheet at }
        ensures ok { IfOk result (λ tree. ReadsTerm at depth self.old self.new (expr_of tree)) }
        ensures err { IfErr result (λ e. FailsOperand depth self.old e) }
        ensures next { OnOk result (token_level (next_token self.new) ≤ SUM_LEVEL) }
        ensures shorter { OnOk result (length self.new.spots < length self.old.spots) }
    {
        let mut left = self.signed(alloc, at, depth)?;
        while let Some(op) = operator_at(self.peek(), TERM_LEVEL) {
            self.take()?;
            let right = self.signed(alloc, at, depth)?;
            left = binary(alloc, op, left, right)?;
        }
        Ok(left)
    }

    #[cycle(parts)]
    fn signed(&mut self, alloc: Global, at: Addr, depth: usize) -> Result<Tree, FormulaFault>
        requires short { length self.old.spots < 2 ^ 60 }
        requires on_sheet { IsOnSheet at }
        ensures ok { IfOk result (λ tree. ReadsSigned at depth self.old self.new (expr_of tree)) }
        ensures err { IfErr result (λ e. FailsSigned depth self.old e) }
        ensures shorter { OnOk result (length self.new.spots < length self.old.spots) }
    {
        match sign_at(self.peek()) {
            Some(sign) => {
                if depth >= MAX_LEVELS {
                    return Err(self.fault(FaultKind::TooDeep));
                }
                self.take()?;
                let operand = self.signed(alloc, at, depth + 1)?;
                Ok(Tree::Unary(sign, Box::new(alloc, operand)?))
            }
            None => self.primary(alloc, at, depth),
        }
    }

    #[cycle(parts)]
    fn primary(&mut self, alloc: Global, at: Addr, depth: usize) -> Result<Tree, FormulaFault>
        requires no_sign { sign_token (next_token self.old) ≡ None }
        requires short { length self.old.spots < 2 ^ 60 }
        requires on_sheet { IsOnSheet at }
        ensures ok { IfOk result (λ tree. ReadsPrimary at depth self.old self.new (expr_of tree)) }
        ensures err { IfErr result (λ e. FailsSigned depth self.old e) }
        ensures shorter { OnOk result (length self.new.spots < length self.old.spots) }
    {
        match self.peek() {
            Token::Literal(literal) => {
                self.take()?;
                Ok(literal_tree(literal))
            }
            Token::Reference(_) | Token::Prefix(_) => self.reference(at),
            Token::LeftParen => {
                if depth >= MAX_LEVELS {
                    return Err(self.fault(FaultKind::TooDeep));
                }
                self.advance();
                let inner = self.expression(alloc, at, depth + 1)?;
                match self.peek() {
                    Token::RightParen => {
                        self.advance();
                        Ok(inner)
                    }
                    _ => Err(self.unexpected()),
                }
            }
            Token::Function(Some(function)) => self.call(alloc, at, function, depth),
            Token::Function(None) => Err(self.fault(FaultKind::UnknownName)),
            _ => Err(self.unexpected()),
        }
    }

    #[cycle(parts)]
    fn call(
        &mut self,
        alloc: Global,
        at: Addr,
        function: Fun,
        depth: usize,
    ) -> Result<Tree, FormulaFault>
        requires named { next_token self.old ≡ Token.Function (Some function) }
        requires short { length self.old.spots < 2 ^ 60 }
        requires on_sheet { IsOnSheet at }
        ensures ok { IfOk result (λ tree. ReadsPrimary at depth self.old self.new (expr_of tree)) }
        ensures err { IfErr result (λ e. FailsSigned depth self.old e) }
        ensures shorter { OnOk result (length self.new.spots < length self.old.spots) }
    {
        self.take()?;
        let Token::LeftParen = self.peek() else {
            return Err(self.unexpected());
        };
        if depth >= MAX_LEVELS {
            return Err(self.fault(FaultKind::TooDeep));
        }
        self.advance();
        match self.peek() {
            Token::RightParen => {
                if !are_enough(function, 0) {
                    return Err(self.fault(FaultKind::ArgumentCount));
                }
                self.advance();
                Ok(Tree::Call(function, Args::End))
            }
            _ => {
                let arguments = self.arguments(alloc, at, function, 0, depth + 1)?;
                Ok(Tree::Call(function, arguments))
            }
        }
    }

    #[cycle(parts)]
    fn arguments(
        &mut self,
        alloc: Global,
        at: Addr,
        function: Fun,
        before: usize,
        depth: usize,
    ) -> Result<Args, FormulaFault>
        requires short { before + length self.old.spots < 2 ^ 60 }
        requires on_sheet { IsOnSheet at }
        ensures ok { IfOk result (λ trees. ReadsArguments at function before depth self.old self.new (exprs_of trees)) }
        ensures err { IfErr result (λ e. FailsArguments function before depth self.old e) }
        ensures shorter { OnOk result (length self.new.spots < length self.old.spots) }
    {
        let first = self.argument(alloc, at, kind_of(function, before), depth)?;
        match self.peek() {
            Token::RightParen => {
                if !are_enough(function, before + 1) {
                    return Err(self.fault(FaultKind::ArgumentCount));
                }
                self.advance();
                Ok(Args::More(Box::new(alloc, first)?, Box::new(alloc, Args::End)?))
            }
            Token::Comma => {
                if !may_go_on(function, before + 1) {
                    return Err(self.fault(FaultKind::ArgumentCount));
                }
                self.advance();
                let others = self.arguments(alloc, at, function, before + 1, depth)?;
                Ok(Args::More(Box::new(alloc, first)?, Box::new(alloc, others)?))
            }
            _ => Err(self.unexpected()),
        }
    }

    #[cycle(parts)]
    fn argument(
        &mut self,
        alloc: Global,
        at: Addr,
        kind: Kind,
        depth: usize,
    ) -> Result<Tree, FormulaFault>
        requires short { length self.old.spots < 2 ^ 60 }
        requires on_sheet { IsOnSheet at }
        ensures ok { IfOk result (λ tree. ReadsArgument at kind depth self.old self.new (expr_of tree)) }
        ensures err { IfErr result (λ e. FailsArgument kind depth self.old e) }
        ensures shorter { OnOk result (length self.new.spots < length self.old.spots) }
    {
        match kind {
            Kind::Plain => self.expression(alloc, at, depth),
            Kind::Many => {
                if self.is_range_ahead() {
                    self.range(at)
                } else {
                    self.expression(alloc, at, depth)
                }
            }
            Kind::Place => match self.peek() {
                Token::Literal(literal) => self.lone(kind, literal),
                _ => self.cells(at),
            },
            Kind::Exact => match self.peek() {
                Token::Literal(literal) => self.lone(kind, literal),
                _ => Err(self.unexpected()),
            },
        }
    }
}

/// The tree of a whole formula, or the fault that ends the reading.
pub(crate) fn read_all(
    alloc: Global,
    spots: &[Spot],
    end: u32,
    at: Addr,
) -> Result<Tree, FormulaFault>
    requires short { length spots.now < 2 ^ 60 }
    requires on_sheet { IsOnSheet at }
    ensures ok { IfOk result (λ tree. Reads at (tokens_of spots.now) (expr_of tree)) }
    ensures err { IfErr result (λ e. Fails e (run spots.now end 0 (operand 0 []))) }
{
    let mut reader = Reader {
        spots,
        end,
        nodes: 0,
    };
    let tree = reader.expression(alloc, at, 0)?;
    match reader.peek() {
        Token::End => {
            if reader.is_done() {
                return Ok(tree);
            }
            reader.advance();
            Err(reader.unexpected())
        }
        _ => Err(reader.unexpected()),
    }
}
