//! What a formula gives, by plain recursion on its tree: its parts are asked, and a rule says what the
//! whole gives from what they give.
ghost use Rattle.std.specs.Prelude.{◌≡◌};
ghost use Rattle.builtin_functions.specs.Folds.{end_value};
ghost use Rattle.demand_spec.specs.Asks.{argument_at, ask_argument, ask_fold};
ghost use Rattle.demand_spec.specs.Given.{argument_of, given_by, AreGivenOf, HaveAreas, IsAnswerOf};
ghost use Rattle.demand_spec.specs.Listed.{IsFormulaOf, AreArgumentsOf};
ghost use Rattle.formula_trees.specs.Expr.{expr_of, exprs_of, Call};
ghost use Rattle.formula_trees.specs.Mentions.{HasArea};

use crate::Asked;
use crate::arguments::{
    Argument, Given, OfOne, OfTwo, count_or_one, if_then, index_of, operator_of_two, sign_of_one,
};
use crate::calls::{call_if, call_if_error, call_is_error, call_mid, call_not, call_one, call_two};
use crate::context::Stage;
use crate::outcomes::fails;
use builtin_functions::{FoldKind, Op2};
use cell_values::{Addr, Code, Int, Value};
use formula_trees::{Args, Fun, Tree, place_of, resolve};

/// What a fold gives at its end: 0 of no number.
fn end_of(total: Option<Int>) -> Value
    ensures { result ≡ end_value total }
{
    match total {
        Some(x) => Value::Number(x),
        None => Value::Number(0),
    }
}

impl<'a> Stage<'a> {
    ghost use Rattle.demand_spec.specs.Stage.{ask_on, book_of, known_of};

    /// What a formula gives: its value, or the first formula cell that it demands and that has no value.
    #[cycle(formula)]
    #[tactic(auto, using(crate::proofs::Texts::answer_text))]
    pub(crate) fn ask(&self, tree: &Tree, at: Addr) -> Asked
        requires { IsFormulaOf self.now.texts (expr_of tree.now) }
        ensures same { result ≡ ask_on self.now at (expr_of tree.now) }
        ensures text { IsAnswerOf self.now.texts result }
    {
        let _texts = self.texts();
        self.give(tree, at)
    }

    /// The same, kind by kind.
    #[cycle(formula)]
    #[tactic(auto, using(crate::proofs::Rules::unary_is, crate::proofs::Rules::binary_is))]
    fn give(&self, tree: &Tree, at: Addr) -> Asked
        requires { IsFormulaOf self.now.texts (expr_of tree.now) }
        ensures { result ≡ ask_on self.now at (expr_of tree.now) }
    {
        match tree {
            Tree::Number(n) => Asked::Val(Value::Number(*n)),
            Tree::Text(t) => Asked::Val(Value::Text(*t)),
            Tree::Bool(b) => Asked::Val(Value::Bool(*b)),
            Tree::Ref(reference) => match resolve(reference, at) {
                Some(cell) => self.look(cell),
                None => fails(Code::Ref),
            },
            Tree::Range(_, _) => fails(Code::Value),
            Tree::RefError => fails(Code::Ref),
            Tree::Unary(sign, a) => sign_of_one(*sign, self.ask(a, at)),
            Tree::Binary(op, a, b) => operator_of_two(
                *op,
                self.ask(a, at),
                self.ask(b, at),
                self.texts(),
            ),
            Tree::Call(fun, args) => self.call(*fun, args, at),
        }
    }

    /// What a function gives.
    #[cycle(formula)]
    #[tactic(auto, using(crate::proofs::Rules::if_is, crate::proofs::Rules::not_is, crate::proofs::Rules::if_error_is, crate::proofs::Rules::is_error_is, crate::proofs::Rules::abs_is, crate::proofs::Rules::mod_is, crate::proofs::Rules::quotient_is, crate::proofs::Rules::left_is, crate::proofs::Rules::right_is, crate::proofs::Rules::mid_is, crate::proofs::Rules::len_is, crate::proofs::Rules::counted_given, crate::proofs::Rules::index_is, crate::proofs::Rules::match_is, crate::proofs::Rules::v_lookup_is, crate::proofs::Rules::h_lookup_is))]
    fn call(&self, fun: Fun, args: &Args, at: Addr) -> Asked
        requires { AreArgumentsOf self.now.texts (exprs_of args.now) }
        ensures { result ≡ ask_on self.now at (Call fun (exprs_of args.now)) }
    {
        match fun {
            Fun::If => call_if(self.given(args, at)),
            Fun::And => self.and(args, at),
            Fun::Or => self.or(args, at),
            Fun::Not => call_not(self.given(args, at)),
            Fun::Choose => self.choose(args, at),
            Fun::IfError => call_if_error(self.given(args, at)),
            Fun::IsError => call_is_error(self.given(args, at)),
            Fun::Sum => self.fold(FoldKind::Sum, None, args, at),
            Fun::Min => self.fold(FoldKind::Min, None, args, at),
            Fun::Max => self.fold(FoldKind::Max, None, args, at),
            Fun::Count => self.fold(FoldKind::Count, None, args, at),
            Fun::Abs => call_one(OfOne::Abs, self.given(args, at), self.texts()),
            Fun::Len => call_one(OfOne::Len, self.given(args, at), self.texts()),
            Fun::Mod => call_two(OfTwo::Table(Op2::Mod), self.given(args, at), self.texts()),
            Fun::Quotient => call_two(
                OfTwo::Table(Op2::Quotient),
                self.given(args, at),
                self.texts(),
            ),
            Fun::Left => call_two(
                OfTwo::Left,
                count_or_one(self.given(args, at)),
                self.texts(),
            ),
            Fun::Right => call_two(
                OfTwo::Right,
                count_or_one(self.given(args, at)),
                self.texts(),
            ),
            Fun::Mid => call_mid(self.given(args, at), self.texts()),
            Fun::Index => self.call_index(self.given(args, at)),
            Fun::Match => self.call_match(self.given(args, at)),
            Fun::VLookup => self.call_v_lookup(self.given(args, at)),
            Fun::HLookup => self.call_h_lookup(self.given(args, at)),
        }
    }

    /// An argument.
    #[cycle(formula)]
    fn argument(&self, tree: &Tree, at: Addr) -> Argument
        requires { IsFormulaOf self.now.texts (expr_of tree.now) }
        ensures same { result ≡ argument_of self.now at (expr_of tree.now) }
        ensures text { IsAnswerOf self.now.texts result.value }
        ensures area { HasArea result.place }
    {
        Argument {
            value: self.ask(tree, at),
            place: place_of(tree, at),
        }
    }

    /// The first three arguments.
    #[cycle(formula)]
    fn given(&self, args: &Args, at: Addr) -> Given
        requires { AreArgumentsOf self.now.texts (exprs_of args.now) }
        ensures same { result ≡ given_by self.now at (exprs_of args.now) }
        ensures texts { AreGivenOf self.now.texts result }
        ensures areas { HaveAreas result }
    {
        match args {
            Args::End => Given::Zero,
            Args::More(a, rest) => {
                let first = self.argument(a, at);
                match self.given(rest, at) {
                    Given::Zero => Given::One(first),
                    Given::One(b) => Given::Two(first, b),
                    Given::Two(b, c) => Given::Three(first, b, c),
                    Given::Three(b, c, _) => Given::Four(first, b, c),
                    Given::Four(b, c, _) => Given::Four(first, b, c),
                }
            }
        }
    }

    /// AND: it ends with FALSE at the first FALSE.
    #[cycle(formula)]
    #[tactic(auto, using(crate::proofs::Rules::and_is))]
    fn and(&self, args: &Args, at: Addr) -> Asked
        requires { AreArgumentsOf self.now.texts (exprs_of args.now) }
        ensures { result ≡ ask_on self.now at (Call Fun.And (exprs_of args.now)) }
    {
        match args {
            Args::End => Asked::Val(Value::Bool(true)),
            Args::More(a, rest) => if_then(
                self.ask(a, at),
                self.and(rest, at),
                Asked::Val(Value::Bool(false)),
            ),
        }
    }

    /// OR: it ends with TRUE at the first TRUE.
    #[cycle(formula)]
    #[tactic(auto, using(crate::proofs::Rules::or_is))]
    fn or(&self, args: &Args, at: Addr) -> Asked
        requires { AreArgumentsOf self.now.texts (exprs_of args.now) }
        ensures { result ≡ ask_on self.now at (Call Fun.Or (exprs_of args.now)) }
    {
        match args {
            Args::End => Asked::Val(Value::Bool(false)),
            Args::More(a, rest) => if_then(
                self.ask(a, at),
                Asked::Val(Value::Bool(true)),
                self.or(rest, at),
            ),
        }
    }

    /// CHOOSE: the index, and then that one argument.
    #[cycle(formula)]
    #[tactic(auto, using(crate::proofs::Rules::choose_is))]
    fn choose(&self, args: &Args, at: Addr) -> Asked
        requires { AreArgumentsOf self.now.texts (exprs_of args.now) }
        ensures { result ≡ ask_on self.now at (Call Fun.Choose (exprs_of args.now)) }
    {
        match args {
            Args::End => fails(Code::Value),
            Args::More(index, rest) => match index_of(self.ask(index, at)) {
                Ok(Some(n)) => self.chosen(n, rest, at),
                Ok(None) => fails(Code::Value),
                Err(ended) => ended,
            },
        }
    }

    /// What the argument with a number gives, counted from 0.
    #[cycle(formula)]
    #[tactic(auto, using(crate::proofs::Rules::later_is))]
    fn chosen(&self, n: u128, args: &Args, at: Addr) -> Asked
        requires { AreArgumentsOf self.now.texts (exprs_of args.now) }
        ensures { result ≡ ask_argument (book_of self.now) (known_of self.now) at (argument_at n (exprs_of args.now)) }
    {
        match args {
            Args::End => fails(Code::Value),
            Args::More(a, rest) => {
                if n == 0 {
                    self.ask(a, at)
                } else {
                    self.chosen(n - 1, rest, at)
                }
            }
        }
    }

    /// SUM, MIN, MAX and COUNT over the arguments that are left.
    #[cycle(formula)]
    #[tactic(auto, using(crate::proofs::Rules::fold_is))]
    fn fold(&self, kind: FoldKind, total: Option<Int>, args: &Args, at: Addr) -> Asked
        requires { AreArgumentsOf self.now.texts (exprs_of args.now) }
        ensures { result ≡ ask_fold (book_of self.now) (known_of self.now) at kind total (exprs_of args.now) }
    {
        match args {
            Args::End => Asked::Val(end_of(total)),
            Args::More(a, rest) => {
                let first = self.argument(a, at);
                match self.fold_part(kind, total, first.place, first.value) {
                    Ok(total) => self.fold(kind, total, rest, at),
                    Err(ended) => ended,
                }
            }
        }
    }
}
