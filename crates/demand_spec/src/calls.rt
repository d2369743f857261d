//! What calls give from what their arguments give; with a wrong number of arguments `#VALUE!`.
ghost use Rattle.std.specs.Prelude.{◌≡◌};
ghost use Rattle.demand_spec.specs.Asks.{answer_of, v_lookup_steps, h_lookup_steps};
ghost use Rattle.demand_spec.specs.Given.{AreGivenOf, HaveAreas, IsAnswerOf, if_rule, not_rule, if_error_rule, is_error_rule, one_given, one_rule, two_given, two_rule, mid_of_three, mid_rule, index_rule, match_rule, lookup_rule};

use crate::Asked;
use crate::arguments::{Given, OfOne, OfTwo, if_error_of, if_then, is_error_of, not_of};
use crate::context::Stage;
use crate::outcomes::{answer, fails, no_error};
use cell_values::{Code, Texts, Value};
use computed_text::mid;

/// IF; FALSE stands for a missing third argument.
pub(crate) fn call_if(given: Given) -> Asked
    ensures { result ≡ if_rule given }
{
    match given {
        Given::Two(c, t) => if_then(c.value, t.value, Asked::Val(Value::Bool(false))),
        Given::Three(c, t, e) => if_then(c.value, t.value, e.value),
        Given::Zero => fails(Code::Value),
        Given::One(_) => fails(Code::Value),
        Given::Four(_, _, _) => fails(Code::Value),
    }
}

/// NOT.
pub(crate) fn call_not(given: Given) -> Asked
    ensures { result ≡ not_rule given }
{
    match given {
        Given::One(a) => not_of(a.value),
        Given::Zero => fails(Code::Value),
        Given::Two(_, _) => fails(Code::Value),
        Given::Three(_, _, _) => fails(Code::Value),
        Given::Four(_, _, _) => fails(Code::Value),
    }
}

/// IFERROR.
pub(crate) fn call_if_error(given: Given) -> Asked
    ensures { result ≡ if_error_rule given }
{
    match given {
        Given::Two(a, b) => if_error_of(a.value, b.value),
        Given::Zero => fails(Code::Value),
        Given::One(_) => fails(Code::Value),
        Given::Three(_, _, _) => fails(Code::Value),
        Given::Four(_, _, _) => fails(Code::Value),
    }
}

/// ISERROR.
pub(crate) fn call_is_error(given: Given) -> Asked
    ensures { result ≡ is_error_rule given }
{
    match given {
        Given::One(a) => is_error_of(a.value),
        Given::Zero => fails(Code::Value),
        Given::Two(_, _) => fails(Code::Value),
        Given::Three(_, _, _) => fails(Code::Value),
        Given::Four(_, _, _) => fails(Code::Value),
    }
}

/// A function of one value.
#[tactic(auto, using(crate::proofs::Rules::value_is_of))]
pub(crate) fn call_one(function: OfOne, given: Given, texts: &Texts) -> Asked
    requires { AreGivenOf texts.now given }
    ensures { result ≡ one_rule (one_given texts.now function) given }
{
    match given {
        Given::One(a) => match no_error(a.value) {
            Ok(x) => Asked::Val(function.at(x, texts)),
            Err(ended) => ended,
        },
        Given::Zero => fails(Code::Value),
        Given::Two(_, _) => fails(Code::Value),
        Given::Three(_, _, _) => fails(Code::Value),
        Given::Four(_, _, _) => fails(Code::Value),
    }
}

/// A function of two values.
#[tactic(auto, using(crate::proofs::Rules::value_is_of))]
pub(crate) fn call_two(function: OfTwo, given: Given, texts: &Texts) -> Asked
    requires { AreGivenOf texts.now given }
    ensures { result ≡ two_rule (two_given texts.now function) given }
{
    match given {
        Given::Two(a, b) => match (no_error(a.value), no_error(b.value)) {
            (Ok(x), Ok(y)) => Asked::Val(function.at(x, y, texts)),
            (Ok(_), Err(ended)) => ended,
            (Err(ended), _) => ended,
        },
        Given::Zero => fails(Code::Value),
        Given::One(_) => fails(Code::Value),
        Given::Three(_, _, _) => fails(Code::Value),
        Given::Four(_, _, _) => fails(Code::Value),
    }
}

/// The characters of a text from a number on, so many of them: the text, the number, the count.
#[tactic(auto, using(crate::proofs::Rules::value_is_of))]
fn middle(text: Asked, start: Asked, count: Asked, texts: &Texts) -> Result<Value, Asked>
    requires text { IsAnswerOf texts.now text }
    requires start { IsAnswerOf texts.now start }
    requires count { IsAnswerOf texts.now count }
    ensures { answer_of result ≡ mid_of_three texts.now text start count }
{
    let text = no_error(text)?;
    let start = no_error(start)?;
    let count = no_error(count)?;
    Ok(mid(text, start, count, texts))
}

/// MID.
pub(crate) fn call_mid(given: Given, texts: &Texts) -> Asked
    requires { AreGivenOf texts.now given }
    ensures { result ≡ mid_rule texts.now given }
{
    match given {
        Given::Three(text, start, count) => answer(middle(
            text.value,
            start.value,
            count.value,
            texts,
        )),
        Given::Zero => fails(Code::Value),
        Given::One(_) => fails(Code::Value),
        Given::Two(_, _) => fails(Code::Value),
        Given::Four(_, _, _) => fails(Code::Value),
    }
}

impl<'a> Stage<'a> {
    ghost use Rattle.demand_spec.specs.Stage.{look_on};

    /// INDEX.
    pub(crate) fn call_index(&self, given: Given) -> Asked
        requires { HaveAreas given }
        ensures { result ≡ index_rule self.now given }
    {
        match given {
            Given::Three(range, row, col) => answer(self.index(range.place, row.value, col.value)),
            Given::Zero => fails(Code::Value),
            Given::One(_) => fails(Code::Value),
            Given::Two(_, _) => fails(Code::Value),
            Given::Four(_, _, _) => fails(Code::Value),
        }
    }

    /// MATCH.
    pub(crate) fn call_match(&self, given: Given) -> Asked
        requires texts { AreGivenOf self.now.texts given }
        requires areas { HaveAreas given }
        ensures { result ≡ match_rule self.now given }
    {
        match given {
            Given::Two(key, range) => answer(self.position(key.value, range.place)),
            Given::Three(key, range, _) => answer(self.position(key.value, range.place)),
            Given::Four(key, range, _) => answer(self.position(key.value, range.place)),
            Given::Zero => fails(Code::Value),
            Given::One(_) => fails(Code::Value),
        }
    }

    /// VLOOKUP.
    pub(crate) fn call_v_lookup(&self, given: Given) -> Asked
        requires texts { AreGivenOf self.now.texts given }
        requires areas { HaveAreas given }
        ensures { result ≡ lookup_rule (v_lookup_steps (look_on self.now) self.now.texts) given }
    {
        match given {
            Given::Three(key, range, col) => answer(self.v_lookup(
                key.value,
                range.place,
                col.value,
            )),
            Given::Four(key, range, col) => answer(self.v_lookup(
                key.value,
                range.place,
                col.value,
            )),
            Given::Zero => fails(Code::Value),
            Given::One(_) => fails(Code::Value),
            Given::Two(_, _) => fails(Code::Value),
        }
    }

    /// HLOOKUP.
    pub(crate) fn call_h_lookup(&self, given: Given) -> Asked
        requires texts { AreGivenOf self.now.texts given }
        requires areas { HaveAreas given }
        ensures { result ≡ lookup_rule (h_lookup_steps (look_on self.now) self.now.texts) given }
    {
        match given {
            Given::Three(key, range, row) => answer(self.h_lookup(
                key.value,
                range.place,
                row.value,
            )),
            Given::Four(key, range, row) => answer(self.h_lookup(
                key.value,
                range.place,
                row.value,
            )),
            Given::Zero => fails(Code::Value),
            Given::One(_) => fails(Code::Value),
            Given::Two(_, _) => fails(Code::Value),
        }
    }
}
