//! Laws of the tables and of the folds, each proved for all values.

ghost use Rattle.cell_values.specs.Texts.{Texts};
ghost use Rattle.cell_values.specs.declared.values.Value.{Value};
ghost use Rattle.std.specs.Prelude.{List, Bool};
ghost use Rattle.builtin_functions.specs.Laws.{SameIsSymmetric, TextsCompareByBytes, OrderTurns, ModuloIsRemainder, QuotientIsTruncated, WalksJoin, WalkFinds, SumsAdd, SumIsSum};

/// `=` does not tell its two sides apart.
pub fn law_same_is_symmetric()
    ensures { SameIsSymmetric }
{}

/// Two texts compare by their bytes, of whichever kind each is: a computed text equals a text of the
/// book with the same bytes.
pub fn law_texts_compare_by_bytes()
    ensures { TextsCompareByBytes }
{}

/// `a < b` is `b > a`, and `a <= b` is `b >= a`, also where the two have no order.
pub fn law_order_turns()
    ensures { (ts : Texts) (a b : Value) → OrderTurns ts a b }
{}

/// MOD is congruent to the dividend, smaller than the divisor, and has its sign or is 0.
pub fn law_modulo_is_remainder()
    ensures { ModuloIsRemainder }
{}

/// The quotient times the divisor and a remainder with the dividend's sign are the dividend.
pub fn law_quotient_is_truncated()
    ensures { QuotientIsTruncated }
{}

/// A walk over two lists is one over the first, and then one over the second.
pub fn law_walks_join()
    ensures { WalksJoin }
{}

/// Where the walk comes to its end, SUM is the sum of the Numbers, MIN and MAX the least and the
/// greatest of them, and COUNT how many there are, as long as that fits.
pub fn law_walk_finds()
    ensures { (vs : List (Value × Bool)) → WalkFinds vs }
{}

/// SUM of two lists joined is the sum of both, where all three walks come to their end.
pub fn law_sums_add()
    ensures { SumsAdd }
{}

/// SUM of Numbers none of whose running sums leaves the range is their sum.
pub fn law_sum_is_sum()
    ensures { SumIsSum }
{}
