//! Which literals may be arguments where no expression may stand.

ghost use Rattle.std.specs.Prelude.{◌≡◌};
ghost use Rattle.formula_grammar.specs.Syntax.{is_exact, is_alone};

use formula_tokens::Literal;
use formula_trees::Kind;

/// Whether the literal may be an argument of a kind that no expression may be.
pub fn is_alone(kind: Kind, literal: Literal) -> bool
    ensures { result ≡ is_alone kind literal }
{
    match kind {
        Kind::Place => matches!(literal, Literal::RefError),
        Kind::Exact => is_exact(literal),
        Kind::Plain | Kind::Many => false,
    }
}

/// A number of value 0, or FALSE.
fn is_exact(literal: Literal) -> bool
    ensures { result ≡ is_exact literal }
{
    match literal {
        Literal::Number(n) => n == 0,
        Literal::Truth(b) => !b,
        Literal::HugeNumber | Literal::Text(_) | Literal::RefError => false,
    }
}
