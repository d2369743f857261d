//! Laws of the tokens, each proved for all texts.

ghost use Rattle.formula_tokens.specs.Laws.{InternedAreHeld, HeldStay, LongerHold, LongerAgree, WrittenAreRead, BlanksMayFollow, CapitalsAgree};

/// Once the literals of a formula are interned, the texts hold them; and where they held them before, they stay as
/// they are.
pub fn law_literals_interned()
    ensures there { InternedAreHeld }
    ensures stay { HeldStay }
{}

/// Texts that begin with those which hold a formula's literals hold them too, under the same numbers: the formula has
/// the same tokens.
pub fn law_longer_texts()
    ensures hold { LongerHold }
    ensures agree { LongerAgree }
{}

/// The tokens of any list, written one after the other with blanks where they are needed, in either case, are read as
/// this list. A blank is enough behind each, and a word in capitals is the same token.
pub fn law_written_are_read()
    ensures read { WrittenAreRead }
    ensures blanks { BlanksMayFollow }
    ensures capitals { CapitalsAgree }
{}
