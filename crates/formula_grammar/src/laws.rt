//! Laws of the grammar, each proved for all tokens.

ghost use Rattle.formula_grammar.specs.Laws.{TreeOrFault, NeverBoth, OneTree, OneFault, ReadIsSound};
ghost use Rattle.formula_grammar.specs.Reading.{IsReadable, TextHasOne, ReadingsAgree, LongerMean, FaultsStay};
ghost use Rattle.formula_grammar.specs.RoundTrip.{PrintedReadsBack, PrintedInternsNothing};

/// Tokens have a tree or a first fault, and never both.
pub fn law_tree_or_fault()
    ensures some { TreeOrFault }
    ensures not_both { NeverBoth }
{}

/// Tokens have one tree at a cell, and one first fault.
pub fn law_one_answer()
    ensures tree { OneTree }
    ensures fault { OneFault }
{}

/// What is read within the limits is a sound formula.
pub fn law_read_is_sound()
    ensures { ReadIsSound }
{}

/// A text that begins with `=` has a tree or a fault, never both, and not two of either. So there is a reading of
/// texts, and any two of them read each text alike.
pub fn law_one_reading()
    ensures one { TextHasOne }
    ensures there { IsReadable }
    ensures agree { ReadingsAgree }
{}

/// More texts do not change what a formula means, and no texts matter for its fault.
pub fn law_texts_apart()
    ensures tree { LongerMean }
    ensures fault { FaultsStay }
{}

/// What is printed of a sound formula is a text that means it again over the same texts, and to read it interns
/// nothing, where it has at most 1,024 bytes.
pub fn law_printed_reads_back()
    ensures means { PrintedReadsBack }
    ensures interns_nothing { PrintedInternsNothing }
{}
