//! Laws of the definitions. Each function does nothing, and its contract is the law.
ghost use Rattle.text_words.specs.Laws.{PartsJoin, NaturalsReturn, IntegersReturn};
ghost use Rattle.text_words.specs.Rows.{LineRows, WordRows, NaturalRows, IntegerRows};

/// The parts of a text, joined by the separator, give the text back.
pub fn parts_join()
    ensures { PartsJoin }
{}

/// A number that is printed is read again, signed or not.
pub fn printed_numbers_return()
    ensures naturals { NaturalsReturn }
    ensures integers { IntegersReturn }
{}

/// The lines, words and numbers of some small texts.
pub fn rows()
    ensures lines { LineRows }
    ensures words { WordRows }
    ensures naturals { NaturalRows }
    ensures integers { IntegerRows }
{}
