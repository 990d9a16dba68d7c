//! Laws of the words, and command lines that are worked out. The checker proves each statement, and no call does
//! anything.

ghost use Rattle.command_line.specs.Plain.{PlainWordsRead};
ghost use Rattle.command_line.specs.Rows.{ScaleAnywhere, NamesRead, OptionsEnded, NumbersRead, NumbersRefused};
ghost use Rattle.command_line.specs.Rows.{DashesRefused, CountsRefused};

/// Three plain words are read, with no option and with one anywhere.
pub fn plain_words()
    ensures { PlainWordsRead }
{}

/// Command lines that are read.
pub fn read()
    ensures anywhere { ScaleAnywhere }
    ensures names { NamesRead }
    ensures ended { OptionsEnded }
    ensures numbers { NumbersRead }
{}

/// Command lines that are refused.
pub fn refused()
    ensures numbers { NumbersRefused }
    ensures dashes { DashesRefused }
    ensures counts { CountsRefused }
{}
