//! Laws over the definitions that are proved, as contracts of functions with an empty body.
ghost use Rattle.tam_word.specs.PrintedNumbers.{WordsReadBack, NumbersReadBack, NumbersAreSpeltOnce};

/// What is printed of a word reads as the word, what is printed of a number as the number, and a number has no second spelling.
pub fn law_printed()
    ensures words { WordsReadBack }
    ensures numbers { NumbersReadBack }
    ensures spelt_once { NumbersAreSpeltOnce }
{}
