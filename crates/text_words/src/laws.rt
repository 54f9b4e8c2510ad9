//! Laws of the definitions, each the clause of a function with an empty body.

ghost use Rattle.text_words.specs.Laws.{NumbersReadAgain, NumbersAreSpelled, SignedNumbersReadAgain, DigitsReadAgain, WordsSplitAgain, WordsAreSpelled};

/// A number printed reads again, where it is in the range that is wanted.
pub fn numbers_read_again()
    ensures { NumbersReadAgain }
{}

/// A word that gives a number is that number printed.
pub fn numbers_are_spelled()
    ensures { NumbersAreSpelled }
{}

/// A number printed with its sign reads again.
pub fn signed_numbers_read_again()
    ensures { SignedNumbersReadAgain }
{}

/// The digits of bytes read again.
pub fn digits_read_again()
    ensures { DigitsReadAgain }
{}

/// Words without a blank, after blanks, are split again.
pub fn words_split_again()
    ensures { WordsSplitAgain }
{}

/// A line is its words after blanks.
pub fn words_are_spelled()
    ensures { WordsAreSpelled }
{}
