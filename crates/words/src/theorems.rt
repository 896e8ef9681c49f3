//! Theorems, each the contract of a function that does nothing else.
ghost use Rattle.words.specs.Theorems.{LinesSplit, NumbersWritten, WordsSplit};

/// The words of a line are free of spaces, and joined by single spaces they give the line back; no other words do.
pub fn words_split_stands()
    ensures { WordsSplit }
{}

/// The lines of a text are free of newlines, and joined by newlines they give the text back; no other lines do.
pub fn lines_split_stands()
    ensures { LinesSplit }
{}

/// A word is a number just if it is that number in decimal, with at most 13 digits.
pub fn numbers_written_stands()
    ensures { NumbersWritten }
{}
