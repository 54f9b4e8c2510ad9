//! Laws of the definitions, each the clause of a function with an empty body.

ghost use Rattle.run_picture.specs.Laws.{EntriesAreMarked, SpansAreOpened, WordsAreTheReports};
ghost use Rattle.run_picture.specs.Nesting.{PicturesAreNested};
ghost use Rattle.run_picture.specs.Ids.{ColumnsAreNamed, NamesAreDistinct};
ghost use Rattle.run_picture.specs.Harmless.{EntriesAreHarmless, LabelsAreHarmless};

/// Each entry has one mark at a turn, in order.
pub fn entries_are_marked()
    ensures { EntriesAreMarked }
{}

/// Each command that came, each put, each block given up and each cut has one mark over turns, in order, and nothing else has.
pub fn spans_are_opened()
    ensures { SpansAreOpened }
{}

/// The words of a mark are the first of its entry's in a report.
pub fn words_are_the_reports()
    ensures { WordsAreTheReports }
{}

/// A picture's tags close what they open, the innermost first.
pub fn pictures_are_nested()
    ensures { PicturesAreNested }
{}

/// A picture names the columns of its turns, and nothing else.
pub fn columns_are_named()
    ensures { ColumnsAreNamed }
{}

/// No name is given twice in the picture of a range of turns.
pub fn names_are_distinct()
    ensures { NamesAreDistinct }
{}

/// The words of an entry have no character that XML reads otherwise, where its numbers are in the ranges of their types.
pub fn entries_are_harmless()
    ensures { EntriesAreHarmless }
{}

/// Nor have those of a label.
pub fn labels_are_harmless()
    ensures { LabelsAreHarmless }
{}
