//! Laws of the definitions, each the clause of a function with an empty body.

ghost use Rattle.script_text.specs.Laws.{LinesReadAgain, CommentsMeanNothing, ScriptsReadAgain};

/// A line of the body, printed, reads as the same line.
pub fn lines_read_again()
    ensures { LinesReadAgain }
{}

/// Without an empty line or a comment, a script means the same.
pub fn comments_mean_nothing()
    ensures { CommentsMeanNothing }
{}

/// A script that was read, printed, reads back as the same script, where the print has no more lines than a script may
/// have.
pub fn scripts_read_again()
    ensures { ScriptsReadAgain }
{}
