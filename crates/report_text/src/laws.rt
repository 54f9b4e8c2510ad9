//! Laws of the definitions, each the clause of a function with an empty body.

ghost use Rattle.report_text.specs.Laws.{ReportsReadAgain};

/// The whole report of a run is the report of its turns, where their operations follow each other without a gap behind the
/// factory's, their findings are those that ticks, status and block give, and what happens from outside is lawful for some
/// drive. So `read_run` gives these turns back.
pub fn reports_read_again()
    ensures { ReportsReadAgain }
{}
