//! Laws on the histories that a script allows: each is the clause of a function that does nothing.
ghost use Rattle.history_checker.specs.Laws.{AllHaveCome, AreAccountedFor, AreLeftByCuts, AreLegal, AreOfScript, NoneMayFollow, OfGoodHistories};

/// A history that a script allows is a legal history of an array of its blocks, so each law on those holds of it.
pub fn good_histories_are_legal()
    ensures { OfGoodHistories AreLegal }
{}

/// Where the power never goes off, the commands and functions that came are the script's: each initiator's in their order, all of
/// them and none twice.
pub fn good_histories_have_all_lines()
    ensures { OfGoodHistories AllHaveCome }
{}

/// Whatever the power does, the commands and functions that came are the script's: each initiator's in their order, and none twice.
pub fn good_histories_have_lines_of_the_script()
    ensures { OfGoodHistories AreOfScript }
{}

/// What of the script didn't come stands in a phase with a cut, or in one that began with the power off. The turns fall to the
/// phases and to what happens from outside, one after another.
pub fn good_histories_leave_lines_by_cuts_alone()
    ensures { OfGoodHistories AreLeftByCuts }
{}

/// As many commands came in it as ended, were aborted and were cut off.
pub fn good_histories_end_all_commands()
    ensures { OfGoodHistories AreAccountedFor }
{}

/// Behind it no further arrival may come, and nothing further from outside.
pub fn none_may_follow()
    ensures { OfGoodHistories NoneMayFollow }
{}
