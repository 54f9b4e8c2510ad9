//! Laws on needs, answers and deeds.
ghost use Rattle.command_engine.specs.Laws.{DeedsAreThoseOfThePlan, TheAnswersComeToAnEnd, EndsByThePlan};

/// Law: whatever answers fit, one after another, the deeds that they stand for are a beginning of the plan's, and what the
/// plan owes after them is what the command stands at; and where nothing is needed any more, the deeds with the end by
/// `ending` fulfil the plan.
pub fn deeds_are_those_of_the_plan()
    ensures beginning { DeedsAreThoseOfThePlan }
    ensures end { EndsByThePlan }
{}

/// Law: no more answers fit, one after another, than are still to come at most.
pub fn the_answers_come_to_an_end()
    ensures { TheAnswersComeToAnEnd }
{}
