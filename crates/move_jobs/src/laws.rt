//! Laws on the chain of a move and on the answers to its needs.
ghost use Rattle.move_jobs.specs.Laws.{AnswersKeepTheChain, SpareIsTheEnd, AnswersLeaveFewer, FewAreLeft};

/// Law: a chain that goes on from a sector still does so after an answer, and isn't empty.
pub fn answers_keep_the_chain()
    ensures { AnswersKeepTheChain }
{}

/// Law: the spare in hand is where the chain ends.
pub fn the_spare_is_the_end_of_the_chain()
    ensures { SpareIsTheEnd }
{}

/// Law: each answer that fits leaves fewer answers to come, and of a move with a pair there are never more than two for
/// each pair that a move may have, and one.
pub fn answers_come_to_an_end()
    ensures fewer { AnswersLeaveFewer }
    ensures few { FewAreLeft }
{}
