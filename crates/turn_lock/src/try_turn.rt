//! The answer of a try.

/// What a try to make a turn comes to. A is the answer of a step, and E an event.
#[derive(Drop)]
pub enum TryTurn<A, E> {
    /// The step's answer.
    Done(A),
    /// Another call had claimed the turn. The event comes back.
    Busy(E),
}
