//! What a pass knows.
use std::collections::LinkedList;

/// What a pass knows of the lock's list. It exists in proofs alone: no value of it is ever made.
/// U is a turn of the list, and K what no turn changes.
pub struct View<U, K> {
    /// What no turn changes, or nothing in a spent view.
    pub kept: Option<K>,
    /// The length of the list when the lock was made.
    pub first: u64,
    /// The beginning of the list that the pass has seen.
    pub seen: LinkedList<U>,
    /// The numbers of the turns that the pass made, counted from 1 at the front of the list.
    pub mine: LinkedList<u64>,
    /// The numbers that passes had, their own and met ones, when this one met them.
    pub met: LinkedList<u64>,
    /// How many tries found the turn claimed by another call.
    pub refused: u64,
    /// While the pass has the turn claimed, the list that it found.
    pub had: Option<LinkedList<U>>,
    /// In the midst of a meeting, what the other pass has seen.
    pub beside: LinkedList<U>,
    /// In the midst of a meeting, the numbers of the other pass.
    pub theirs: LinkedList<u64>,
}
