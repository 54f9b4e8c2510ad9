//! Laws on replaying: each is the clause of a function that does nothing.
ghost use Rattle.history_replay.specs.Replay.{LegalHasBoth, LegalLeavesTheseBlocks};

/// A history is legal exactly where each turn may come for its commands and the blocks allow its entries.
pub fn legal_where_both_are()
    ensures { LegalHasBoth }
{}

/// The blocks after a history are those that its entries leave.
pub fn histories_leave_these_blocks()
    ensures { LegalLeavesTheseBlocks }
{}
