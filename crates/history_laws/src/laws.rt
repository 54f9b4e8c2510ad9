//! Laws on legal histories: each is the clause of a function that does nothing.

ghost use Rattle.block_machine.specs.Laws.{OfTaskLegalHistories};
ghost use Rattle.history_laws.specs.Order.{TasksStartInOrder};
ghost use Rattle.history_laws.specs.Unread.{UnreadEndsFollowBadGets};

/// While an ORDERED command is in, no younger one starts but a HEAD OF QUEUE one, and itself it starts only once all older ones
/// are over. While a HEAD OF QUEUE command is in, no other starts but a HEAD OF QUEUE one.
pub fn tasks_start_in_order()
    ensures { OfTaskLegalHistories TasksStartInOrder }
{}

/// Where a command ends with UNRECOVERED READ ERROR at a block, whatever it asked for, the last that it did to a block in this turn
/// was a bad get of this one.
pub fn unread_ends_follow_bad_gets()
    ensures { OfTaskLegalHistories UnreadEndsFollowBadGets }
{}
