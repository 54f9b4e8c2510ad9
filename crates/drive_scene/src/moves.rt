//! What holds of moves of blocks to spares: laws, each the clause of a function that changes nothing.

ghost use Rattle.drive_scene.specs.CommitTurn.{CommitTurnsStand};
ghost use Rattle.drive_scene.specs.CommitTasks.{CommitsMayBeTold};
ghost use Rattle.drive_scene.specs.MoveLaws.{MovesAreGood};
ghost use Rattle.drive_scene.specs.Flights.{FlightsStay, FlightsAreReadyToCommit, MovesGoOn, MovesLeaveOthers, CommitsLeaveOthers};

use geometry_map::{
    a_chain_moves_one_block, blocks_are_at_user_sectors, no_block_is_at_a_free_spare,
    the_next_spare_is_free, two_blocks_are_never_at_one_sector,
};
use move_jobs::{answers_keep_the_chain, the_spare_is_the_end_of_the_chain};
use sector_store::spares_are_user_sectors;

/// What is ready to be committed stands after the commit: by the next map where it is done, by either map where it is cut off.
pub fn commit_turns_stand()
    ensures { CommitTurnsStand }
{
    two_blocks_are_never_at_one_sector();
    blocks_are_at_user_sectors();
    a_chain_moves_one_block();
    no_block_is_at_a_free_spare();
    spares_are_user_sectors();
    the_spare_is_the_end_of_the_chain();
}

/// A move in flight that is left alone stays what it is.
pub fn flights_stay()
    ensures { FlightsStay }
{}

/// While no operation is a stray, a move in flight whose spare was checked is ready to be committed.
pub fn flights_are_ready_to_commit()
    ensures { FlightsAreReadyToCommit }
{}

/// The turn of a move that writes to its spare or checks it, and isn't over then, tells nothing, and the move is in flight after it.
pub fn moves_go_on()
    ensures { MovesGoOn }
{
    no_block_is_at_a_free_spare();
    the_next_spare_is_free();
    answers_keep_the_chain();
}

/// A move that goes on leaves each other move in flight alone.
pub fn moves_leave_others()
    ensures { MovesLeaveOthers }
{
    no_block_is_at_a_free_spare();
}

/// The commit of a move leaves alone each other move in flight whose owner it leaves.
pub fn commits_leave_others()
    ensures { CommitsLeaveOthers }
{
    two_blocks_are_never_at_one_sector();
    blocks_are_at_user_sectors();
    a_chain_moves_one_block();
    no_block_is_at_a_free_spare();
    spares_are_user_sectors();
}

/// What the commit of a move tells may come, as far as commands go, where its owner, if it is in, takes the commit.
pub fn commits_may_be_told()
    ensures { CommitsMayBeTold }
{}

/// The turn of a move in flight, which goes on, ends for want of a spare or is committed, is good where the power stays on, nobody
/// else holds its block, the map after it is there and its owner takes a commit.
pub fn moves_are_good()
    ensures { MovesAreGood }
{
    two_blocks_are_never_at_one_sector();
    blocks_are_at_user_sectors();
    a_chain_moves_one_block();
    no_block_is_at_a_free_spare();
    spares_are_user_sectors();
    the_spare_is_the_end_of_the_chain();
}
