//! What turns leave of the moves in flight: laws, each the clause of a function that changes nothing.

ghost use Rattle.drive_scene.specs.InFlight.{OthersLeaveFlights, TurnsKeepFlights, NoFlightsAreValid, FlightsFit};

use geometry_map::{
    a_chain_moves_one_block, a_chain_of_free_spares_fits, blocks_are_at_user_sectors,
    no_block_is_at_a_free_spare, the_next_spare_is_free, two_blocks_are_never_at_one_sector,
};
use move_jobs::answers_keep_the_chain;
use sector_store::spares_are_user_sectors;

/// A good turn of anything but a move leaves alone each move that is in flight after it.
pub fn others_leave_flights()
    ensures { OthersLeaveFlights }
{
    two_blocks_are_never_at_one_sector();
    no_block_is_at_a_free_spare();
}

/// After each good turn the moves in flight and the map are what they have to be, if they were before it.
pub fn turns_keep_flights()
    ensures { TurnsKeepFlights }
{
    two_blocks_are_never_at_one_sector();
    blocks_are_at_user_sectors();
    a_chain_moves_one_block();
    no_block_is_at_a_free_spare();
    spares_are_user_sectors();
    the_next_spare_is_free();
    answers_keep_the_chain();
    a_chain_of_free_spares_fits();
}

/// Where no move is in flight, a valid map of the drive's measures is all that is asked.
pub fn no_flights_are_valid()
    ensures { NoFlightsAreValid }
{}

/// The map's list has room for the pairs of each move in flight, so that it may be committed.
pub fn flights_fit()
    ensures { FlightsFit }
{
    blocks_are_at_user_sectors();
    a_chain_of_free_spares_fits();
}
