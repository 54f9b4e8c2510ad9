//! What each kind of turn comes to, and what a factory leaves: laws, each the clause of a function that changes nothing.

ghost use Rattle.drive_scene.specs.Laws.{StillTurnsAreGood, DamageTurnsAreGood, HalvesAreGood, TriesAreHalves, GetsAreHalves, PutsAreHalves, PutsThroughAreHalves, HardensAreHalves, PassesToHardenAreHalves, PassesAreHalves, DestagesAreGood, DestagesLeaveCommands, MapsStay, FactoriesLeaveZeros};

use geometry_map::two_blocks_are_never_at_one_sector;

/// A turn without operations that is about no block is good: an arrival, a function, a start, minutes that pass.
pub fn still_turns_are_good()
    ensures { StillTurnsAreGood }
{}

/// Damage is good where it leaves the map and what is stored as they were.
pub fn damage_turns_are_good()
    ensures { DamageTurnsAreGood }
{}

/// Half a turn is a good turn, where its command goes on, and with its end where it ends.
pub fn halves_are_good()
    ensures { HalvesAreGood }
{}

/// A command tries a block and does not get it.
pub fn tries_are_halves()
    ensures { TriesAreHalves }
{}

/// A command gets a block: from the cache, by a try, or as lost.
pub fn gets_are_halves()
    ensures { GetsAreHalves }
{}

/// A command puts a block into the cache.
pub fn puts_are_halves()
    ensures { PutsAreHalves }
{}

/// A command puts a block to its place on the medium.
pub fn puts_through_are_halves()
    ensures { PutsThroughAreHalves }
{}

/// A command writes the newest data of a dirty block to its place.
pub fn hardens_are_halves()
    ensures { HardensAreHalves }
{}

/// SYNCHRONIZE CACHE passes over clean blocks and hardens the dirty one behind them.
pub fn passes_to_harden_are_halves()
    ensures { PassesToHardenAreHalves }
{}

/// SYNCHRONIZE CACHE passes over the rest of its range.
pub fn passes_are_halves()
    ensures { PassesAreHalves }
{}

/// The drive writes the newest data of the next block to destage to its place, on its own.
pub fn destages_are_good()
    ensures { DestagesAreGood }
{}

/// A destage leaves commands as they were, and one block hardened.
pub fn destages_leave_commands()
    ensures { DestagesLeaveCommands }
{}

/// Turns leave the measures as they were and, where no move is in flight, the map too.
pub fn maps_stay()
    ensures { MapsStay }
{}

/// A factory leaves the power on, no sector with a write fault, and each block as zeros.
pub fn factories_leave_zeros()
    ensures { FactoriesLeaveZeros }
{
    two_blocks_are_never_at_one_sector();
}
