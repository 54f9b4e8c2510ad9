//! What users may count on, over any list of arrivals and power cuts. No function here does anything: what counts is its
//! clause, whose words stand in specs/.
ghost use Rattle.reservations.specs.Laws.{AskingChangesNothing, AttentionsAreToldOnce, HoldersAreRegistered, KeysAreShown, KeysAreTheirOwn};
ghost use Rattle.reservations.specs.Laws.{ReadsAreKeptOut, ReservationsAreShown, ReservationsAreTheirOwn, WritesAreKeptOut};

use sense_data::known_stay_known;

/// While one initiator holds the unit no write of another is admitted, unless the type is for registrants and it is one.
/// Under a type of exclusive access no read is either.
pub fn others_are_kept_out()
    ensures writes { WritesAreKeptOut }
    ensures reads { ReadsAreKeptOut }
{}

/// A holder is registered.
pub fn holders_are_registered()
    ensures { HoldersAreRegistered }
{
    known_stay_known();
}

/// Between cuts a key changes by its own initiator's REGISTER alone, or goes by a registrant's CLEAR or PREEMPT; one who
/// loses it to another has an attention waiting that says so.
pub fn keys_are_their_own()
    ensures { KeysAreTheirOwn }
{
    known_stay_known();
}

/// A reservation goes by its holder, by a registrant's CLEAR or PREEMPT, or by a cut.
pub fn reservations_are_their_own()
    ensures { ReservationsAreTheirOwn }
{}

/// What is denied or refused, what only asks, and what is admitted changes nothing; an attention is told once.
pub fn asking_changes_nothing()
    ensures asking { AskingChangesNothing }
    ensures telling { AttentionsAreToldOnce }
{
    known_stay_known();
}

/// What is answered with data shows the desk as it is.
pub fn the_desk_is_shown()
    ensures keys { KeysAreShown }
    ensures reservation { ReservationsAreShown }
{}
