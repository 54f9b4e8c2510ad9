//! Laws on good runs of scripts, each the clause of a function that changes nothing.
//!
//! Those that speak of strays hold of runs in which no damage was taken for another payload; the others of every run.

ghost use Rattle.block_machine.specs.Laws.{ReadsGiveWhatWasPutLast, HardenedValuesStay, ReadsGiveHardenedOrNewer, FirstReadSettles, ReadsGetEachBlockOnce, ForcedWritesAreHardened, EndsHaveTheirStatus, NoneEndsTwice, SuccessesFollowStarts};
ghost use Rattle.block_machine.specs.KeptValues.{ReadsGiveTheirOwnWrite, RuledOutValuesStayOut};
ghost use Rattle.block_machine.specs.Lives.{WritesPutEachBlockOnce, SyncsHardenWhatWasPut, ForcedWritesStand, SyncedValuesStand};
ghost use Rattle.block_machine.specs.Stages.{EntriesFitTheirStage};
ghost use Rattle.history_laws.specs.Order.{TasksStartInOrder};
ghost use Rattle.history_laws.specs.Unread.{UnreadEndsFollowBadGets};
ghost use Rattle.script_runner.specs.Laws.{OfWholeRuns, OfWholeRunsWithoutStrays, OfGoodRuns, OfRunsWithoutStrays, AreLegal, AreTaskLegal, BeginningsAreLegal, NoneIsLeft, AllThatCameAreGone, DirtyBlocksArePending, GetsAreShown, BadReadsAreShown, UnreadEndsAreShown, ReportsTellTheirRuns};

use drive_scene::maps_stay;
use geometry_map::{blocks_are_at_user_sectors, two_blocks_are_never_at_one_sector};
use report_text::reports_read_again;

/// Without strays, what initiators see is a legal history of an array of blocks. As far as commands go, it always is.
pub fn good_runs_are_legal()
    ensures blocks { OfRunsWithoutStrays AreLegal }
    ensures commands { OfGoodRuns AreTaskLegal }
{}

/// Without strays and power cuts, a read that isn't bad gives the value that was put last, or zeros. So a block that was
/// given up since is bad.
pub fn reads_give_what_was_put_last()
    ensures { OfRunsWithoutStrays ReadsGiveWhatWasPutLast }
{}

/// Without strays, once hardened, a value is what each later read gives that isn't bad, over any number of power cuts, until
/// a newer one is put or the block is given up.
pub fn hardened_values_stay()
    ensures { OfRunsWithoutStrays HardenedValuesStay }
{}

/// Without strays, a read that isn't bad gives the value that was hardened last, zeros where none was, or one that was put
/// since; also after power cuts.
pub fn reads_give_hardened_or_newer()
    ensures { OfRunsWithoutStrays ReadsGiveHardenedOrNewer }
{}

/// Without strays, the first read after a power cut that isn't bad settles what the block has, where nothing newer was put since
/// the cut and the block wasn't given up: each later one gives the same or is bad, for as long as that stays so.
pub fn first_read_settles()
    ensures { OfRunsWithoutStrays FirstReadSettles }
{}

/// When a run is over, each command that came has ended, was aborted or was cut off, and as many came as did so. Each end is GOOD,
/// CHECK CONDITION or TASK SET FULL; none ends twice, or ends and is aborted; and one that ends with success started.
pub fn commands_are_accounted_for()
    ensures idle { OfGoodRuns NoneIsLeft }
    ensures sum { OfGoodRuns AllThatCameAreGone }
    ensures statuses { OfGoodRuns EndsHaveTheirStatus }
    ensures once { OfGoodRuns NoneEndsTwice }
    ensures started { OfGoodRuns SuccessesFollowStarts }
{}

/// In a run without strays, what initiators have seen up to any turn is a legal history.
pub fn beginnings_are_legal()
    ensures { OfRunsWithoutStrays BeginningsAreLegal }
{}

/// A write with FUA, one that starts while the write cache is off, or a WRITE AND VERIFY, that ends GOOD or with a recovered
/// error has put each of its blocks, once, in order and with its data, and hardened each before it put the next.
pub fn forced_writes_are_hardened()
    ensures { OfGoodRuns ForcedWritesAreHardened }
{}

/// A read or a verification that ends GOOD, or with a recovered error, got each block of its range once, in order.
pub fn reads_get_each_block_once()
    ensures { OfGoodRuns ReadsGetEachBlockOnce }
{}

/// Without strays, a read that isn't bad gives the value that was put last, also after earlier power cuts, where since that put
/// the power stayed on and the block wasn't given up.
pub fn reads_give_their_own_write()
    ensures { OfRunsWithoutStrays ReadsGiveTheirOwnWrite }
{}

/// Without strays, of two reads of a block that aren't bad, over power cuts between, the later gives what the earlier gave or a
/// value that was put between, and none that is older than what was hardened last between. It asks that nothing is pending at the
/// earlier read: behind each put of the block, and each give-up of it, came a harden of the block or a power cut.
pub fn ruled_out_values_stay_out()
    ensures { OfRunsWithoutStrays RuledOutValuesStayOut }
{}

/// A write of any kind that ends GOOD, or with a recovered error, put each of its blocks, once, in order and with its data.
pub fn writes_put_each_block_once()
    ensures { OfGoodRuns WritesPutEachBlockOnce }
{}

/// Without strays, what was put at a block of a sync's range before the sync started, or that the block was given up, is followed by
/// a harden of that block before the sync ends with success, where the power stayed on from then to the start.
pub fn syncs_harden_what_was_put()
    ensures { OfRunsWithoutStrays SyncsHardenWhatWasPut }
{}

/// Without strays, once a write that goes through has succeeded, or a sync of what was put before it started, with the power on from
/// the put to that start, what was put is what each later read of the block gives that isn't bad, over any power cuts, until
/// something newer is put or the block is given up.
pub fn hardened_writes_stand()
    ensures forced { OfRunsWithoutStrays ForcedWritesStand }
    ensures synced { OfRunsWithoutStrays SyncedValuesStand }
{}

/// Of each command the arrival comes first, and once; then until its start, which comes once, only an end with TASK SET FULL or an
/// abort; and nothing behind its end, its abort or a power cut.
pub fn entries_fit_their_stage()
    ensures { OfGoodRuns EntriesFitTheirStage }
{}

/// While an ORDERED command is in, no younger one starts but a HEAD OF QUEUE one, and itself it starts only once all older ones
/// are over. While a HEAD OF QUEUE command is in, no other starts but a HEAD OF QUEUE one.
pub fn tasks_start_in_order()
    ensures { OfGoodRuns TasksStartInOrder }
{}

/// Where a command ends with UNRECOVERED READ ERROR at a block, whatever it asked for, the last that it did to a block in this turn
/// was a bad get of this one. So without strays each stage had failed there.
pub fn unread_ends_follow_bad_gets()
    ensures got { OfGoodRuns UnreadEndsFollowBadGets }
    ensures shown { OfWholeRunsWithoutStrays UnreadEndsAreShown }
{
    gets_are_shown();
}

/// The dirty blocks are those to which something newer came that was neither hardened nor cut off since; the list of dirty
/// addresses has each of them once.
pub fn dirty_blocks_are_pending()
    ensures { OfGoodRuns DirtyBlocksArePending }
{}

/// What a command gets of a block for which nothing is pending are data that a stage found after those before it found nothing; or,
/// where nothing was tried and the command is a READ without FUA that started while RCD is 0, data that were put or found since the
/// power came on. It gets the block as lost only where each stage found nothing or one found a lost mark; without strays, and
/// whatever is pending, only where each found nothing.
pub fn gets_are_shown()
    ensures found { OfWholeRuns GetsAreShown }
    ensures bad { OfWholeRunsWithoutStrays BadReadsAreShown }
{
    maps_stay();
    two_blocks_are_never_at_one_sector();
    blocks_are_at_user_sectors();
}

/// The report of a good run, printed whole, is the report of its turns, where its numbers fit: so `read_run` gives the run's own
/// turns of it, operations counted from behind the factory's.
pub fn reports_tell_their_runs()
    ensures { OfWholeRuns ReportsTellTheirRuns }
{
    reports_read_again();
}
