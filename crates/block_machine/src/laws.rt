//! Laws on legal histories: each is the clause of a function that does nothing.

ghost use Rattle.block_machine.specs.Laws.{OfLegalHistories, OfTaskLegalHistories, ReadsGiveWhatWasPutLast, HardenedValuesStay, ReadsGiveHardenedOrNewer, FirstReadSettles, BeginningsAreLegal, ReadsGetEachBlockOnce, ForcedWritesAreHardened, CommandsAreAccountedFor, EndsHaveTheirStatus, NoneEndsTwice, SuccessesFollowStarts};
ghost use Rattle.block_machine.specs.KeptValues.{ReadsGiveTheirOwnWrite, RuledOutValuesStayOut, DirtyBlocksArePending};
ghost use Rattle.block_machine.specs.Lives.{WritesPutEachBlockOnce, SyncsHardenWhatWasPut, ForcedWritesStand, SyncedValuesStand};
ghost use Rattle.block_machine.specs.Stages.{EntriesFitTheirStage};

/// Without a power cut, a read that isn't bad gives the value that was put last, or zeros. So a block that was given up
/// since is bad.
pub fn reads_give_what_was_put_last()
    ensures { OfLegalHistories ReadsGiveWhatWasPutLast }
{}

/// Once hardened, a value is what each later read gives that isn't bad, over any number of power cuts, until a newer
/// one is put or the block is given up.
pub fn hardened_values_stay()
    ensures { OfLegalHistories HardenedValuesStay }
{}

/// A read that isn't bad gives the value that was hardened last, zeros where none was, or one that was put since; also
/// after power cuts.
pub fn reads_give_hardened_or_newer()
    ensures { OfLegalHistories ReadsGiveHardenedOrNewer }
{}

/// The first read after a power cut that isn't bad settles what the block has, where nothing newer was put since the cut and the
/// block wasn't given up: each later one gives the same or is bad, for as long as that stays so.
pub fn first_read_settles()
    ensures { OfLegalHistories FirstReadSettles }
{}

/// The beginnings of a legal history are legal.
pub fn beginnings_are_legal()
    ensures { BeginningsAreLegal }
{}

/// A read or a verification that ends GOOD, or with a recovered error, got each block of its range once, in order.
pub fn reads_get_each_block_once()
    ensures { OfTaskLegalHistories ReadsGetEachBlockOnce }
{}

/// A write with FUA, one that starts while the write cache is off, or a WRITE AND VERIFY, that ends GOOD or with a recovered
/// error has put each of its blocks, once, in order and with its data, and hardened each before it put the next.
pub fn forced_writes_are_hardened()
    ensures { OfTaskLegalHistories ForcedWritesAreHardened }
{}

/// As many commands came as ended, were aborted, were cut off, and are still in. Each end is GOOD, CHECK CONDITION or TASK SET
/// FULL; none has two ends, of which one may be an abort; and one that ends with success started.
pub fn commands_are_accounted_for()
    ensures sum { CommandsAreAccountedFor }
    ensures statuses { OfTaskLegalHistories EndsHaveTheirStatus }
    ensures once { OfTaskLegalHistories NoneEndsTwice }
    ensures started { OfTaskLegalHistories SuccessesFollowStarts }
{}

/// A read that isn't bad gives the value that was put last, also after earlier power cuts, where since that put the power
/// stayed on and the block wasn't given up.
pub fn reads_give_their_own_write()
    ensures { OfLegalHistories ReadsGiveTheirOwnWrite }
{}

/// Of two reads of a block that aren't bad, over power cuts between, the later gives what the earlier gave or a value that was put
/// between, and none that is older than what was hardened last between. It asks that nothing is pending at the earlier read: behind
/// each put of the block, and each give-up of it, came a harden of the block or a power cut.
pub fn ruled_out_values_stay_out()
    ensures { OfLegalHistories RuledOutValuesStayOut }
{}

/// The dirty blocks are those to which something newer came that was neither hardened nor cut off since; the list of dirty
/// addresses has each of them once.
pub fn dirty_blocks_are_pending()
    ensures { DirtyBlocksArePending }
{}

/// A write of any kind that ends GOOD, or with a recovered error, put each of its blocks, once, in order and with its data.
pub fn writes_put_each_block_once()
    ensures { OfTaskLegalHistories WritesPutEachBlockOnce }
{}

/// Of each command the arrival comes first, and once; then until its start, which comes once, only an end with TASK SET FULL or an
/// abort; and nothing behind its end, its abort or a power cut. An entry that names no command fits everywhere.
pub fn entries_fit_their_stage()
    ensures { OfTaskLegalHistories EntriesFitTheirStage }
{}

/// What was put at a block of a sync's range before the sync started, or that the block was given up, is followed by a harden of
/// that block before the sync ends with success, where the power stayed on from then to the start.
pub fn syncs_harden_what_was_put()
    ensures { OfLegalHistories SyncsHardenWhatWasPut }
{}

/// Once a write that goes through has succeeded, or a sync of what was put before it started, with the power on from the put to that
/// start, what was put is what each later read of the block gives that isn't bad, over any power cuts, until something newer is put
/// or the block is given up.
pub fn hardened_writes_stand()
    ensures forced { OfLegalHistories ForcedWritesStand }
    ensures synced { OfLegalHistories SyncedValuesStand }
{}
