//! Laws of what the calls make of a cache, told block by block. Each holds of every cache, and its function does nothing.
ghost use Rattle.write_cache.specs.Laws.{PutIsSeen, SettlesOne, ForgetsOne, KeepsOthers};

/// What was put last is a block's newest data, and no other block's are changed.
pub fn a_put_is_seen()
    ensures { PutIsSeen }
{}

/// A block that was taken from the dirty ones isn't dirty, and each other stays dirty with its newest data.
pub fn settling_ends_one_block()
    ensures { SettlesOne }
{}

/// A block that was taken from the clean ones isn't clean, and each other stays clean with its data.
pub fn forgetting_ends_one_block()
    ensures { ForgetsOne }
{}

/// A block that was kept clean has those data. Another that is clean then has the data that it had.
pub fn keeping_changes_no_other()
    ensures { KeepsOthers }
{}
