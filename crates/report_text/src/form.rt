/// The forms of entries, by their first words.
#[derive(Clone, Copy, Debug, PartialEq, Eq)]
pub enum EntryForm {
    Arrived,
    Started,
    Get,
    Put,
    Harden,
    Passed,
    GiveUp,
    Page,
    Ended,
    Aborted,
    Asked,
    Mode,
    Scanned,
    Logged,
    Cut,
    PoweredOn,
    Tick,
    Blank,
    Fresh,
}

/// The forms of operations, by their first words.
#[derive(Clone, Copy, Debug, PartialEq, Eq)]
pub enum OperationForm {
    Wrote,
    Torn,
    WriteFailed,
    Damaged,
    Faulty,
    Fetched,
    Tried,
    Cut,
    Power,
}

/// The forms of labels, by their first words.
#[derive(Clone, Copy, Debug, PartialEq, Eq)]
pub enum LabelForm {
    Arrive,
    Work,
    Job,
    Scan,
    Destage,
    Damage,
    Fault,
    Cut,
    Power,
    Minutes,
}
