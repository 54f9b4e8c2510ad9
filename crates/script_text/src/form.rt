/// The forms of lines of a script's body, by their first words.
#[derive(Clone, Copy, Debug, PartialEq, Eq)]
pub enum Form {
    Command,
    Abort,
    AbortSet,
    Clear,
    Reset,
    Scan,
    Destage,
    Go,
    Damage,
    Fault,
    Cut,
    Power,
    Minutes,
}
