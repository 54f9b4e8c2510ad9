use thiserror::Error;

/// Why a line of a script is refused, in the order in which a line is checked.
#[derive(Clone, Copy, Debug, PartialEq, Eq)]
pub enum Why {
    /// A byte outside 20h to 7Eh.
    Bytes,
    /// No form has this first word, this number of words and these fixed words.
    Shape,
    /// A numeral isn't of the stated form, or is out of its stated range.
    Number,
    /// A word of hexadecimal digits has another character or an odd number of them, or a fill isn't two digits.
    Hex,
    /// The length of the command block.
    Cdb,
    /// There is no drive of these measures, or this primary list.
    Disk,
    /// The line may not stand here.
    Place,
    /// The initiator has a command with this tag in the same phase.
    Tag,
    /// One line or some weight too many.
    Limit,
    /// The line is in order, and isn't served yet.
    Later,
}

/// Why a script couldn't be read.
#[derive(Clone, Copy, Debug, PartialEq, Eq, Error)]
pub enum ScriptFault {
    #[error("no memory")]
    NoMemory,
    /// The first line, counted from 1, that is refused.
    #[error("line {line}: {why:?}")]
    Refused { line: u32, why: Why },
}
