/// How a write of a sector ended.
#[derive(Clone, Copy, Debug, PartialEq, Eq)]
pub enum WriteAnswer {
    Written,
    /// The sector has a write fault, and nothing was changed.
    Fault,
    /// The power is off, or went off in this write.
    Off,
}
