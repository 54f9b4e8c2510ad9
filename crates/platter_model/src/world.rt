use crate::{Damage, Tear};
use disk_base::Psn;

/// What happens to a drive from outside.
#[derive(Clone, Copy, Debug, PartialEq, Eq)]
pub enum World {
    Damage(Damage),
    /// A write fault on this sector.
    Fault(Psn),
    /// The power goes off now.
    Cut,
    /// The power goes off in the `k`-th sector write from here on, failed writes not counted.
    Arm {
        /// At least 1.
        k: u32,
        tear: Tear,
    },
    /// The power comes back.
    Power,
    /// So many minutes pass.
    Minutes(u16),
}
