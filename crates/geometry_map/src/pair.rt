ghost use Rattle.std.specs.Prelude.{◌≡◌};

use disk_base::Psn;

/// A grown defect and the spare that stands for it.
#[derive(Clone, Copy, Debug, PartialEq, Eq)]
pub struct Pair {
    pub old: Psn,
    pub new: Psn,
}

/// What fills the unused room of a list of pairs.
impl Default for Pair {
    ghost is_default = { λ pair. (pair.old.0 ≡ 0) × (pair.new.0 ≡ 0) };

    fn default() -> Self {
        Pair {
            old: Psn(0),
            new: Psn(0),
        }
    }
}
