ghost use Rattle.std.specs.Prelude.{◌≡◌};
ghost use Rattle.scanner_core.specs.Scan.{finding_by};

use disk_base::Stage;
use read_recovery::is_heavy;

/// What the scan found of a block.
#[derive(Clone, Copy, Debug, PartialEq, Eq)]
pub enum ScanFinding {
    /// A stage found it that corrects little.
    Light,
    /// Only one of the last two stages found it, which correct more.
    Heavy,
    /// Every stage failed.
    Unread,
}

impl ScanFinding {
    // The finding of a block by the stage that found it.
    pub(crate) fn by(stage: Option<Stage>) -> Self
        ensures { result ≡ finding_by stage }
    {
        match stage {
            None => ScanFinding::Unread,
            Some(stage) if is_heavy(&stage) => ScanFinding::Heavy,
            Some(_) => ScanFinding::Light,
        }
    }
}
