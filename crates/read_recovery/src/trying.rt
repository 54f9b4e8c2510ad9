ghost use Rattle.std.specs.Prelude.{◌≡◌, ◌≤◌, IsSome};
ghost use Rattle.read_recovery.specs.Stages.{begun, next_stage, found_stage, answered};

use crate::stage::{RETRY_MAX, stage_of};
use disk_base::Stage;
use std::marker::Model;

/// A read on its way through the stages, up to the first that finds the sector.
#[derive(Debug, Drop)]
pub struct Trying {
    retry: u8,
    failed: u8,
    found: bool,
}

impl Model for Trying {
    ghost use Rattle.std.specs.Prelude.{◌≡◌, ◌+◌, ◌<◌, ◌≤◌, true};
    ghost use Rattle.read_recovery.specs.Stages.{Progress};

    ghost Value = { Progress };

    ghost view = { λ t. record { retry = t.retry; failed = t.failed; found = t.found } };

    ghost invariant = { λ t. record {
      known : t.retry ≤ 20;
      within : t.failed ≤ t.retry + 5;
      found : t.found ≡ true → t.failed < t.retry + 5;
    } };
}

impl Trying {
    /// A read that no stage was tried for.
    pub fn new(retry: u8) -> Self
        requires { retry ≤ RETRY_MAX }
        ensures { result ≡ begun retry }
    {
        Trying {
            retry,
            failed: 0,
            found: false,
        }
    }

    /// The stage to try next; none where one stage found the sector, or all failed.
    pub fn next(&self) -> Option<Stage>
        ensures { result ≡ next_stage self.now }
    {
        if self.found {
            return None;
        }
        if self.failed == self.retry + 5 {
            return None;
        }
        Some(stage_of(self.retry, self.failed))
    }

    /// Takes whether the next stage found the sector.
    pub fn answer(&mut self, found: bool)
        requires { IsSome (next_stage self.old) }
        ensures { self.new ≡ answered self.old found }
    {
        if found {
            self.found = true;
        } else {
            self.failed += 1;
        }
    }

    /// The stage that found the sector.
    pub fn found_at(&self) -> Option<Stage>
        ensures { result ≡ found_stage self.now }
    {
        if !self.found {
            return None;
        }
        Some(stage_of(self.retry, self.failed))
    }
}
