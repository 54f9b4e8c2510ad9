ghost use Rattle.std.specs.Prelude.{◌≡◌, ◌<◌};
ghost use Rattle.scan_log.specs.Pages.{parameter, status_content, progress};

use crate::page::CONTROL;

/// Bytes of the Background Scan Status parameter.
pub const STATUS_PARAMETER_LENGTH: usize = 16;

// Parts of the medium in which a scan's progress is counted.
const PARTS: u128 = 65_536;

/// How the background scan stands.
#[derive(Clone, Copy, Debug, PartialEq, Eq)]
pub struct ScanState {
    /// Power on minutes.
    pub minutes: u32,
    /// Whether the background scan is enabled.
    pub active: bool,
    /// How often the scan came to the end of the medium.
    pub passes: u16,
    /// The block that the scan comes to next.
    pub cursor: u64,
    /// The unit's blocks.
    pub capacity: u64,
}

impl ScanState {
    // The Background Scan Status parameter.
    pub(crate) fn parameter(&self) -> [u8; STATUS_PARAMETER_LENGTH]
        requires { self.now.cursor < self.now.capacity }
        ensures { result ≡ parameter 0 (status_content self.now) }
    {
        let [m0, m1, m2, m3] = self.minutes.to_be_bytes();
        let active = if self.active { 1 } else { 0 };
        let [n0, n1] = self.passes.to_be_bytes();
        let [p0, p1] = self.progress().to_be_bytes();
        [
            0, 0, CONTROL, 12, m0, m1, m2, m3, 0, active, n0, n1, p0, p1, n0, n1,
        ]
    }

    // How far the scan in hand has come.
    fn progress(&self) -> u16
        requires { self.now.cursor < self.now.capacity }
        ensures { result ≡ progress self.now }
    {
        (self.cursor as u128 * PARTS / self.capacity as u128) as u16
    }
}
