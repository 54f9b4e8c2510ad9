ghost use Rattle.std.specs.Prelude.{◌≡◌, IsTrue};
ghost use Rattle.scan_log.specs.Findings.{fits_a_byte};
ghost use Rattle.scan_log.specs.Pages.{parameter, finding_content};

use crate::page::CONTROL;
use disk_base::Lba;

/// Bytes of a Background Scan parameter.
pub const FINDING_PARAMETER_LENGTH: usize = 24;

/// A block that the background scan could not read, or read with effort.
#[derive(Clone, Copy, Debug, Default, PartialEq, Eq)]
pub struct Finding {
    /// Power on minutes when it was found.
    pub minutes: u32,
    /// The reassign status: 1 where no stage found the block, 2 where it was moved with valid data, 4 where there was
    /// no spare for it.
    pub status: u8,
    /// The sense key.
    pub key: u8,
    /// The additional sense code.
    pub asc: u8,
    /// The additional sense code qualifier.
    pub ascq: u8,
    /// The block.
    pub b: Lba,
}

impl Finding {
    // Its Background Scan parameter, with this parameter code.
    pub(crate) fn parameter(&self, code: u16) -> [u8; FINDING_PARAMETER_LENGTH]
        requires { IsTrue (fits_a_byte self.now) }
        ensures { result ≡ parameter code (finding_content self.now) }
    {
        let [c0, c1] = code.to_be_bytes();
        let [m0, m1, m2, m3] = self.minutes.to_be_bytes();
        let [b0, b1, b2, b3, b4, b5, b6, b7] = self.b.0.to_be_bytes();
        let status_and_key = self.status * 16 + self.key;
        [
            c0,
            c1,
            CONTROL,
            20,
            m0,
            m1,
            m2,
            m3,
            status_and_key,
            self.asc,
            self.ascq,
            0,
            0,
            0,
            0,
            0,
            b0,
            b1,
            b2,
            b3,
            b4,
            b5,
            b6,
            b7,
        ]
    }
}
