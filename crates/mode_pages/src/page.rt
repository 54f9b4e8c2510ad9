ghost use Rattle.std.specs.Prelude.{◌≡◌, ◌≤◌, length, IsTrue};
ghost use Rattle.mode_pages.specs.Pages.{page_bytes, changeable};

use crate::Settings;
use crate::flags::flag;
use arrayvec::ArrayVec;

// The most bytes of a mode page.
pub const PAGE_LENGTH_MAX: usize = 20;

// Bits of byte 2 of the Read-Write Error Recovery mode page.
pub const AWRE: u8 = 0x80;

pub const ARRE: u8 = 0x40;

pub const PER: u8 = 0x04;

// Bits of byte 2 of the Caching mode page.
pub const WCE: u8 = 0x04;

pub const RCD: u8 = 0x01;

// A bit of byte 4 of the Background Control mode page.
pub const EN_BMS: u8 = 0x01;

// The mode pages that the drive has.
#[derive(Clone, Copy, Debug, PartialEq, Eq)]
pub enum Page {
    ErrorRecovery,
    Caching,
    BackgroundControl,
}

impl Page {
    // The page with these settings.
    pub fn bytes(self, settings: &Settings) -> ArrayVec<u8, PAGE_LENGTH_MAX>
        ensures { result.items ≡ page_bytes self settings.now }
    {
        match self {
            Page::ErrorRecovery => list_of(&error_recovery(settings)),
            Page::Caching => list_of(&caching(settings)),
            Page::BackgroundControl => list_of(&background_control(settings)),
        }
    }

    // The page's head, and behind it 1 for each bit that can be changed.
    pub fn changeable(self) -> &'static [u8]
        ensures { result.now ≡ changeable self }
    {
        match self {
            Page::ErrorRecovery => &[0x01, 0x0A, 0xC4, 0xFF, 0, 0, 0, 0, 0, 0, 0, 0],
            Page::Caching => &[
                0x08, 0x12, 0x05, 0, 0, 0, 0, 0, 0, 0, 0, 0, 0, 0, 0, 0, 0, 0, 0, 0,
            ],
            Page::BackgroundControl => {
                &[0x5C, 0x01, 0, 0x0C, 0x01, 0, 0, 0, 0, 0, 0, 0, 0, 0, 0, 0]
            }
        }
    }

    // The same as a list.
    pub fn changeable_bytes(self) -> ArrayVec<u8, PAGE_LENGTH_MAX>
        ensures { result.items ≡ changeable self }
    {
        list_of(self.changeable())
    }
}

// SBC-3, Read-Write Error Recovery mode page.
fn error_recovery(settings: &Settings) -> [u8; 12]
    ensures { result ≡ page_bytes Page.ErrorRecovery settings.now }
{
    let bits = flag(settings.awre, AWRE) | flag(settings.arre, ARRE) | flag(settings.per, PER);
    [0x01, 0x0A, bits, settings.retry, 0, 0, 0, 0, 0, 0, 0, 0]
}

// SBC-3, Caching mode page.
fn caching(settings: &Settings) -> [u8; 20]
    ensures { result ≡ page_bytes Page.Caching settings.now }
{
    let bits = flag(settings.wce, WCE) | flag(settings.rcd, RCD);
    [
        0x08, 0x12, bits, 0, 0, 0, 0, 0, 0, 0, 0, 0, 0, 0, 0, 0, 0, 0, 0, 0,
    ]
}

// SBC-3, Background Control mode page, with a scan each 24 hours.
fn background_control(settings: &Settings) -> [u8; 16]
    ensures { result ≡ page_bytes Page.BackgroundControl settings.now }
{
    let bits = flag(settings.bms, EN_BMS);
    [
        0x5C, 0x01, 0, 0x0C, bits, 0, 0, 0x18, 0, 0, 0, 0, 0, 0, 0, 0,
    ]
}

// A list of these bytes.
fn list_of(bytes: &[u8]) -> ArrayVec<u8, PAGE_LENGTH_MAX>
    requires { length bytes.now ≤ 20 }
    ensures { result.items ≡ bytes.now }
{
    let mut list = ArrayVec::new();
    list.try_extend_from_slice(bytes).unwrap();
    list
}
