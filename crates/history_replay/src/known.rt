use mode_pages::Settings;
use scan_log::ScanLog;
use sense_data::Attentions;

/// What a history knows of the background scan since the power came on.
#[derive(Debug, Drop)]
pub struct Scanning {
    pub minutes: u32,
    /// How many blocks the scan was done with; passes behind the 65,535th aren't counted.
    pub scanned: u64,
    pub log: ScanLog,
}

/// What a history knows besides its commands and blocks.
#[derive(Debug, Drop)]
pub struct Known {
    /// The unit's blocks.
    pub capacity: u64,
    pub settings: Settings,
    pub waiting: Attentions,
    /// The map couldn't be read when the power came on.
    pub corrupt: bool,
    pub scan: Scanning,
}
