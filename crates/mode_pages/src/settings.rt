ghost use Rattle.std.specs.Prelude.{◌≡◌};
ghost use Rattle.mode_pages.specs.Settings.{default_settings};

/// What initiators may set of the drive's behaviour, by the names of the mode pages' fields (SBC-3, mode pages for
/// direct access block devices).
#[derive(Clone, Copy, Debug, PartialEq, Eq)]
pub struct Settings {
    /// Automatic write reallocation enabled.
    pub awre: bool,
    /// Automatic read reallocation enabled.
    pub arre: bool,
    /// Post error: recovered errors are reported.
    pub per: bool,
    /// Read retry count.
    pub retry: u8,
    /// Write cache enable.
    pub wce: bool,
    /// Read cache disable.
    pub rcd: bool,
    /// Enable background medium scan.
    pub bms: bool,
}

impl Settings {
    /// The settings after power on and after a reset.
    pub fn default_values() -> Self
        ensures { result ≡ default_settings }
    {
        Settings {
            awre: true,
            arre: true,
            per: false,
            retry: 5,
            wce: true,
            rcd: false,
            bms: true,
        }
    }
}
