//! The mode values that hold after an entry.
ghost use Rattle.std.specs.Prelude.{◌≡◌};
ghost use Rattle.block_machine.specs.Steps.{settings_after};

use block_machine::Entry;
use disk_base::Function;
use mode_pages::Settings;

/// The mode values after an entry.
pub fn settings_after(settings: &Settings, entry: &Entry) -> Settings
    ensures { result ≡ settings_after settings.now entry.now }
{
    match entry {
        Entry::Mode { settings: made } => *made,
        Entry::Asked { what, .. } => match what {
            Function::Reset => Settings::default_values(),
            Function::Abort(_) | Function::AbortSet | Function::Clear => *settings,
        },
        Entry::PoweredOn { .. } => Settings::default_values(),
        _ => *settings,
    }
}
