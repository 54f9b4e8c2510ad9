ghost use Rattle.std.specs.Prelude.{◌≡◌};
ghost use Rattle.mode_pages.specs.Pages.{flag, is_set};

// This bit where the flag is set, else no bit.
pub fn flag(set: bool, bit: u8) -> u8
    ensures { result ≡ flag set bit }
{
    if set { bit } else { 0 }
}

// Whether a byte has this bit.
pub fn is_set(byte: u8, bit: u8) -> bool
    ensures { result ≡ is_set byte bit }
{
    byte & bit != 0
}
