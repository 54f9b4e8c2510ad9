ghost use Rattle.std.specs.Prelude.{◌≡◌};
ghost use Rattle.reservations.specs.Conflict.{conflicts, is_reading, is_writing};

/// Whether a reservation of a type keeps a command out, of another initiator than the holder, registered or not.
pub fn conflicts(code: u8, kind: u8, is_registered: bool) -> bool
    ensures { result ≡ conflicts code kind is_registered }
{
    match kind {
        3 => is_writing(code) || is_reading(code),
        5 => is_writing(code) && !is_registered,
        6 => (is_writing(code) || is_reading(code)) && !is_registered,
        _ => is_writing(code),
    }
}

// Whether a command gives what the medium or the mode pages have.
fn is_reading(code: u8) -> bool
    ensures { result ≡ is_reading code }
{
    matches!(code, 0x1A | 0x28 | 0x2F | 0x37 | 0x5A | 0x88)
}

// Whether a command changes the medium or the mode pages, or has them written to it.
fn is_writing(code: u8) -> bool
    ensures { result ≡ is_writing code }
{
    matches!(
        code,
        0x04 | 0x07 | 0x15 | 0x2A | 0x2E | 0x35 | 0x55 | 0x8A | 0x91
    )
}
