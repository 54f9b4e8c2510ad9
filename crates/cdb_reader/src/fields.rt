ghost use Rattle.std.specs.Prelude.{◌≡◌, ◌+◌, ◌<◌, ◌^◌, slice_index};
ghost use Rattle.cdb_reader.specs.Request.{list_length};
ghost use Rattle.cdb_reader.specs.Fields.{bit, two_bytes, four_bytes, eight_bytes, naca, is_sixteen, is_ten};

/// The byte at a place, 0 past the end.
pub fn byte(bytes: &[u8], at: usize) -> u8
    ensures { result ≡ slice_index bytes.now at }
{
    bytes.get(at).copied().unwrap_or(0)
}

/// A bit of the byte at a place, the lowest one being 0.
pub fn bit(bytes: &[u8], at: usize, number: u8) -> bool
    requires { number < 8 }
    ensures { result ≡ bit bytes.now at number }
{
    (byte(bytes, at) >> number) % 2 == 1
}

/// Two bytes from a place on as a number, high byte first.
pub fn two_bytes(bytes: &[u8], at: usize) -> u16
    requires { at + 1 < 2 ^ 64 }
    ensures { result ≡ two_bytes bytes.now at }
{
    u16::from_be_bytes([byte(bytes, at), byte(bytes, at + 1)])
}

/// Four bytes from a place on as a number, high byte first.
pub fn four_bytes(bytes: &[u8], at: usize) -> u32
    requires { at + 3 < 2 ^ 64 }
    ensures { result ≡ four_bytes bytes.now at }
{
    u32::from_be_bytes([
        byte(bytes, at),
        byte(bytes, at + 1),
        byte(bytes, at + 2),
        byte(bytes, at + 3),
    ])
}

/// Eight bytes from a place on as a number, high byte first.
pub fn eight_bytes(bytes: &[u8], at: usize) -> u64
    requires { at + 7 < 2 ^ 64 }
    ensures { result ≡ eight_bytes bytes.now at }
{
    u64::from_be_bytes([
        byte(bytes, at),
        byte(bytes, at + 1),
        byte(bytes, at + 2),
        byte(bytes, at + 3),
        byte(bytes, at + 4),
        byte(bytes, at + 5),
        byte(bytes, at + 6),
        byte(bytes, at + 7),
    ])
}

/// The bit NACA of the control byte, which is the last (SAM-4, CONTROL byte).
pub fn has_naca(bytes: &[u8]) -> bool
    ensures { result ≡ naca bytes.now }
{
    bit(bytes, bytes.len().saturating_sub(1), 2)
}

/// Whether the operation code is of the group whose command blocks have 16 bytes.
pub fn is_sixteen(bytes: &[u8]) -> bool
    ensures { result ≡ is_sixteen bytes.now }
{
    byte(bytes, 0) / 32 == 4
}

/// Whether the operation code is of the group of 10-byte command blocks that have a 6-byte form too.
pub fn is_ten(bytes: &[u8]) -> bool
    ensures { result ≡ is_ten bytes.now }
{
    byte(bytes, 0) / 32 == 2
}

/// An allocation or parameter list length of a command with a 6-byte and a 10-byte form.
pub fn list_length(bytes: &[u8]) -> u16
    ensures { result ≡ list_length bytes.now }
{
    if is_ten(bytes) {
        two_bytes(bytes, 7)
    } else {
        byte(bytes, 4) as u16
    }
}
