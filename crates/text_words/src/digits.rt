ghost use Rattle.std.specs.Prelude.{◌≡◌, ◌<◌, ◌≤◌, ◌*◌, ◌++◌, length, nat_lt, if◌then◌else◌, IfOk, IfSome, IsTrue, IsFalse, Ok, Some, None, Err};
ghost use Rattle.std.specs.Result.{result_ok};
ghost use Rattle.hex.specs.Hex.{decode_pairs, hex_digit_value};
ghost use Rattle.text_words.specs.Digits.{hex_of, byte_word, bytes_of, byte_of};
ghost use Rattle.text_words.specs.Written.{Writes};

use crate::Out;
use disk_base::{Bytes, NoMemory};
use std::alloc::Global;

// The digits of each byte.
static PAIRS: [[u8; 2]; 256] = [
    *b"00", *b"01", *b"02", *b"03", *b"04", *b"05", *b"06", *b"07", *b"08", *b"09", *b"0A", *b"0B",
    *b"0C", *b"0D", *b"0E", *b"0F", *b"10", *b"11", *b"12", *b"13", *b"14", *b"15", *b"16", *b"17",
    *b"18", *b"19", *b"1A", *b"1B", *b"1C", *b"1D", *b"1E", *b"1F", *b"20", *b"21", *b"22", *b"23",
    *b"24", *b"25", *b"26", *b"27", *b"28", *b"29", *b"2A", *b"2B", *b"2C", *b"2D", *b"2E", *b"2F",
    *b"30", *b"31", *b"32", *b"33", *b"34", *b"35", *b"36", *b"37", *b"38", *b"39", *b"3A", *b"3B",
    *b"3C", *b"3D", *b"3E", *b"3F", *b"40", *b"41", *b"42", *b"43", *b"44", *b"45", *b"46", *b"47",
    *b"48", *b"49", *b"4A", *b"4B", *b"4C", *b"4D", *b"4E", *b"4F", *b"50", *b"51", *b"52", *b"53",
    *b"54", *b"55", *b"56", *b"57", *b"58", *b"59", *b"5A", *b"5B", *b"5C", *b"5D", *b"5E", *b"5F",
    *b"60", *b"61", *b"62", *b"63", *b"64", *b"65", *b"66", *b"67", *b"68", *b"69", *b"6A", *b"6B",
    *b"6C", *b"6D", *b"6E", *b"6F", *b"70", *b"71", *b"72", *b"73", *b"74", *b"75", *b"76", *b"77",
    *b"78", *b"79", *b"7A", *b"7B", *b"7C", *b"7D", *b"7E", *b"7F", *b"80", *b"81", *b"82", *b"83",
    *b"84", *b"85", *b"86", *b"87", *b"88", *b"89", *b"8A", *b"8B", *b"8C", *b"8D", *b"8E", *b"8F",
    *b"90", *b"91", *b"92", *b"93", *b"94", *b"95", *b"96", *b"97", *b"98", *b"99", *b"9A", *b"9B",
    *b"9C", *b"9D", *b"9E", *b"9F", *b"A0", *b"A1", *b"A2", *b"A3", *b"A4", *b"A5", *b"A6", *b"A7",
    *b"A8", *b"A9", *b"AA", *b"AB", *b"AC", *b"AD", *b"AE", *b"AF", *b"B0", *b"B1", *b"B2", *b"B3",
    *b"B4", *b"B5", *b"B6", *b"B7", *b"B8", *b"B9", *b"BA", *b"BB", *b"BC", *b"BD", *b"BE", *b"BF",
    *b"C0", *b"C1", *b"C2", *b"C3", *b"C4", *b"C5", *b"C6", *b"C7", *b"C8", *b"C9", *b"CA", *b"CB",
    *b"CC", *b"CD", *b"CE", *b"CF", *b"D0", *b"D1", *b"D2", *b"D3", *b"D4", *b"D5", *b"D6", *b"D7",
    *b"D8", *b"D9", *b"DA", *b"DB", *b"DC", *b"DD", *b"DE", *b"DF", *b"E0", *b"E1", *b"E2", *b"E3",
    *b"E4", *b"E5", *b"E6", *b"E7", *b"E8", *b"E9", *b"EA", *b"EB", *b"EC", *b"ED", *b"EE", *b"EF",
    *b"F0", *b"F1", *b"F2", *b"F3", *b"F4", *b"F5", *b"F6", *b"F7", *b"F8", *b"F9", *b"FA", *b"FB",
    *b"FC", *b"FD", *b"FE", *b"FF",
];

// What each character is worth as a digit; 16 is no digit's worth.
static WORTHS: [u8; 256] = [
    16, 16, 16, 16, 16, 16, 16, 16, 16, 16, 16, 16, 16, 16, 16, 16, 16, 16, 16, 16, 16, 16, 16, 16,
    16, 16, 16, 16, 16, 16, 16, 16, 16, 16, 16, 16, 16, 16, 16, 16, 16, 16, 16, 16, 16, 16, 16, 16,
    0, 1, 2, 3, 4, 5, 6, 7, 8, 9, 16, 16, 16, 16, 16, 16, 16, 10, 11, 12, 13, 14, 15, 16, 16, 16,
    16, 16, 16, 16, 16, 16, 16, 16, 16, 16, 16, 16, 16, 16, 16, 16, 16, 16, 16, 16, 16, 16, 16, 10,
    11, 12, 13, 14, 15, 16, 16, 16, 16, 16, 16, 16, 16, 16, 16, 16, 16, 16, 16, 16, 16, 16, 16, 16,
    16, 16, 16, 16, 16, 16, 16, 16, 16, 16, 16, 16, 16, 16, 16, 16, 16, 16, 16, 16, 16, 16, 16, 16,
    16, 16, 16, 16, 16, 16, 16, 16, 16, 16, 16, 16, 16, 16, 16, 16, 16, 16, 16, 16, 16, 16, 16, 16,
    16, 16, 16, 16, 16, 16, 16, 16, 16, 16, 16, 16, 16, 16, 16, 16, 16, 16, 16, 16, 16, 16, 16, 16,
    16, 16, 16, 16, 16, 16, 16, 16, 16, 16, 16, 16, 16, 16, 16, 16, 16, 16, 16, 16, 16, 16, 16, 16,
    16, 16, 16, 16, 16, 16, 16, 16, 16, 16, 16, 16, 16, 16, 16, 16, 16, 16, 16, 16, 16, 16, 16, 16,
    16, 16, 16, 16, 16, 16, 16, 16, 16, 16, 16, 16, 16, 16,
];

// The bytes whose digits are put at once.
const CHUNK: usize = 128;

/// Why digits give no bytes.
#[derive(Clone, Copy, Debug, PartialEq, Eq)]
pub enum DigitsFault {
    /// There is another character than a hexadecimal digit, or an odd number of them.
    NotHex,
    NoMemory,
}

/// The bytes that hexadecimal digits of either case give.
#[tactic(auto, unfolding(crate::specs::Digits::bytes_of))]
pub fn read_hex(alloc: Global, digits: &[u8]) -> Result<Bytes, DigitsFault>
    ensures ok { IfOk result (λ bytes. bytes_of digits.now ≡ Some bytes) }
    ensures not_hex { result ≡ Err DigitsFault.NotHex → bytes_of digits.now ≡ None }
{
    if digits.len() % 2 != 0 {
        return Err(DigitsFault::NotHex);
    }
    let mut bytes = match vec![in alloc; 0; digits.len() / 2] {
        Ok(bytes) => bytes,
        Err(_) => return Err(DigitsFault::NoMemory),
    };
    if decode(digits, bytes.as_mut_slice()) {
        Ok(Bytes::from_vec(bytes))
    } else {
        Err(DigitsFault::NotHex)
    }
}

/// Whether all characters are digits; then the bytes are those that they give.
pub(crate) fn decode(digits: &[u8], bytes: &mut [u8]) -> bool
    requires { length digits.now ≡ 2 * length bytes.old }
    ensures yes { IsTrue result → decode_pairs 0 digits.now ≡ Ok bytes.new }
    ensures no { IsFalse result → result_ok (decode_pairs 0 digits.now) ≡ None }
{
    let mut most = 0;
    for i in 0..bytes.len() {
        let high = worth_of(digits[2 * i]);
        let low = worth_of(digits[2 * i + 1]);
        most = most.max(high).max(low);
        bytes[i] = high % 16 * 16 + low % 16;
    }
    most < 16
}

// What a digit is worth, and 16 where it is none.
fn worth_of(character: u8) -> u8
    ensures { hex_digit_value character ≡ (if nat_lt result 16 then Some result else None) }
{
    WORTHS[character as usize]
}

/// The byte that two hexadecimal digits of either case give.
#[tactic(auto, unfolding(crate::specs::Digits::byte_of))]
pub fn read_byte(digits: &[u8]) -> Option<u8>
    ensures { result ≡ byte_of digits.now }
{
    match digits {
        [high, low] => Some(16 * digit_of(*high)? + digit_of(*low)?),
        _ => None,
    }
}

fn digit_of(character: u8) -> Option<u8>
    ensures value { result ≡ hex_digit_value character }
    ensures small { IfSome result (λ digit. digit < 16) }
{
    match character {
        b'A'..=b'F' => Some(character - b'A' + 10),
        b'a'..=b'f' => Some(character - b'a' + 10),
        b'0'..=b'9' => Some(character - b'0'),
        _ => None,
    }
}

/// The upper-case digits of bytes, with no blank before them.
pub fn put_digits<O: Out>(out: &mut O, bytes: &[u8])
    ensures { Writes O.written out.old out.new (λ text. text ++ hex_of bytes.now) }
{
    let mut at = 0;
    while at < bytes.len() {
        let end = at + CHUNK.min(bytes.len() - at);
        put_chunk(out, &bytes[at..end]);
        at = end;
    }
}

fn put_chunk<O: Out>(out: &mut O, bytes: &[u8])
    requires { length bytes.now ≤ 128 }
    ensures { Writes O.written out.old out.new (λ text. text ++ hex_of bytes.now) }
{
    let mut digits = [0; 2 * CHUNK];
    let count = 2 * bytes.len();
    encode(bytes, &mut digits[..count]);
    out.put(&digits[..count]);
}

fn encode(bytes: &[u8], digits: &mut [u8])
    requires { length digits.old ≡ 2 * length bytes.now }
    ensures { digits.new ≡ hex_of bytes.now }
{
    for (i, byte) in bytes.iter().enumerate() {
        let pair = pair_of(*byte);
        digits[2 * i] = pair[0];
        digits[2 * i + 1] = pair[1];
    }
}

// The two digits of a byte.
pub(crate) fn pair_of(byte: u8) -> [u8; 2]
    ensures { result ≡ byte_word byte }
{
    PAIRS[byte as usize]
}
