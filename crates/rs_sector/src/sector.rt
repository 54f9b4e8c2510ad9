//! The four interleaves of a sector: byte i belongs to word i % 4, at place i / 4.
ghost use Rattle.std.specs.Prelude.{◌≡◌, ◌*◌, ◌<◌, length};
ghost use Rattle.rs_sector.specs.Sector.{bytes_of, word_of, words_of};

/// The data of the four words of a payload.
pub fn deal(payload: &[u8; 528]) -> [[u8; 132]; 4]
    ensures { result ≡ words_of 132 payload.now }
{
    [
        interleave(payload, 0),
        interleave(payload, 1),
        interleave(payload, 2),
        interleave(payload, 3),
    ]
}

/// The encoded bytes of four words.
pub fn gather(words: &[[u8; 148]; 4]) -> [u8; 592]
    ensures { result ≡ bytes_of 148 words.now }
{
    interleaved(words)
}

/// The four words of the encoded bytes.
pub fn lift(bytes: &[u8; 592]) -> [[u8; 148]; 4]
    ensures { result ≡ words_of 148 bytes.now }
{
    [
        interleave(bytes, 0),
        interleave(bytes, 1),
        interleave(bytes, 2),
        interleave(bytes, 3),
    ]
}

/// The payload of four words of data.
pub fn join(plain: &[[u8; 132]; 4]) -> [u8; 528]
    ensures { result ≡ bytes_of 132 plain.now }
{
    interleaved(plain)
}

// Word i of the bytes.
fn interleave<const N: usize>(bytes: &[u8], i: usize) -> [u8; N]
    requires whole { length bytes.now ≡ 4 * N }
    requires below { i < 4 }
    ensures { result ≡ word_of N bytes.now i }
{
    let mut word = [0; N];
    for (k, byte) in word.iter_mut().enumerate() {
        *byte = bytes[4 * k + i];
    }
    word
}

// The bytes of the words, of which there are four times as many.
fn interleaved<const N: usize, const M: usize>(words: &[[u8; N]; 4]) -> [u8; M]
    requires { M ≡ 4 * N }
    ensures { result ≡ bytes_of N words.now }
{
    let mut bytes = [0; M];
    for (i, byte) in bytes.iter_mut().enumerate() {
        *byte = words[i % 4][i / 4];
    }
    bytes
}
