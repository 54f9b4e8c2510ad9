ghost use Rattle.std.specs.Prelude.{◌≡◌, ◌*◌, ◌+◌, length};
ghost use Rattle.channel_path.specs.Sector.{AreCoded, IsEncoded};

use disk_base::Payload;
use prml_viterbi::samples_of_words;
use rll_code::encode_words;
use rs_sector::{deal, encode_sector, gather};

/// Samples of a sector: two for each bit of its 592 encoded bytes, and six more.
pub const SAMPLES: usize = 9478;

/// Encoded bytes of a sector.
pub(crate) const ENCODED: usize = 592;

/// Words of 64 channel bits of a sector. The last holds six.
pub(crate) const WORDS: usize = 149;

/// Writes the samples that a payload is written as.
// Inlined into a large function, its loops would lack registers.
#[inline(never)]
pub fn write_samples(payload: &Payload, out: &mut [i8; SAMPLES])
    ensures { IsEncoded payload.now out.new }
{
    let words = encode_sector(&deal(&payload.bytes()));
    write_code(&gather(&words), out);
}

// Writes the samples of the code of a sector's bytes.
fn write_code(bytes: &[u8; ENCODED], out: &mut [i8; SAMPLES])
    ensures { AreCoded bytes.now out.new }
{
    let mut channel = [0; WORDS];
    encode_words(bytes, &mut channel);
    samples_of_words(&channel, out);
}
