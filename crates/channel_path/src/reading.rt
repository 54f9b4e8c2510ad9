ghost use Rattle.std.specs.Prelude.{◌≡◌, ◌<◌, ◌↔◌, ℕ, List, IfSome, IsTrue, Some, take, map, length};
ghost use Rattle.disk_base.specs.declared.payload.Payload.{Payload};
ghost use Rattle.disk_base.specs.Payload.{IsPayload};
ghost use Rattle.rs_sector.specs.Sector.{word_of, words_of};
ghost use Rattle.channel_path.specs.Sector.{AreHeard, AreInReach, IsInReach, IsOf, ReadsAs, flags_of};

use crate::writing::{ENCODED, SAMPLES, WORDS};
use disk_base::{How, NoMemory, Payload, Psn};
use prml_viterbi::{Work, chan_of, channel_of_clean, detect_by_search};
use rs_sector::{join, lift, nearest, nearest_erased};
use std::alloc::Global;
use std::marker::Model;

/// Wrong bytes of a word that the two plain ways of decoding correct.
const LIGHT_RADIUS: u8 = 4;

const FULL_RADIUS: u8 = 8;

/// The buffers of a read, made once. They hold nothing that outlasts a read.
#[derive(Drop)]
pub struct Path {
    work: Work,
    levels: Vec<i8>,
    channel: Vec<bool>,
}

impl Model for Path {
    ghost use Rattle.std.specs.Prelude.{◌≡◌, ℕ, vec_len};

    ghost Value = { ℕ };

    ghost view = { λ p. p.work };

    ghost invariant = { λ p. (p.work ≡ 9478) × (vec_len p.levels ≡ 9478) × (vec_len p.channel ≡ 9478) };
}

impl Path {
    /// The buffers for one sector.
    pub fn new(alloc: Global) -> Result<Self, NoMemory> {
        let work = Work::new(alloc, SAMPLES)?;
        let levels = vec![in alloc; 0; SAMPLES]?;
        let channel = vec![in alloc; false; SAMPLES]?;
        Ok(Path {
            work,
            levels,
            channel,
        })
    }
}

/// The payload that samples of a sector read as; none where they read as none of it.
// Inlined into a large function, its loops would lack registers.
#[inline(never)]
pub fn read_samples(path: &mut Path, p: Psn, samples: &[i8; SAMPLES], how: How) -> Option<Payload>
    ensures some { IfSome result (ReadsAs p samples.now how) }
    ensures none { (payload : Payload) → ReadsAs p samples.now how payload → result ≡ Some payload }
{
    let heard = hear(path, samples);
    let codewords = corrected(&heard, how)?;
    let payload = Payload::of_bytes(join(&data_of(&codewords)));
    if is_of(p, &payload) {
        Some(payload)
    } else {
        None
    }
}

// The encoded bytes of a sector as they were heard, and which of them are flagged.
#[derive(Drop)]
struct Heard {
    bytes: [u8; ENCODED],
    flags: [bool; ENCODED],
}

fn hear(path: &mut Path, samples: &[i8; SAMPLES]) -> Heard
    ensures { AreHeard samples.now result.bytes result.flags }
{
    let mut bytes = [0; ENCODED];
    let mut flags = [false; ENCODED];
    let mut words = [0; WORDS];
    if channel_of_clean(samples, &mut words) {
        rll_code::decode_words(&words, &mut bytes, &mut flags);
        return Heard { bytes, flags };
    }
    detect_by_search(samples, &mut path.work, &mut path.levels);
    chan_of(&path.levels, &mut path.channel);
    rll_code::decode(&path.channel, &mut bytes, &mut flags);
    Heard { bytes, flags }
}

// The codewords within reach of the four words, where each has one.
fn corrected(heard: &Heard, how: How) -> Option<[[u8; 148]; 4]>
    ensures some { IfSome result (AreInReach how heard.now.bytes heard.now.flags) }
    ensures none { (codewords : List (List ℕ)) → AreInReach how heard.now.bytes heard.now.flags codewords → result ≡ Some codewords }
{
    let words = lift(&heard.bytes);
    let first = corrected_word(heard, &words, 0, how)?;
    let second = corrected_word(heard, &words, 1, how)?;
    let third = corrected_word(heard, &words, 2, how)?;
    let fourth = corrected_word(heard, &words, 3, how)?;
    Some([first, second, third, fourth])
}

// The codeword within reach of word i.
fn corrected_word(heard: &Heard, words: &[[u8; 148]; 4], i: usize, how: How) -> Option<[u8; 148]>
    requires below { i < 4 }
    requires words { words.now ≡ words_of 148 heard.now.bytes }
    ensures some { IfSome result (IsInReach how (word_of 148 heard.now.bytes i) (flags_of heard.now.flags i)) }
    ensures none { (codeword : List ℕ) → IsInReach how (word_of 148 heard.now.bytes i) (flags_of heard.now.flags i) codeword → result ≡ Some codeword }
{
    nearest_by(how, &words[i], &interleaved_flags(&heard.flags, i))
}

// The codeword within reach of a word.
fn nearest_by(how: How, word: &[u8; 148], flags: &[bool; 148]) -> Option<[u8; 148]>
    ensures some { IfSome result (IsInReach how word.now flags.now) }
    ensures none { (codeword : List ℕ) → IsInReach how word.now flags.now codeword → result ≡ Some codeword }
{
    match how {
        How::Light => nearest(word, LIGHT_RADIUS),
        How::Full => nearest(word, FULL_RADIUS),
        How::Erased => nearest_erased(word, flags),
    }
}

// The flags of word i.
fn interleaved_flags(flags: &[bool; ENCODED], i: usize) -> [bool; 148]
    requires { i < 4 }
    ensures { result ≡ flags_of flags.now i }
{
    let mut word = [false; 148];
    for (k, flag) in word.iter_mut().enumerate() {
        *flag = flags[4 * k + i];
    }
    word
}

// The data of the four codewords.
fn data_of(codewords: &[[u8; 148]; 4]) -> [[u8; 132]; 4]
    ensures { result ≡ map (take 132) codewords.now }
{
    [
        front(&codewords[0]),
        front(&codewords[1]),
        front(&codewords[2]),
        front(&codewords[3]),
    ]
}

fn front(codeword: &[u8; 148]) -> [u8; 132]
    ensures { result ≡ take 132 codeword.now }
{
    let mut plain = [0; 132];
    plain.copy_from_slice(&codeword[..132]);
    plain
}

// Whether a payload is one of the sector's.
fn is_of(p: Psn, payload: &Payload) -> bool
    ensures { IsTrue result ↔ IsOf p payload.now }
{
    1 <= payload.kind && payload.kind <= 3 && payload.psn == p
}
