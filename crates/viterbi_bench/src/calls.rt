//! The calls, run so many times, with a sum over one value of each run and all of the last.

ghost use Rattle.std.specs.Prelude.{◌≡◌, ◌<◌, ◌≤◌, length};
ghost use Rattle.prml_viterbi.specs.Levels.{AreLevels};

use prml_viterbi::Work;

pub fn levels_of(count: u32, chan: &[bool], out: &mut [i8]) -> u64
    requires long { length out.old ≡ length chan.now }
    requires some { 0 < length out.old }
{
    let mut sum = 0;
    for round in 0..count {
        prml_viterbi::levels_of(chan, out);
        sum = with_one(sum, out, round);
    }
    with_all(sum, out)
}

pub fn samples_of(count: u32, levels: &[i8], out: &mut [i8]) -> u64
    requires long { length out.old ≡ length levels.now }
    requires levels { AreLevels levels.now }
    requires some { 0 < length out.old }
{
    let mut sum = 0;
    for round in 0..count {
        prml_viterbi::samples_of(levels, out);
        sum = with_one(sum, out, round);
    }
    with_all(sum, out)
}

pub fn detect(count: u32, samples: &[i8], work: &mut Work, out: &mut [i8]) -> u64
    requires long { length out.old ≡ length samples.now }
    requires room { length samples.now ≤ work.old }
    requires some { 0 < length out.old }
{
    let mut sum = 0;
    for round in 0..count {
        prml_viterbi::detect(samples, work, out);
        sum = with_one(sum, out, round);
    }
    with_all(sum, out)
}

/// The sum with the value at the round's place.
fn with_one(sum: u64, out: &[i8], round: u32) -> u64
    requires { 0 < length out.now }
{
    with_value(sum, out[round as usize % out.len()])
}

fn with_all(sum: u64, out: &[i8]) -> u64 {
    out.iter().fold(sum, |sum, value| with_value(sum, *value))
}

fn with_value(sum: u64, value: i8) -> u64 {
    sum.wrapping_mul(31).wrapping_add(if value > 0 {
        2
    } else if value < 0 {
        1
    } else {
        0
    })
}
