//! Runs one of the detector's calls many times over the samples of one sector: `viterbi_bench CALL
//! COUNT` prints a sum over what the runs wrote, so that a peer can be compared with it.
#![tactic(auto)]

ghost use Rattle.std.specs.Prelude.{◌≡◌, ◌<◌, length};

mod calls;
mod sector;

use anyhow::{Context, Result, bail};
use prml_viterbi::Work;
use sector::{PLACES, Sector};
use std::alloc::Global;
use std::env;

fn main(rt: HostRuntime) -> Result<()> {
    let mut args = env::args(&rt)?.skip(1);
    let call = args.next().context("no call is named")?;
    let count = args.next().context("no count is given")?;
    let count = count.parse::<u32>().context("the count is no number")?;
    let sum = run(rt.alloc(), call.as_str(), count)?;
    println!(rt; "{sum}")?;
    Ok(())
}

/// The sum over so many runs of the call that is named.
fn run(alloc: Global, call: &str, count: u32) -> Result<u64> {
    let sector = Sector::new(alloc)?;
    let mut out = vec![in alloc; 0i8; PLACES]?;
    let mut work = Work::new(alloc, PLACES)?;
    let out = out.as_mut_slice();
    Ok(match call {
        "levels_of" => calls::levels_of(count, sector.chan.as_slice(), out),
        "samples_of" => samples_of(alloc, count, sector.chan.as_slice(), out)?,
        "detect_clean" => calls::detect(count, sector.clean.as_slice(), &mut work, out),
        "detect_noisy" => calls::detect(count, sector.noisy.as_slice(), &mut work, out),
        _ => bail!("no such call"),
    })
}

/// The levels of the channel bits first, and then the samples so many times.
fn samples_of(alloc: Global, count: u32, chan: &[bool], out: &mut [i8]) -> Result<u64>
    requires long { length out.old ≡ length chan.now }
    requires some { 0 < length out.old }
{
    let mut levels = vec![in alloc; 0i8; chan.len()]?;
    let levels = levels.as_mut_slice();
    prml_viterbi::levels_of(chan, levels);
    Ok(calls::samples_of(count, levels, out))
}
