use anyhow::{Context, Result, bail};
use disk_base::Bytes;
use outside::{FromRead, Printed, Reading, ToWrite, offer, read_to_end};
use script_text::{ScriptFault, Why, print, read_script};
use std::alloc::Global;
use std::io;
use std::io::Read;

/// The most bytes of a script.
const BYTES_MAX: usize = 4_194_304;

/// Prints the script that a reader gives, as it was read, or the first line that is refused and why.
pub fn echo<R: Read + Drop>(alloc: Global, reader: R, rt: &impl Print) -> Result<()> {
    let bytes = all_of(alloc, reader)?;
    match read_script(alloc, bytes.as_slice()) {
        Ok(script) => {
            let text = print(alloc, &script).ok().context("there is no memory")?;
            match offer(&mut ToWrite::new(io::writer(rt)), text.as_slice()) {
                Printed::All => Ok(()),
                Printed::Fault => bail!("the output failed"),
            }
        }
        Err(ScriptFault::Refused { line, why }) => {
            let why = word_of(why);
            println!(rt; "line {line}: {why}")?;
            Ok(())
        }
        Err(ScriptFault::NoMemory) => bail!("there is no memory"),
    }
}

fn all_of<R: Read + Drop>(alloc: Global, reader: R) -> Result<Bytes> {
    match read_to_end(alloc, &mut FromRead::new(reader), BYTES_MAX) {
        Reading::Read(bytes) => Ok(bytes),
        Reading::TooLong => bail!("the script is too long"),
        Reading::Failed => bail!("the input failed"),
        Reading::NoMemory => bail!("there is no memory"),
    }
}

fn word_of(why: Why) -> &'static str {
    match why {
        Why::Bytes => "bytes",
        Why::Shape => "shape",
        Why::Number => "number",
        Why::Hex => "hex",
        Why::Cdb => "cdb",
        Why::Disk => "disk",
        Why::Place => "place",
        Why::Tag => "tag",
        Why::Limit => "limit",
        Why::Later => "later",
    }
}
