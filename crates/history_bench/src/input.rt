use anyhow::{Result, bail};
use disk_base::Bytes;
use outside::{FromRead, Reading, read_to_end};
use std::alloc::Global;
use std::io::Read;

/// The most bytes of a script with its report.
pub const BYTES_MAX: usize = 67_108_864;

/// All that a reader gives.
pub fn all_of<R: Read + Drop>(alloc: Global, reader: R) -> Result<Bytes> {
    match read_to_end(alloc, &mut FromRead::new(reader), BYTES_MAX) {
        Reading::Read(bytes) => Ok(bytes),
        Reading::TooLong => bail!("the input is too long"),
        Reading::Failed => bail!("the input failed"),
        Reading::NoMemory => bail!("there is no memory"),
    }
}
