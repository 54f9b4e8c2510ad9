//! The scripts that the kernels read. Each line of them is served.
use std::alloc::{AllocError, Global};

/// Phases of the mixed script: a few more, and it would be longer than 4,194,304 bytes.
const PHASES: u16 = 2570;

/// A script of about 4 MB: in each phase reads and writes of one block each, one of them with its 512 bytes.
pub fn mixed(alloc: Global) -> Result<String, AllocError> {
    let mut text = String::new(alloc);
    for phase in 0..PHASES {
        put_phase(&mut text, phase)?;
    }
    Ok(text)
}

fn put_phase(text: &mut String, phase: u16) -> Result<(), AllocError> {
    let block = phase % 800;
    let tag = u32::from(phase) * 16;
    let sector = 16 + phase % 1000;
    let count = block + 1;
    writeln!(text, "# phase {phase}: reads and writes")?;
    writeln!(text, "damage {sector} 1000 {count} soft 2 add -100")?;
    writeln!(text, "damage {sector} {block} 50 hard drop")?;
    for more in 0..4u32 {
        let read = tag + more;
        let write = tag + 4 + more;
        writeln!(text, "cmd 1 {read} S 28000000{block:04X}00000100")?;
        writeln!(
            text,
            "cmd 1 {write} S 2A000000{block:04X}00000100 *{more:02X}"
        )?;
    }
    put_others(text, tag + 8, block)?;
    put_given(text, tag + 12, block)?;
    if phase % 16 == 0 {
        put_synchronized(text, tag + 13)?;
    }
    writeln!(text, "go")
}

fn put_others(text: &mut String, tag: u32, block: u16) -> Result<(), AllocError> {
    let write = tag.wrapping_add(1);
    let both = tag.wrapping_add(2);
    let verify = tag.wrapping_add(3);
    writeln!(
        text,
        "cmd 1 {tag} S 8800000000000000{block:04X}000000010000"
    )?;
    writeln!(
        text,
        "cmd 1 {write} S 8A00000000000000{block:04X}000000010000 *a5"
    )?;
    writeln!(text, "cmd 1 {both} S 2E000000{block:04X}00000100 *77")?;
    writeln!(text, "cmd 1 {verify} S 2F000000{block:04X}00000100")
}

fn put_given(text: &mut String, tag: u32, block: u16) -> Result<(), AllocError> {
    write!(text, "cmd 1 {tag} S 2A000000{block:04X}00000100 =")?;
    let mut digits = u64::from(tag);
    for _ in 0..64u32 {
        digits = digits
            .wrapping_mul(6364136223846793005)
            .wrapping_add(1442695040888963407);
        write!(text, "{digits:016X}")?;
    }
    writeln!(text, "")
}

fn put_synchronized(text: &mut String, tag: u32) -> Result<(), AllocError> {
    let next = tag.wrapping_add(1);
    writeln!(text, "cmd 1 {tag} S 35000000000000000000")?;
    writeln!(text, "cmd 1 {next} S 91000000000000000000000000000000")
}

/// A phase of 65,536 lines, with each tag once.
pub fn all_tags(alloc: Global) -> Result<String, AllocError> {
    let mut text = String::new(alloc);
    for tag in 0..65536u32 {
        writeln!(
            text,
            "cmd 1 {tag} S 2A000000000000000000 =00112233445566778899AABBCC"
        )?;
    }
    Ok(text)
}

/// 4,194,304 bytes in 65,536 comments.
pub fn comments(alloc: Global) -> Result<String, AllocError> {
    let mut text = String::new(alloc);
    for number in 0..65536u32 {
        writeln!(text, "# {number:061}")?;
    }
    Ok(text)
}

/// 4,194,304 bytes in one comment.
pub fn one_comment(alloc: Global) -> Result<String, AllocError> {
    let mut text = String::new(alloc);
    for _ in 0..65535u32 {
        text.push_str("################################################################")?;
    }
    text.push_str("###############################################################")?;
    writeln!(text, "")?;
    Ok(text)
}
