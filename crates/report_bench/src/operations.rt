use anyhow::{Context, Result};
use disk_base::{BLOCK_LENGTH, Lba, Payload, Psn, Stage};
use platter_model::{Attempt, Op, Ops};
use std::alloc::Global;

/// So many operations, by threes the write of a sector, its fetch, and a try that finds what was written.
pub fn operations(alloc: Global, count: u64) -> Result<Ops> {
    let mut ops = Ops::new(alloc);
    for place in 0..count {
        ops.push(operation(place))
            .ok()
            .context("there is no memory")?;
    }
    Ok(ops)
}

fn operation(place: u64) -> Op {
    let p = Psn(20 + (place / 3 % 1000) as u32);
    match place % 3 {
        0 => Op::Wrote {
            payload: payload_on(p),
        },
        1 => Op::Fetched {
            p,
            attempt: Attempt {
                reread: 0,
                offset: 0,
            },
        },
        _ => Op::Tried {
            at: place,
            p,
            stage: Stage::default(),
            found: Some(payload_on(p)),
        },
    }
}

fn payload_on(p: Psn) -> Payload {
    Payload::user(p, Lba(u64::from(p.0)), &[(p.0 % 256) as u8; BLOCK_LENGTH])
}
