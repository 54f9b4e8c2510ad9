ghost use Rattle.std.specs.Prelude.{◌≡◌, drop, slice_index, slice_range};
ghost use Rattle.std.specs.Int.{w32, w64, to_be_bytes};
ghost use Rattle.disk_base.specs.declared.payload.Payload.{Payload};
ghost use Rattle.disk_base.specs.Payload.{layout, IsPayload, value_for, user_payload, lost_payload, record_payload};

use crate::{BLOCK_LENGTH, Block, Lba, Psn, Value};

/// Bytes of a payload.
pub const PAYLOAD_LENGTH: usize = 528;

// Where the parts of a payload stand in its bytes.
const PSN_AT: usize = 4;

const ADDRESS_AT: usize = 8;

const BLOCK_AT: usize = 16;

/// The kinds of payload that a sector may carry.
const USER: u8 = 1;

const LOST: u8 = 2;

const MAP_RECORD: u8 = 3;

/// What a sector carries: sixteen bytes of heading and 512 bytes of data. Each choice of fields is a payload, and
/// each 528 bytes are the bytes of exactly one.
#[derive(Clone, Copy, Debug, PartialEq, Eq)]
pub struct Payload {
    /// 1 for a user block, 2 for a lost mark, 3 for a map record.
    pub kind: u8,
    /// The index of a map record among its map's four; 0 in the other kinds.
    pub index: u8,
    /// The state of the map that a record belongs to; 0 in the other kinds.
    pub state: u8,
    /// The version of a map record; 0 in the other kinds.
    pub version: u8,
    /// The number of the sector that the payload was written to.
    pub psn: Psn,
    /// The block's address, in a map record the map's number.
    pub address: u64,
    /// The block's data or the record's bytes; zeros in a lost mark.
    pub block: Block,
}

impl Payload {
    /// A user block's data for a sector.
    pub fn user(p: Psn, b: Lba, v: &Block) -> Self
        ensures { result ≡ user_payload p b v.now }
    {
        Payload {
            kind: USER,
            index: 0,
            state: 0,
            version: 0,
            psn: p,
            address: b.0,
            block: *v,
        }
    }

    /// The mark that a block's data are lost, for a sector.
    pub fn lost(p: Psn, b: Lba) -> Self
        ensures { result ≡ lost_payload p b }
    {
        Payload {
            kind: LOST,
            index: 0,
            state: 0,
            version: 0,
            psn: p,
            address: b.0,
            block: [0; BLOCK_LENGTH],
        }
    }

    /// A record of a map for a sector.
    pub fn map_record(p: Psn, index: u8, state: u8, version: u8, number: u64, block: &Block) -> Self
        ensures { result ≡ record_payload p index state version number block.now }
    {
        Payload {
            kind: MAP_RECORD,
            index,
            state,
            version,
            psn: p,
            address: number,
            block: *block,
        }
    }

    /// The payload of these bytes; `bytes` gives them back.
    pub fn of_bytes(bytes: [u8; PAYLOAD_LENGTH]) -> Self
        ensures laid_out { layout result ≡ bytes }

        // No other payload is laid out as these bytes.
        ensures only { (p : Payload) → IsPayload p → layout p ≡ bytes → result ≡ p }
    {
        payload_of(&bytes)
    }

    /// The bytes of the payload; `of_bytes` takes them back.
    pub fn bytes(&self) -> [u8; PAYLOAD_LENGTH]
        ensures { result ≡ layout self.now }
    {
        let mut bytes = [0; PAYLOAD_LENGTH];
        bytes[0] = self.kind;
        bytes[1] = self.index;
        bytes[2] = self.state;
        bytes[3] = self.version;
        bytes[PSN_AT..ADDRESS_AT].copy_from_slice(&self.psn.0.to_be_bytes());
        bytes[ADDRESS_AT..BLOCK_AT].copy_from_slice(&self.address.to_be_bytes());
        bytes[BLOCK_AT..].copy_from_slice(&self.block);
        bytes
    }

    /// Byte 0.
    pub fn kind(&self) -> u8
        ensures { result ≡ slice_index (layout self.now) 0 }
    {
        self.kind
    }

    /// Byte 1.
    pub fn index(&self) -> u8
        ensures { result ≡ slice_index (layout self.now) 1 }
    {
        self.index
    }

    /// Byte 2.
    pub fn state(&self) -> u8
        ensures { result ≡ slice_index (layout self.now) 2 }
    {
        self.state
    }

    /// Byte 3.
    pub fn version(&self) -> u8
        ensures { result ≡ slice_index (layout self.now) 3 }
    {
        self.version
    }

    /// Bytes 4 to 7.
    pub fn psn(&self) -> Psn
        ensures { to_be_bytes w32 result.0 ≡ slice_range (layout self.now) 4 8 }
    {
        self.psn
    }

    /// Bytes 8 to 15: the block's address, in a map record the map's number.
    pub fn address(&self) -> u64
        ensures { to_be_bytes w64 result ≡ slice_range (layout self.now) 8 16 }
    {
        self.address
    }

    /// Bytes 16 to 527.
    pub fn block(&self) -> Block
        ensures { result ≡ drop 16 (layout self.now) }
    {
        self.block
    }

    /// The value that the payload has for a block.
    pub fn value(&self, b: Lba) -> Value
        ensures { result ≡ value_for b self.now }
    {
        if self.kind == USER && self.address == b.0 {
            Value::Data(self.block)
        } else {
            Value::Lost
        }
    }
}

// The payload of these bytes, whose ranges are known behind a reference.
fn payload_of(bytes: &[u8; PAYLOAD_LENGTH]) -> Payload
    ensures laid_out { layout result ≡ bytes.now }
    ensures only { (p : Payload) → IsPayload p → layout p ≡ bytes.now → result ≡ p }
{
    let [
        kind,
        index,
        state,
        version,
        p0,
        p1,
        p2,
        p3,
        a0,
        a1,
        a2,
        a3,
        a4,
        a5,
        a6,
        a7,
        ..
    ] = *bytes;
    let mut block = [0; BLOCK_LENGTH];
    block.copy_from_slice(&bytes[BLOCK_AT..]);
    Payload {
        kind,
        index,
        state,
        version,
        psn: Psn(u32::from_be_bytes([p0, p1, p2, p3])),
        address: u64::from_be_bytes([a0, a1, a2, a3, a4, a5, a6, a7]),
        block,
    }
}
