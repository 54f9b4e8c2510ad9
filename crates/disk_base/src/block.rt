/// Bytes of a logical block.
pub const BLOCK_LENGTH: usize = 512;

/// The data of a logical block.
pub type Block = [u8; BLOCK_LENGTH];

/// What a block holds: its data, or nothing that can be given any more.
#[derive(Clone, Copy, Debug, PartialEq, Eq)]
pub enum Value {
    Data(Block),
    Lost,
}
