use disk_base::{Items, Value};

/// Values of a block, oldest first.
pub type Values = Items<Value>;

/// What is known of a block.
#[derive(Debug, Drop)]
pub struct BlockState {
    /// The values that it may have on the medium.
    pub base: Values,
    /// The values that were put since it was last hardened.
    pub newer: Values,
}

/// The blocks of an array, from block 0 on.
pub type Array = Items<BlockState>;
