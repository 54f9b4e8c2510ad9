use disk_base::{Lba, MoveWhy, Stage};

/// What a started command needs next.
#[derive(Clone, Copy, Debug, PartialEq, Eq)]
pub enum Need {
    /// The value of a block. Unless it is to come from the medium, a newer value in the cache answers, and one that is
    /// kept clean where the settings allow it; else this stage is tried.
    Take { b: Lba, medium: bool, stage: Stage },
    /// A block's new value goes into the cache, or to its place where the cache has no room for it.
    Put { b: Lba },
    /// A block's new value goes to its place.
    PutThrough { b: Lba },
    /// The newest value of a block, which is dirty, goes to its place.
    Harden { b: Lba },
    /// The first dirty block from one address to below another.
    Pass { from: Lba, to: Lba },
    /// A block's value goes to a spare sector: the newest one, the one that the last stage found, or that it is lost.
    Move { b: Lba, why: MoveWhy },
    /// The bytes that the command gives, which aren't blocks.
    Page,
    /// The command ends.
    Nothing,
}
