ghost use Rattle.std.specs.Prelude.{◌≡◌};
ghost use Rattle.task_set.specs.Touch.{collide, ranges_meet, CollideAtABlock};

use disk_base::{Attribute, Initiator, Tag};

/// The blocks that a command touches.
#[derive(Clone, Copy, Debug, Default, PartialEq, Eq)]
pub enum Touch {
    #[default]
    Nothing,
    /// So many blocks from an address on.
    Range { from: u64, count: u64, writes: bool },
    /// Every block, writing.
    All,
}

/// A command as the task set knows it.
#[derive(Clone, Copy, Debug, Default, PartialEq, Eq)]
pub struct Task {
    /// The command's number; a later command has a greater one.
    pub c: u32,
    pub initiator: Initiator,
    pub tag: Tag,
    pub attribute: Attribute,
    pub touch: Touch,
}

/// Whether two commands touch a common block, one of the two writing.
pub fn collide(a: &Touch, b: &Touch) -> bool
    ensures { result ≡ collide a.now b.now }
{
    match (*a, *b) {
        (Touch::Nothing, _) | (_, Touch::Nothing) => false,
        (Touch::All, Touch::All) => true,
        (Touch::All, Touch::Range { count, .. }) => count > 0,
        (Touch::Range { count, .. }, Touch::All) => count > 0,
        (
            Touch::Range {
                from: a,
                count: m,
                writes: w,
            },
            Touch::Range {
                from: b,
                count: n,
                writes: v,
            },
        ) => (w || v) && ranges_meet(a, m, b, n),
    }
}

// Whether two ranges have a block in common.
fn ranges_meet(a: u64, m: u64, b: u64, n: u64) -> bool
    ensures { result ≡ ranges_meet a m b n }
{
    let first = a.max(b);
    first - a < m && first - b < n
}

/// A law on what commands touch: two collide exactly where there is a block that both touch, and one of them writes.
pub fn commands_collide_at_a_block()
    ensures { CollideAtABlock }
{}
