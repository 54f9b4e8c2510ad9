ghost use Rattle.std.specs.Prelude.{◌≡◌, ◌+◌, ◌≤◌, ◌==◌, slice_get, drop};
ghost use Rattle.std.specs.List.{position};
ghost use Rattle.cdb_reader.specs.Reassign.{descriptors_at_most};
ghost use Rattle.command_engine.specs.Owed.{plan_owed};
ghost use Rattle.command_engine.specs.Answers.{past};
ghost use Rattle.command_engine.specs.declared.owed.Owed.TheVariants as owed;

use arrayvec::ArrayVec;
use disk_base::Lba;

// The most blocks that a list names: cdb_reader refuses longer ones.
const DESCRIPTORS_MAX: usize = 256;

/// A list of blocks that are moved to spare sectors, one after another.
#[derive(Debug, Drop)]
pub struct Reassigning {
    pub blocks: ArrayVec<Lba, DESCRIPTORS_MAX>,
    /// The descriptors up to the last whose block was hardened with its move.
    pub hardened: usize,
    /// The descriptors that were moved.
    pub moved: usize,
}

impl Reassigning {
    // The block of the descriptor that comes next.
    pub(crate) fn in_hand(&self) -> Option<Lba>
        ensures { result ≡ slice_get self.now.blocks.items self.now.moved }
    {
        self.blocks.as_slice().get(self.moved).copied()
    }

    // One descriptor more is moved; `settled` is its block where that was hardened with it.
    pub(crate) fn pass(&mut self, settled: Option<Lba>)
        requires hardened { self.old.hardened ≤ descriptors_at_most }
        requires moved { self.old.moved ≤ descriptors_at_most }
        ensures plan { plan_owed (owed.Moving self.new)
            ≡ past (record { blocks = self.old.blocks.items; hardened = self.old.hardened }) settled }
        ensures moved { self.new.moved ≡ self.old.moved + 1 }
    {
        self.moved += 1;
        let Some(b) = settled else {
            return;
        };
        match place_of(b, self.left()) {
            Some(place) => self.hardened += place + 1,
            None => {}
        }
    }

    // The blocks behind the last that was hardened.
    fn left(&self) -> &[Lba]
        ensures { result.now ≡ drop self.now.hardened self.now.blocks.items }
    {
        let blocks = self.blocks.as_slice();
        &blocks[blocks.len().min(self.hardened)..]
    }
}

// The first place of a block in a list.
fn place_of(b: Lba, blocks: &[Lba]) -> Option<usize>
    ensures { result ≡ position (λ block. block.0 == b.0) blocks.now }
{
    blocks.iter().position(|block| block.0 == b.0)
}
