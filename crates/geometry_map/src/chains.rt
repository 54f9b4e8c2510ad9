//! What holds of the spares that a map has left, and of the chains of pairs that take them.
ghost use Rattle.geometry_map.specs.Laws.{GivenSparesAreNext, FreeSparesAreNoPlaces};
ghost use Rattle.geometry_map.specs.Laws.{ChainsMoveOneBlock, ChainsOfFreeSparesFit};

/// The next spare is free and not taken.
pub fn the_next_spare_is_free()
    ensures { GivenSparesAreNext }
{}

/// A free spare is at no block's place.
pub fn no_block_is_at_a_free_spare()
    ensures { FreeSparesAreNoPlaces }
{}

/// A chain of pairs from a block's place moves that block to its end, and no other.
pub fn a_chain_moves_one_block()
    ensures { ChainsMoveOneBlock }
{}

/// `Map::with_pairs` takes a chain of free spares.
pub fn a_chain_of_free_spares_fits()
    ensures { ChainsOfFreeSparesFit }
{}
