//! A law on tables of moves.
ghost use Rattle.move_table.specs.Table.{MovesAreToldByTheirNumbers};

/// Law: each move of a table is the one in flight of its number.
pub fn moves_are_told_by_their_numbers()
    ensures { MovesAreToldByTheirNumbers }
{}
