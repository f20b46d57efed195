ghost use Rattle.position_table.specs.Laws.{PositionsAreExact};

/// A text is read as exactly the position that it spells. So none spells two, and a chain of numbers is never taken for
/// a path with a line.
pub fn positions_are_exact()
    ensures { PositionsAreExact }
{}
