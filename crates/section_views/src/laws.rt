ghost use Rattle.section_views.specs.Laws.{GivenIsThere, ThereIsGiven};

/// A file that isn't rejected has one section of each name of the family at most, and that is the one which `section`,
/// `number` and `sections` of `Elf` give, inside the file: the two are laws of the definitions that their contracts
/// name.
pub fn views_are_exact()
    ensures sound { GivenIsThere }
    ensures complete { ThereIsGiven }
{}
