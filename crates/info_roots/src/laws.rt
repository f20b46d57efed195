ghost use Rattle.info_roots.specs.Laws.{ReadAreRoots, RootsAreRead, OneList, UnitsFollowUnits, WrittenIsUnit, WrittenAreRoots};

/// What `read_roots` reads are the roots of the file, all of a file's roots are read, a file has at most one list of
/// roots, and a unit has its root whatever units come before and after it: laws of the definition that its contract
/// names.
pub fn roots_are_exact()
    ensures sound { ReadAreRoots }
    ensures complete { RootsAreRead }
    ensures unique { OneList }
    ensures amid { UnitsFollowUnits }
{}

/// What `write_roots` writes of a root is a unit that has this root, so what it writes of a list of roots has exactly
/// these, and `read_roots` reads them again: laws of the definitions that their contracts name.
pub fn written_roots_are_read()
    ensures unit { WrittenIsUnit }
    ensures roots { WrittenAreRoots }
{}
