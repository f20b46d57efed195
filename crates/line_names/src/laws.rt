ghost use Rattle.line_names.specs.Laws.{ReadIsSpelled, SpelledIsRead, OneTable, WrittenIsSpelled, WrittenIsRead};

/// What `read_files` reads is what the bytes of a line table spell, all that is spelled is read, whatever is before and
/// after it, and at an offset is at most one table: laws of the definitions that its contract names.
pub fn files_are_exact()
    ensures sound { ReadIsSpelled }
    ensures complete { SpelledIsRead }
    ensures unique { OneTable }
{}

/// What `write_lines` appends is a line table that names these paths, so `read_files` reads them again, also amid other
/// tables: laws of the definitions that their contracts name.
pub fn written_files_are_exact()
    ensures spelled { WrittenIsSpelled }
    ensures read { WrittenIsRead }
{}
