ghost use Rattle.unit_header.specs.Laws.{ReadIsSpelled, SpelledIsRead, OneHeader, WrittenIsRead};

/// What `read_header` reads is what the bytes spell, all that is spelled is read, and no header begins another: laws of
/// the definitions that its contract names.
pub fn headers_are_exact()
    ensures sound { ReadIsSpelled }
    ensures complete { SpelledIsRead }
    ensures unique { OneHeader }
{}

/// What `write_header` appends spells the header, and is read again, whatever follows: a law of the definitions that its
/// contract names.
pub fn writing_is_exact()
    ensures { WrittenIsRead }
{}
