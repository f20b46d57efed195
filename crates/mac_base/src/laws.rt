ghost use Rattle.mac_base.specs.Laws.{ReadIsSpelled, SpelledIsRead, LengthIsSpelled, SpelledLengthIsRead, OneLength, WrittenIsRead};

/// What the reads of `Cursor` give is what the bytes spell, and all that is spelled is read, whatever follows it: the
/// two are laws of the definitions that their contracts name.
pub fn fields_are_exact()
    ensures sound { ReadIsSpelled }
    ensures complete { SpelledIsRead }
{}

/// The same of the length of a unit, which `extent_at` reads, and at most one length is spelled at a place.
pub fn lengths_are_exact()
    ensures sound { LengthIsSpelled }
    ensures complete { SpelledLengthIsRead }
    ensures unique { OneLength }
{}

/// What `push_uleb` and `push_fixed` append spells the number, is read again, and in ULEB128 is the shortest spelling,
/// and what `push_length` and `push_string` append spells the length or the string: a law of the definitions that their
/// contracts name.
pub fn writing_is_exact()
    ensures { WrittenIsRead }
{}
