ghost use Rattle.string_sections.specs.Laws.{SpelledIsFound, WrittenIsSpelled};
ghost use Rattle.string_sections.specs.PoolLaws.{StringIsAtOffset, OffsetsDiffer, AddingKeepsOffsets, PoolHasWhatIsAdded};

/// Each offset of a contribution is found by `OffsetsView::at`, whatever is before and after the contribution, and what
/// `write_offsets` appends is a contribution: laws of the definitions that their contracts name.
pub fn offsets_are_exact()
    ensures found { SpelledIsFound }
    ensures written { WrittenIsSpelled }
{}

/// `string_at` finds each string of a pool at the offset that `StrPool::add` says, whatever follows the pool; no two
/// strings have the same offset; adding a string moves no other; and a pool has each string that was added once: laws of
/// the definitions that the contracts of `StrPool` name.
pub fn pool_is_exact()
    ensures found { StringIsAtOffset }
    ensures differ { OffsetsDiffer }
    ensures kept { AddingKeepsOffsets }
    ensures added { PoolHasWhatIsAdded }
{}
