ghost use Rattle.std.specs.Prelude.{ℕ, List};
ghost use Rattle.macro_table.specs.DefinitionLaws.{TextIsReadBack, TokensAreLexed, FaultsArePlain};
ghost use Rattle.macro_table.specs.Instances.{FirstInsideIsFirst};
ghost use Rattle.macro_table.specs.Laws.{TableHasLastWord, FileNamesAreCarried};

/// A table that is made of a unit's entries in turn has for each name what the last entry says that defines or undefines
/// it, whether files are named by numbers or by paths.
pub fn table_has_last_word()
    ensures numbers { TableHasLastWord ℕ }
    ensures paths { TableHasLastWord (List ℕ) }
{}

/// The definitions that hold at a position don't depend on how files are named: with numbers in place of paths they are
/// the same, and each file has its number in place of its path.
pub fn file_names_are_carried()
    ensures { FileNamesAreCarried ℕ (List ℕ) }
{}

/// What is looked for in an instance of a file, another instance or the end of a prefix, is the first entry directly in
/// it: the files that are open there are those right after its start, all of which were open since.
pub fn first_inside_is_first()
    ensures numbers { FirstInsideIsFirst ℕ }
    ensures paths { FirstInsideIsFirst (List ℕ) }
{}

/// A definition is read back from its text, if phase 3 gave its tokens, but that white space is then before the
/// replacement list, which is no part of it (C17 6.10.3 p7).
pub fn text_is_read_back()
    ensures { TextIsReadBack }
{}

/// A text has exactly the tokens or the fault that phase 3 gives it, and neither its faults nor those of tokens are ever
/// want of memory: a call that answers `NoMemory` says nothing of its input.
pub fn definitions_rest_on_phase_3()
    ensures lexed { TokensAreLexed }
    ensures plain { FaultsArePlain }
{}
