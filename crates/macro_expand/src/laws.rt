ghost use Rattle.macro_expand.specs.Laws.{ListsHaveOneAnswer, LevelsHaveOneAnswer, TextsHaveOneAnswer, TextsHaveOneLevel, OnlyFreeParametersExpand};
ghost use Rattle.macro_expand.specs.Invocations.{CallsAreExact};

/// The rules give each list and each text exactly one answer, and that is what the functions of the definition give.
pub fn one_answer()
    ensures lists { ListsHaveOneAnswer }
    ensures levels { LevelsHaveOneAnswer }
    ensures texts { TextsHaveOneAnswer }
    ensures single { TextsHaveOneLevel }
{}

/// Where a call ends and what its arguments are, found by counting parentheses and commas, is what the grammar of balanced
/// lists says (C17 6.10.3 p10 to p12).
pub fn calls_are_exact()
    ensures { CallsAreExact }
{}

/// Where the test of the rules wants no expansion of an argument, the expansion would make no difference (C17 6.10.3.1 p1).
pub fn only_free_parameters_expand()
    ensures { OnlyFreeParametersExpand }
{}
