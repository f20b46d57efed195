ghost use Rattle.pp_unit.specs.WalkLaws.{WalkHasAnAnswer, WalkHasOneAnswer};

/// Where the stores of the path tell their files, these alone decide what a translation unit comes to: it is accepted with one list of
/// events, paths and marks, or it has one first fault at one place. That a store fails is the only other answer.
pub fn walk_has_one_answer()
    ensures { WalkHasOneAnswer }
{}

/// Whatever the stores of the path tell of their files, also where they tell nothing, a translation unit comes to something: it is
/// accepted, or it has a first fault that is no want of memory and no failure of a store.
pub fn walk_has_an_answer()
    ensures { WalkHasAnAnswer }
{}
