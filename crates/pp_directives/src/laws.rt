ghost use Rattle.pp_directives.specs.Laws.{ConditionsFollowGroups, TreesAreOfRoles};
ghost use Rattle.pp_directives.specs.Following.{Ways};
ghost use Rattle.pp_directives.specs.FollowingLaws.{LinesRunAsTheirTree};

/// What `Conditions` keeps line by line is what the tree of the lines says (C17 6.10 p1, 6.10.1 p6): the first line that
/// is rejected, with its fault, what is open at the end, and before each line whether its group is taken and whether
/// its condition decides a group.
pub fn conditions_follow_groups()
    ensures { ConditionsFollowGroups }
{}

/// Lines, whatever is known of each, have one tree at most, and whether they have one is said by what they do to groups
/// alone.
pub fn trees_are_of_roles<A>()
    ensures { TreesAreOfRoles A }
{}

/// What lines of some kind do to a state.
pub trait Following<A, S, F> {
    ghost ways: { Ways A S F };
}

/// Whatever lines and conditions come to: to follow the lines of a file one after another, with what is pending, is to
/// follow their tree, and then to answer the fault of its structure (C17 6.10.1 p6).
pub fn lines_run_as_their_tree<A, S, F, W: Following<A, S, F>>()
    ensures { LinesRunAsTheirTree W.ways }
{}
