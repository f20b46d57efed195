ghost use Rattle.import_graph.specs.Laws.{OneSplice, OneWalk, OneAnswer, SomeWalk, SomeAnswer, WalkedIsSpliced};

/// A root stands for at most one list of entries, and its walk comes to exactly one answer. So exactly one of a graph and
/// a first fault is the root's answer: laws of the definitions that the contract of `Graph::read` names.
pub fn a_root_has_one_answer()
    ensures splice { OneSplice }
    ensures walk { OneWalk }
    ensures answer { OneAnswer }
    ensures some_walk { SomeWalk }
    ensures whole { WalkedIsSpliced }
    ensures some_answer { SomeAnswer }
{}
