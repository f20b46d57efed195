ghost use Rattle.unit_splitter.specs.Laws.{GivesEventsBack, PartsAreLongest, SplitsAreWellMade};

/// What `split` gives puts the events together again; its pieces are runs of definitions and undefinitions, at most 16,384,
/// and no two are equal; runs are as long as they can be; its imports name pieces: laws of the definition that its contract
/// names.
pub fn splits_are_exact()
    ensures restored { GivesEventsBack }
    ensures well_made { SplitsAreWellMade }
    ensures longest { PartsAreLongest }
{}
