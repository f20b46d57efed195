ghost use Rattle.dwmac_run.specs.Laws.{OneAnswer};

/// Words have exactly one answer where what they ask for is read from told files: a law of the definitions that the
/// contract of `run` names.
pub fn each_run_has_one_answer()
    ensures { OneAnswer }
{}
