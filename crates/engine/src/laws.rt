ghost use Rattle.engine.specs.Laws.{PlainRunsAreRuns};

/// The run in which nothing fails is one that may happen.
pub fn plain_runs_are_runs()
    ensures { PlainRunsAreRuns }
{}
