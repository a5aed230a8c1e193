//! What holds of replays as a whole.

ghost use Rattle.replay.specs.Laws.{CleanRunsAreReplayed};

/// Where every lane of a run ended cleanly, and the disk did not fail, its replay gives the same store and replies.
pub fn clean_runs_are_replayed()
    ensures { CleanRunsAreReplayed }
{}
