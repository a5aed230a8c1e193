//! What holds of replays of sessions that were served.

ghost use Rattle.replay_laws.specs.Laws.{CleanRunsReplayEqual};

/// Where every lane ended cleanly, and the disk did not fail, the replay of the acts in their order differs nowhere from what the
/// lanes told.
pub fn clean_runs_replay_equal()
    ensures { CleanRunsReplayEqual }
{}
