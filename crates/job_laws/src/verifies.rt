//! What holds of every VERIFY of a snapshot that the store may hold.

ghost use Rattle.job_laws.specs.Verifies.{SoundSnapshotsVerify, FinishedSnapshotsDoNotDiffer};

/// A VERIFY of a snapshot that the store may hold, on a lane without a session, while the snapshot and the session stay and
/// the plain store answers it but for damaged chunks, comes to its end. It reads the chunk of each entry of the indexes, in
/// order, and counts the snapshot's files, pieces and bytes. Of each file it tells that it differs from what the manifest
/// lists, or is the manifest of another, and else its first damaged chunk. Its steps leave the store's snapshots.
pub fn sound_snapshots_verify()
    ensures { SoundSnapshotsVerify }
{}

/// Of such a snapshot whose files FINISH takes under its key none differs; it has no fault where no chunk is damaged.
pub fn finished_snapshots_do_not_differ()
    ensures { FinishedSnapshotsDoNotDiffer }
{}
