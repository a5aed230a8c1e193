//! What holds of folders that are loaded, and of those that are opened.

ghost use Rattle.std.specs.Prelude.{◌≡◌, List};
ghost use Rattle.store_files.specs.Archive.{Snapshot};
ghost use Rattle.store_files.specs.Folder.{Files};
ghost use Rattle.store_model.specs.Load.{load};
ghost use Rattle.store_model.specs.Stands.{StandsFor};
ghost use Rattle.snapshot_files.specs.Leaving.{MayClean};

/// What stands for a list of snapshots is loaded as that list.
pub fn stands_is_loaded()
    ensures { (m : Files) (L : List Snapshot) → StandsFor m L → load m ≡ L }
{}

/// What stood for a list of snapshots stands for it without some of the files that opening takes away.
pub fn opening_keeps()
    ensures { (m c : Files) (L : List Snapshot) → MayClean m m c → StandsFor m L → StandsFor c L }
{}
