//! What the core keeps of snapshots and sessions.

use backup_session::Writer;
use restore_reader::Reader;
use snapshot_files::{FilePath, Stored};
use store_types::{Bytes, FileName, Rows, SessionState, SnapshotKey};

/// A file of a snapshot: its name there, and its name in the datastore folder.
#[derive(Debug, Drop)]
pub struct StoredFile {
    pub name: FileName,
    pub path: FilePath,
}

impl Stored for StoredFile {
    ghost use Rattle.core_state.specs.Shown.{put_at};

    ghost at = { put_at };

    fn path(&self) -> Option<&FilePath> {
        if self.name.is_manifest() {
            None
        } else {
            Some(&self.path)
        }
    }
}

/// What is kept of a finished snapshot. The files stand in byte order of their names; of one that was found they are those
/// that its manifest lists, if it reads, and the manifest.
#[derive(Debug, Drop)]
pub struct Kept {
    pub key: SnapshotKey,
    pub files: Rows<StoredFile>,
    /// The full name of the file that makes the snapshot damaged, of 251 bytes at most. None where it is whole.
    pub unreadable: Option<Bytes>,
}

/// A finished snapshot in the catalogue.
#[derive(Debug, Drop)]
pub struct Listed {
    /// The number of the order's entry by which it was finished; of those that were found at opening, 2^63 and more, one
    /// after another.
    pub number: u64,
    pub kept: Kept,
}

/// A writer: its snapshot is not finished.
#[derive(Drop)]
pub struct Writing {
    /// Its pieces, open indexes and files, and the manifest's file text, which stays in memory until the snapshot is
    /// finished.
    pub session: Writer,
    /// Its files in byte order of their names, the manifest among them.
    pub files: Rows<StoredFile>,
}

/// What a lane has.
#[derive(Drop)]
pub enum Session {
    Idle,
    Writer(Writing),
    /// A reader of a finished snapshot, with the archives that it downloaded.
    Reader(Reader),
}

impl Session {
    ghost use Rattle.std.specs.Prelude.{◌≡◌};
    ghost use Rattle.core_state.specs.States.{state_of};

    /// Which session it is.
    pub fn state(&self) -> SessionState
        ensures { result ≡ state_of self.now }
    {
        match self {
            Session::Idle => SessionState::Idle,
            Session::Writer(_) => SessionState::Writer,
            Session::Reader(_) => SessionState::Reader,
        }
    }
}
