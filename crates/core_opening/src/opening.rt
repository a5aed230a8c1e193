//! Opening a datastore.

ghost use Rattle.std.specs.Prelude.{◌≡◌, [], replicate, IfOk, IfErr, IsErrOf};
ghost use Rattle.disk_trait.specs.Disk.{Serves};
ghost use Rattle.core_state.specs.Entering.{AllHeld};
ghost use Rattle.core_state.specs.declared.indexes.Indexes.TheVariants.{Unread};
ghost use Rattle.core_state.specs.declared.kept.Session.TheVariants.{Idle};
ghost use Rattle.snapshot_files.specs.Opened.{CleansDisk, WantsMemory};
ghost use Rattle.snapshot_files.specs.Removed.{StepsClean};
ghost use Rattle.core_opening.specs.Opening.{BooksDisk, CataloguesDisk, CleansOpening, HasBegun, HasBook, IsGivenBack, IsNew, LeavesOpened, ListsFound, TouchesOpened, RecordsOpened, RecoversOpened, ServesOpening, StandsOpened, fault_of};

use crate::booking::upkeep_of;
use crate::cataloguing::catalogue_of;
use core_state::{Catalogue, Core, Indexes, Journal, Parts, Session, Upkeep};
use disk_trait::{Disk, DiskError};
use lock_book::LockBook;
use port_traits::Clock;
use snapshot_files::open_files;
use std::alloc::{AllocError, Global};
use store_types::LANES;
use thiserror::Error;

/// Why a datastore was not opened.
#[derive(Clone, Copy, Debug, PartialEq, Eq, Drop, Error)]
pub enum OpenFault {
    /// The disk failed as it was to be synced. Nothing was removed.
    #[error("the disk could not be synced")]
    NotSynced,
    /// The disk failed once it was synced.
    #[error("the disk failed")]
    DiskFault,
    /// Memory was wanting once the disk was synced.
    #[error("out of memory")]
    NoMemory,
}

impl From<DiskError> for OpenFault {
    ghost from_gives = { λ e fault. fault ≡ fault_of e };

    fn from(e: DiskError) -> Self {
        match e {
            DiskError::NoMemory => OpenFault::NoMemory,
            DiskError::Failed => OpenFault::DiskFault,
        }
    }
}

/// All that was handed in, and why it was not opened.
#[derive(Drop)]
pub struct NotOpened<D, E, C> {
    pub cause: OpenFault,
    pub disk: D,
    pub remote: Option<E>,
    pub clock: C,
}

/// No session on any lane.
fn idle_sessions(alloc: Global) -> Result<Vec<Session>, AllocError>
    ensures { IfOk result (λ v. v.items ≡ replicate 64 Idle) }
{
    let mut sessions = Vec::with_capacity(alloc, LANES)?;
    while sessions.len() < LANES {
        sessions.push(Session::Idle)?;
    }
    Ok(sessions)
}

/// No lane keeps anything of indexes.
fn unread_indexes(alloc: Global) -> Result<Vec<Indexes>, AllocError>
    ensures { IfOk result (λ v. v.items ≡ replicate 64 Unread) }
{
    let mut indexes = Vec::with_capacity(alloc, LANES)?;
    while indexes.len() < LANES {
        indexes.push(Indexes::Unread)?;
    }
    Ok(indexes)
}

/// What memory an opening takes beside the catalogue.
fn state_of(alloc: Global) -> Result<(Journal, Vec<Session>, Vec<Indexes>), AllocError>
    ensures entries { IfOk result (λ x. x.0.entries.items ≡ []) }
    ensures calls { IfOk result (λ x. x.0.calls.items ≡ []) }
    ensures held { IfOk result (λ x. AllHeld x.0) }
    ensures sessions { IfOk result (λ x. x.1.items ≡ replicate 64 Idle) }
    ensures indexes { IfOk result (λ x. x.2.items ≡ replicate 64 Unread) }
{
    let journal = Journal::new(alloc)?;
    let sessions = idle_sessions(alloc)?;
    let indexes = unread_indexes(alloc)?;
    Ok((journal, sessions, indexes))
}

/// What a core begins with: its memory, and what was read of the folder.
#[derive(Drop)]
struct Opened {
    journal: Journal,
    sessions: Vec<Session>,
    indexes: Vec<Indexes>,
    catalogue: Catalogue,
    upkeep: Upkeep,
}

/// Opens the folder of a disk that was synced, reads the saved book, and lists what was found.
fn opened_of<D: Disk>(disk: &mut D, alloc: Global) -> Result<Opened, DiskError>
    ensures serves { Serves D.honest D.faults disk.old disk.new (IsErrOf result DiskError.Failed) }
    ensures crash { StepsClean D.Disk disk.old disk.new }
    ensures cleaned { CleansDisk D.Disk disk.old disk.new result }
    ensures want { WantsMemory D.Disk disk.old disk.new result }
    ensures catalogue { CataloguesDisk D.Disk disk.old disk.new result }
    ensures book { BooksDisk D.Disk disk.old disk.new result }
    ensures begins { IfOk result IsNew }
{
    let (journal, sessions, indexes) = state_of(alloc)?;
    let inventory = open_files(disk, alloc)?;
    let upkeep = upkeep_of(disk, alloc, &inventory.chunks)?;
    let catalogue = catalogue_of(alloc, inventory.snapshots)?;
    Ok(Opened {
        journal,
        sessions,
        indexes,
        catalogue,
        upkeep,
    })
}

/// Opens a datastore, whatever moment its last run was stopped at. It syncs the disk; removes each temporary file, and each
/// file of a snapshot without a manifest; then reads each manifest once, and the book of touches. No other file is touched,
/// and no index or chunk is read.
///
/// The catalogue has each snapshot whose manifest is there, damaged ones too. Where the disk failed or memory was wanting,
/// all that was handed in is handed back; some of the files that opening removes may be gone then, unless the disk could not
/// be synced.
pub fn open_on<D: Disk, E, C: Clock>(
    alloc: Global,
    mut disk: D,
    remote: Option<E>,
    clock: C,
) -> Result<Core<D, E, C>, NotOpened<D, E, C>>
    // it stands for a history without events, opened with the list that the disk stood for
    ensures opened { IfOk result (StandsOpened D.Disk C.readings disk clock) }
    // of this history is its book: each chunk that is there has its touch of the saved book, or is undated
    ensures touches { IfOk result (TouchesOpened D.Disk C.readings disk clock) }
    // on any disk it keeps a history without events
    ensures records { IfOk result (RecordsOpened C.readings clock) }
    ensures begun { IfOk result HasBegun }
    ensures reserve { IfOk result (λ core. AllHeld core.journal) }
    // the snapshots that were found, by numbers of their own
    ensures catalogue { D.honest disk → IfOk result (ListsFound D.Disk) }
    // the book is of the chunks that were found, with the touches that the saved one has of them
    ensures book { D.honest disk → IfOk result (HasBook D.Disk) }
    // on any disk a fault comes only where its count rose
    ensures serves { ServesOpening D.Disk disk result }
    // opened or not: up to a moment a crash leaves what it could before, and from it on what was read without some of what
    // opening takes away; where the disk could not be synced, what it could before
    ensures crash { LeavesOpened D.Disk disk result }
    // from such a moment on it stands for the list that the disk stood for
    ensures recovers { IfOk result (RecoversOpened D.Disk C.readings disk clock) }
    // what opening takes away is gone, and all else is as it was
    ensures cleaned { CleansOpening D.Disk disk result }
    // all is handed on, or back
    ensures handed { IfOk result (λ core. (core.remote ≡ remote) × (core.clock ≡ clock)) }
    ensures not_opened { IfErr result (IsGivenBack D.Disk disk remote clock) }
{
    let Ok(()) = disk.sync() else {
        return Err(NotOpened {
            cause: OpenFault::NotSynced,
            disk,
            remote,
            clock,
        });
    };
    match opened_of(&mut disk, alloc) {
        Ok(opened) => Ok(Core {
            parts: Parts {
                disk,
                catalogue: opened.catalogue,
                sessions: opened.sessions,
                locks: LockBook::new(alloc),
                indexes: opened.indexes,
            },
            remote,
            clock,
            journal: opened.journal,
            last: opened.upkeep.book.moment(),
            upkeep: opened.upkeep,
            collector: None,
            fault: None,
        }),
        Err(e) => Err(NotOpened {
            cause: OpenFault::from(e),
            disk,
            remote,
            clock,
        }),
    }
}
