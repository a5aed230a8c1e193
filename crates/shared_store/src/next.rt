//! The listing after an act. It is made before the act, so that nothing is wanting once the act is done.

ghost use Rattle.std.specs.Prelude.{◌≡◌, ◌<◌, ℕ, true, List, IfErr, IfOk};
ghost use Rattle.std.specs.Arc.{arc_value};
ghost use Rattle.store_types.specs.Names.{key_of};
ghost use Rattle.core_state.specs.declared.kept.Listed.{Listed as Finished};
ghost use Rattle.core_state.specs.Catalogue.{closed, listed_of, without_named};
ghost use Rattle.listing_views.specs.Listings.{rows};
ghost use Rattle.listing_views.specs.Rows.{all_rows};
ghost use Rattle.shared_store.specs.Views.{IsNextAfter, is_done as is_done_by, is_listing, row_of as row_of_kept, rows_of};

use core_state::{Act, Answer, Core, ListedRow, Session, Writing};
use listing_views::{Chunks, Listed, Listing};
use std::alloc::{AllocError, Global};
use std::sync::Arc;
use store_types::SnapshotKey;
use wire_commands::{Command, Reply};

/// The row of the writer's snapshot, as it is finished.
fn row_of(writing: &Writing) -> Result<Listed, AllocError>
    ensures { IfOk result (λ row. row ≡ row_of_kept (listed_of 0 writing.now).kept) }
{
    let row = ListedRow::whole(writing.files.as_slice());
    Ok(Listed {
        key: writing.session.key().clone()?,
        damaged: row.damaged,
        files: row.files,
    })
}

/// The rows after a FINISH of the session that is done.
fn after_finish(
    alloc: Global,
    shown: &Listing,
    session: &Session,
) -> Result<Arc<Chunks>, AllocError>
    ensures { IfOk result (λ next. (listed : List Finished) (place : ℕ)
        → rows shown.now ≡ rows_of listed
        → all_rows (arc_value next).items ≡ rows_of (closed place session.now listed)) }
{
    match session {
        Session::Writer(writing) => shown.with(alloc, row_of(writing)?),
        _ => shown.same(),
    }
}

/// The rows after a FORGET of the snapshot that is done.
fn after_forget(alloc: Global, shown: &Listing, snapshot: &[u8]) -> Result<Arc<Chunks>, AllocError>
    ensures { IfOk result (λ next. (listed : List Finished) → rows shown.now ≡ rows_of listed
        → all_rows (arc_value next).items ≡ rows_of (without_named (key_of snapshot.now) listed)) }
{
    match SnapshotKey::parse(alloc, snapshot)? {
        Ok(key) => shown.without(alloc, &key),
        Err(_) => shown.same(),
    }
}

/// The rows after the act, if it is done, beside those that are shown. None for an act that leaves the listing.
pub(crate) fn next_listing<D, E, C>(
    core: &Core<D, E, C>,
    alloc: Global,
    shown: &Listing,
    lane: u32,
    act: &Act,
) -> Result<Option<Arc<Chunks>>, AllocError>
    requires lane { lane < 64 }
    requires rows { rows shown.now ≡ rows_of core.now.parts.catalogue.listed }
    ensures ok { IfOk result (IsNextAfter core.now lane act.now) }
    ensures err { IfErr result (λ _. is_listing act.now ≡ true) }
{
    match act {
        Act::Plain(Command::Finish) => {
            let session = &core.parts.sessions[lane as usize];
            Ok(Some(after_finish(alloc, shown, session)?))
        }
        Act::Plain(Command::Forget { snapshot }) => {
            Ok(Some(after_forget(alloc, shown, snapshot.as_slice())?))
        }
        _ => Ok(None),
    }
}

/// The act was answered as done.
pub(crate) fn is_done(answer: &Answer) -> bool
    ensures { result ≡ is_done_by answer.now.reply }
{
    matches!(answer.reply, Some(Reply::Done))
}
