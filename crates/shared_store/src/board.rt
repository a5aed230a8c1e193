//! What shows a core's listing, and where views of it stand.

ghost use Rattle.std.specs.Prelude.{◌≡◌, ◌≤◌, [], length, take, IfOk, IsTrue};
ghost use Rattle.std.specs.List.{list_all};
ghost use Rattle.left_right.specs.Sides.{view};
ghost use Rattle.listing_views.specs.Listings.{rows};
ghost use Rattle.shared_store.specs.Comes.{IsFresh};
ghost use Rattle.shared_store.specs.Views.{row_of as row_of_kept, rows_of as rows_of_all};

use crate::known::{Came, Origin};
use crate::view::Place;
use core_state::{Core, Kept, Listed as Finished, ListedRow};
use disk_trait::Disk;
use listing_views::{Listed, Poster, Viewer};
use port_traits::Clock;
use std::alloc::{AllocError, Global};
use std::sync::Wait;

fn row_of(kept: &Kept) -> Result<Listed, AllocError>
    ensures { IfOk result (λ row. row ≡ row_of_kept kept.now) }
{
    let row = ListedRow::of(kept);
    Ok(Listed {
        key: kept.key.clone()?,
        damaged: row.damaged,
        files: row.files,
    })
}

fn rows_of(alloc: Global, listed: &[Finished]) -> Result<Vec<Listed>, AllocError>
    ensures { IfOk result (λ rows. rows.items ≡ rows_of_all listed.now) }
{
    let mut rows = Vec::new(alloc);
    for snapshot in listed {
        rows.push(row_of(&snapshot.kept)?)?;
    }
    Ok(rows)
}

/// Where so many views can stand.
fn make_places<D: Disk, E: Disk, C: Clock, N: Origin<Core<D, E, C>>>(
    alloc: Global,
    poster: &Poster<Came<D, E, C, N>>,
    views: usize,
) -> Result<Vec<Place<D, E, C, N>>, AllocError>
    ensures { IfOk result (λ places. length places.items ≡ views) }
{
    let mut places = Vec::new(alloc);
    for place in 0..views {
        let _ = place;
        let viewer = Viewer::make(poster)?;
        places.push(Place { viewer })?;
    }
    Ok(places)
}

/// What shows the core's listing, and where views of it stand.
pub(crate) fn make_board<R: Wait, D: Disk, E: Disk, C: Clock, N: Origin<Core<D, E, C>>>(
    rt: &R,
    alloc: Global,
    core: &Core<D, E, C>,
    views: usize,
) -> Result<(Poster<Came<D, E, C, N>>, Vec<Place<D, E, C, N>>), AllocError>
    requires origin { N.is core.now }
    requires fresh { IsFresh C.Clock core.now }
    requires views { views ≤ 64 }
    ensures seen { IfOk result (λ r. view r.0.writer.desk.place ≡ []) }
    ensures rows { IfOk result (λ r. rows r.0.writer.desk.shown.value
        ≡ rows_of_all core.now.parts.catalogue.listed) }
    ensures places { IfOk result (λ r. length r.1.items ≡ views) }
{
    let listed = rows_of(alloc, core.parts.catalogue.as_slice())?;
    let poster = Poster::make(rt, alloc, listed, views + 1)?;
    match make_places(alloc, &poster, views) {
        Ok(places) => Ok((poster, places)),
        Err(failed) => {
            poster.end(rt);
            Err(failed)
        }
    }
}
