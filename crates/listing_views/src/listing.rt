//! Listings.

ghost use Rattle.std.specs.Prelude.{◌≡◌, ◌≤◌, IfOk};
ghost use Rattle.std.specs.Arc.{arc_value};
ghost use Rattle.listing_views.specs.Rows.{all_rows, insert_row, lent_key, rows_behind, rows_without};
ghost use Rattle.listing_views.specs.Listings.{rows};

use crate::chunks;
use crate::chunks::Chunks;
use crate::listed::Listed;
use left_right::Absorb;
use std::alloc::{AllocError, Global};
use std::sync::Arc;
use store_types::{Rows, SnapshotKey};

/// The rows that are shown, and the length of the history that they are of. Copies share the rows.
#[derive(Drop)]
pub struct Listing {
    pub chunks: Arc<Chunks>,
    pub count: u64,
}

/// An operation is the whole new listing.
impl Absorb<Listing> for Listing {
    // A clause reads an array as a list, of any length.
    type State = (u64, [Listed; 0]);

    ghost state = { λ s. (s.count, all_rows (arc_value s.chunks).items) };

    ghost applied = { λ _ op. (op.count, all_rows (arc_value op.chunks).items) };

    fn absorb_first(&mut self, operation: &Listing, _other: &Listing) -> Result<(), AllocError> {
        let chunks = Arc::try_clone(&operation.chunks)?;
        self.chunks = chunks;
        self.count = operation.count;
        Ok(())
    }
}

impl Listing {
    /// The rows of no history.
    pub(crate) fn first(alloc: Global, listed: Vec<Listed>) -> Result<Listing, AllocError>
        ensures { IfOk result (λ x. (rows x ≡ listed.items) × (x.count ≡ 0)) }
    {
        let chunks = Arc::new(alloc, chunks::chunks_of(alloc, listed)?)?;
        Ok(Listing { chunks, count: 0 })
    }

    /// The same rows. It takes no memory.
    pub fn same(&self) -> Result<Arc<Chunks>, AllocError>
        ensures { IfOk result (λ x. all_rows (arc_value x).items ≡ rows self.now) }
    {
        Arc::try_clone(&self.chunks)
    }

    /// The same listing. It takes no memory.
    pub(crate) fn share(&self) -> Result<Listing, AllocError>
        ensures { IfOk result (λ x. (rows x ≡ rows self.now) × (x.count ≡ self.now.count)) }
    {
        Ok(Listing {
            chunks: self.same()?,
            count: self.count,
        })
    }

    /// The same listing, where it is of a history of at least so many events. It takes no memory.
    pub(crate) fn share_from(&self, least: u64) -> Result<Listing, AllocError>
        ensures { IfOk result (λ x. (rows x ≡ rows self.now)
            × (x.count ≡ self.now.count) × (least ≤ self.now.count)) }
    {
        if self.count < least {
            return Err(AllocError);
        }
        self.share()
    }

    /// The rows with one more, at its place.
    pub fn with(&self, alloc: Global, row: Listed) -> Result<Arc<Chunks>, AllocError>
        ensures { IfOk result (λ x. all_rows (arc_value x).items
            ≡ insert_row row (rows self.now)) }
    {
        let next = chunks::with(alloc, &self.chunks, row)?;
        Ok(Arc::new(alloc, next)?)
    }

    /// The rows without those of a key.
    pub fn without(&self, alloc: Global, key: &SnapshotKey) -> Result<Arc<Chunks>, AllocError>
        ensures { IfOk result (λ x. all_rows (arc_value x).items
            ≡ rows_without key.now (rows self.now)) }
    {
        let next = chunks::without(alloc, &self.chunks, key)?;
        Ok(Arc::new(alloc, next)?)
    }

    /// The first 1,024 rows behind a key, or of all.
    pub fn behind(
        &self,
        alloc: Global,
        after: Option<&SnapshotKey>,
    ) -> Result<Rows<Listed>, AllocError>
        ensures { IfOk result (λ told. told
            ≡ rows_behind (lent_key after.entry) (rows self.now)) }
    {
        chunks::behind(alloc, &self.chunks, after)
    }
}
