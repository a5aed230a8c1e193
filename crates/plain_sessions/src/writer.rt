//! Writers.

ghost use Rattle.std.specs.Prelude.{◌≡◌, option_map};
ghost use Rattle.store_model.specs.Store.{is_key};
ghost use Rattle.store_model.specs.WriterSteps.{new_writer};

use crate::archives::Open;
use crate::uploads::Uploads;
use plain_snapshots::{BlobData, PlainKey};
use std::alloc::Global;
use std::marker::Model;
use store_types::SnapshotKey;

/// A writer: its snapshot is not finished. It has at most 64 uploaded and open files together.
#[derive(Drop)]
pub struct Writer {
    pub(crate) key: PlainKey,
    /// The moment at which it was opened.
    pub(crate) start: u64,
    /// The group's latest snapshot at that moment.
    pub(crate) base: Option<PlainKey>,
    /// The pieces that it may name, as they came.
    pub(crate) pool: Vec<BlobData>,
    pub(crate) begun: Open,
    pub(crate) uploads: Uploads,
}

impl Model for Writer {
    ghost use Rattle.std.specs.Prelude.{◌+◌, ◌≤◌, length};
    ghost use Rattle.store_model.specs.Store as model;

    ghost Value = { model.Writer };

    ghost view = { λ w. record {
      key = w.key;
      start = w.start;
      base = w.base;
      pool = w.pool.items;
      begun = w.begun;
      files = w.uploads;
    } };

    ghost invariant = { λ w. length w.uploads + length w.begun ≤ 64 };
}

impl Writer {
    /// A writer of a snapshot, opened at this moment, with this base. It takes no memory.
    pub fn new(alloc: Global, key: PlainKey, start: u64, base: Option<PlainKey>) -> Writer
        ensures { result ≡ new_writer key start base }
    {
        Writer {
            key,
            start,
            base,
            pool: Vec::new(alloc),
            begun: Open::new(alloc),
            uploads: Uploads::new(alloc),
        }
    }

    /// The group's latest snapshot when the writer was opened.
    pub fn base(&self) -> Option<&PlainKey>
        ensures { option_map (λ k. k.now) result ≡ self.now.base }
    {
        self.base.as_ref()
    }
    /// The snapshot is the writer's base.
    pub(crate) fn has_base(&self, key: &SnapshotKey) -> bool
        ensures { result ≡ is_key key.now self.now.base }
    {
        match &self.base {
            None => false,
            Some(base) => key == base.as_key(),
        }
    }
}
