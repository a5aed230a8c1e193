//! Views of the listing, which never wait.

ghost use Rattle.std.specs.Prelude.{◌≡◌, ◌≤◌, length, IfOk};
ghost use mathlib.Core.List.{IsPrefix};
ghost use Rattle.left_right.specs.Sides.{view};
ghost use Rattle.listing_views.specs.Rows.{lent_key};
ghost use Rattle.shared_store.specs.Comes.{ShowsBehind};
ghost use Rattle.shared_store.specs.Views.{Learns};

use crate::known::{Came, Origin};
use crate::seat::Seat;
use crate::shared::Shared;
use core_state::Core;
use disk_trait::Disk;
use listing_views::{Listed, Viewer};
use port_traits::Clock;
use std::alloc::{AllocError, Global};
use store_types::{Rows, SnapshotKey};

/// Where a view can stand.
#[derive(Drop)]
pub struct Place<D: Disk, E: Disk, C: Clock, N: Origin<Core<D, E, C>>> {
    pub viewer: Viewer<Came<D, E, C, N>>,
}

/// What shows the listing, and never waits. It lives no longer than the store.
#[derive(Drop)]
pub struct View<'a, D: Disk, E: Disk, C: Clock, N: Origin<Core<D, E, C>>> {
    pub store: &'a Shared<D, E, C, N>,
    pub viewer: Viewer<Came<D, E, C, N>>,
    /// So many events of the history it has learnt of.
    pub learnt: u64,
}

impl<D: Disk, E: Disk, C: Clock, N: Origin<Core<D, E, C>>> Place<D, E, C, N> {
    /// A view, which has learnt nothing. It takes no memory.
    pub fn view(self, store: &Shared<D, E, C, N>) -> View<'_, D, E, C, N>
        ensures viewer { result.viewer ≡ self.viewer }
        ensures learnt { result.learnt ≡ 0 }
        ensures store { result.store.now ≡ store.now }
    {
        let Place { viewer } = self;
        View {
            store,
            viewer,
            learnt: 0,
        }
    }
}

impl<'a, D: Disk, E: Disk, C: Clock, N: Origin<Core<D, E, C>>> View<'a, D, E, C, N> {
    /// The first 1,024 snapshots behind a key, or of all, after a history that begins with those of all that this view has
    /// shown, and has at least as many events as it has learnt of. An act that is in the turn may count as entered. Want of
    /// memory is told too where what is shown is of fewer events than it has learnt of.
    pub fn list(
        &mut self,
        alloc: Global,
        after: Option<&SnapshotKey>,
    ) -> Result<Rows<Listed>, AllocError>
        ensures learnt { self.new.learnt ≡ self.old.learnt }
        ensures store { self.new.store.now ≡ self.old.store.now }
        ensures later { IsPrefix (view self.old.viewer.reader.place)
            (view self.new.viewer.reader.place) }
        ensures least { IfOk result (λ _. self.old.learnt
            ≤ length (view self.new.viewer.reader.place)) }
        ensures lists { IfOk result (ShowsBehind D.Disk E.Disk C.Clock N.is
            (lent_key after.entry) (view self.new.viewer.reader.place)) }
    {
        self.viewer.list(self.learnt)?.behind(alloc, after)
    }

    /// Learns of what the seat did to the listing, and of what it found.
    pub fn learn(&mut self, seat: &Seat<D, E, C, N>)
        requires own { seat.now.turn ≡ self.old.store.now.turn.id }
        ensures learns { Learns self.old.learnt self.new.learnt seat.now }
        ensures viewer { self.new.viewer ≡ self.old.viewer }
        ensures store { self.new.store.now ≡ self.old.store.now }
    {
        self.learnt = self.learnt.max(seat.note);
    }
}
