//! Sessions that have ended, before what was handed in is handed back.

use crate::served::{RunReport, Served};
use crate::status::status_of;
use core_state::{Core, CoreParts};
use disk_trait::DiskError;
use store_history::LaneReport;

/// The core that the sessions were served on, how each was served, and why the book of touches was not saved, if it was not.
#[derive(Drop)]
pub struct Ended<D, E, C> {
    pub core: Core<D, E, C>,
    pub lanes: Vec<LaneReport>,
    pub not_saved: Option<DiskError>,
}

impl<D, E, C: Drop> Ended<D, E, C> {
    ghost use Rattle.std.specs.Prelude.{◌≡◌};
    ghost use Rattle.pbs_server.specs.Ended.{served_of};

    /// What the core was made of, with its order.
    pub fn handed_back(self) -> Served<D, E>
        ensures { result ≡ served_of self }
    {
        let Ended {
            core,
            lanes,
            not_saved,
        } = self;
        let parts = core.parts();
        let status = status_of(&parts.order, &lanes, not_saved);
        let CoreParts {
            disk,
            remote,
            order,
            calls,
            ..
        } = parts;
        Served {
            status,
            order,
            report: RunReport {
                lanes,
                calls,
                not_opened: None,
                not_saved,
                journal_failed: false,
                unequal: None,
            },
            disk,
            remote,
        }
    }
}
