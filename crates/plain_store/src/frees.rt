//! Where replies have numbers that the plain store leaves free.

ghost use Rattle.std.specs.Prelude.{◌≡◌, ◌<◌, ◌++◌, [], length, OnOk};
ghost use Rattle.std.specs.List.{cons_option};
ghost use Rattle.plain_store.specs.Frees.{freed};

use crate::run::Run;
use std::alloc::AllocError;
use store_types::{Entry, STOP_KIND};

/// Where a lane's replies have the five numbers of a collection's report, in bytes from 0: there are 40. The plain store
/// has no chunks to count, and zeros in their place.
#[derive(Clone, Copy, Debug, PartialEq, Eq)]
pub struct Free {
    pub lane: u32,
    pub place: u64,
}

/// One more, where there is one.
pub(crate) fn note(frees: &mut Vec<Free>, free: Option<Free>) -> Result<(), AllocError>
    ensures { OnOk result (frees.new.items ≡ frees.old.items ++ cons_option free []) }
{
    if let Some(free) = free {
        frees.push(free)?;
    }
    Ok(())
}

impl Run<'_> {
    /// Where the reply to the entry has such numbers, if it fits: behind its length and its code.
    pub(crate) fn freed(&self, entry: &Entry) -> Option<Free>
        requires { entry.now.lane < length self.now.lanes }
        ensures { result ≡ freed self.now entry.now }
    {
        if entry.kind != STOP_KIND {
            return None;
        }
        if self.own_collector(entry.lane)? {
            return None;
        }
        Some(Free {
            lane: entry.lane,
            place: self.lanes[entry.lane as usize].told_len() + 5,
        })
    }
}
