//! The jobs of a lane: what a SYNC and a VERIFY ask and report. There is no code here.
#![tactic(auto)]

mod others;
mod pulls;
mod verifies;

pub use others::{others_leave_readers, verifies_are_told, verifies_beside_others};
pub use pulls::{
    bad_files_end_it, chunks_are_sent_once, first_refusals_are_told, refusals_end_it,
    syncs_pull_by_the_list,
};
pub use verifies::{finished_snapshots_do_not_differ, sound_snapshots_verify};
