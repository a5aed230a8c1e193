//! The collector beside a history: what its sweep marks, visits and takes out, and that nothing that is needed is lost. There is no code here.
#![tactic(auto)]

mod laws;

pub use laws::{
    chunks_are_listed, counts_are_one, ends_are_reported, histories_are_safe, last_touches_stay,
    needed_chunks_are_there, only_visits_take, reports_are_right, taken_chunks_are_not_needed,
    there_or_sent, visits_come_last, whole_sweeps_leave_right,
};
