//! The commands on the store as a whole, as acts of the core: LIST, FILES, FORGET and GROUP, and the first step of a PRUNE. Each
//! does the step of the plain store.
#![tactic(auto)]

mod act;
mod file_list;
mod forgetting;
mod groups;
mod listing;

pub use act::admin_act;
pub use file_list::files;
pub use forgetting::forget;
pub use groups::{group, prune_group};
pub use listing::{list, row_of};
