//! The lanes of the plain store as running code: what stands next on a lane, its open job, and what it was told. It is
//! slow, and uses nothing of the lanes and the jobs that it is compared with: they share the formats, frames and
//! commands, the rule of what a prune keeps, and the definitions.
#![tactic(auto)]

mod asked;
mod ending;
mod job;
mod judging;
mod lane;
mod next;
mod prune;
mod pull;
mod sync;
mod uploads;
mod verify;
mod visit;

pub use job::{Asking, Job};
pub use lane::Lane;
pub use next::{Ahead, Next};
pub use sync::pull_all;
