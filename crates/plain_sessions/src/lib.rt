//! The sessions of the plain store as running code: what a lane's writer or reader has, what the commands of a session
//! test of it, and what they change. It is slow, and uses nothing of the sessions that it is compared with: they share
//! the formats, names and frames, and the definitions.
#![tactic(auto)]

mod archives;
mod beginning;
mod changes;
mod chunks;
mod closing;
mod entries;
mod finishing;
mod reader;
mod session;
mod stop;
mod uploading;
mod uploads;
mod writer;

pub use archives::Begun;
pub use changes::Change;
pub use chunks::checked_piece;
pub use reader::{Reader, blob_at};
pub use session::{Held, Session, want_free, want_unheld};
pub use stop::Stop;
pub use writer::Writer;
