//! The core of the store: its state, the order of its acts, and when it stands for a history.
#![tactic(auto)]

mod catalogue;
mod closing;
mod collector;
mod entering;
mod heads;
mod indexes;
mod journal;
mod kept;
mod listed_row;
mod marked;
mod noting;
mod pages;
mod parts;
mod saving;
mod state;
mod upkeep;
mod wanted;

pub use catalogue::{Catalogue, path_named};
pub use closing::{closes, end_session};
pub use collector::{Collector, Early};
pub use entering::{Admitted, Place, begin, enter, halted, next_place, settle, settle_read, short};
pub use indexes::{Indexes, OpenIndex, OpenIndexes, OpenPage, RangedPage};
pub use journal::{HELD, Journal};
pub use kept::{Kept, Listed, Session, StoredFile, Writing};
pub use listed_row::ListedRow;
pub use marked::{MarkedPage, MarkedPages};
pub use noting::is_on;
pub use pages::ReadPage;
pub use parts::Parts;
pub use saving::BOOK_NAME;
pub use state::{Core, CoreParts};
pub use store_history::{Act, Answer, Family};
pub use upkeep::{Upkeep, touch_each};
