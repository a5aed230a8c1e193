//! Why a call on a store's files or on its state stops before its end.
#![tactic(auto)]

mod answers;
mod stop;

pub use answers::answered;
pub use stop::Stop;
