//! SHA-256 by its blocks. A state goes on with more bytes, and may be kept between them. Bytes that were hashed before are
//! hashed anew in four quarters side by side, where the hash values after each quarter were noted.
#![tactic(auto)]

mod blocks;
mod constants;
mod quarters;
mod rounds;
mod state;
mod word;

pub use quarters::Quarters;
pub use state::HashState;

/// How many bytes a block has.
const BLOCK_LEN: usize = 64;
