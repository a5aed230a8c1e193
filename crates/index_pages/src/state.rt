//! What an opening keeps of a page.

ghost use Rattle.std.specs.Prelude.{◌≡◌};
ghost use Rattle.hash_states.specs.States.{absorb, digest_of};

use hash_states::{HashState, Quarters};
use std::marker::Model;
use store_types::Digest32;

/// The state of the SHA-256 of all entries before a page, as contracts see it. By the hash values within the page, which it
/// holds besides, the page's bytes are hashed again in four quarters side by side.
#[derive(Drop)]
pub struct PageState {
    state: HashState,
    quarters: Quarters,
}

impl Model for PageState {
    ghost use Rattle.hash_states.specs.States.{State};

    ghost Value = { State };

    ghost view = { λ s. s.state };
}

impl PageState {
    // Of a page behind a state, which takes its bytes in.
    fn of(state: &mut HashState, bytes: &[u8]) -> PageState
        ensures before { result ≡ state.old }
        ensures state { state.new ≡ absorb state.old bytes.now }
    {
        let before = state.copy();
        let quarters = state.update_noting(bytes);
        PageState {
            state: before,
            quarters,
        }
    }

    // The SHA-256 of all entries to the page's end, where these are its bytes.
    fn digest_with(&self, bytes: &[u8]) -> [u8; 32]
        ensures { result ≡ digest_of (absorb self.now bytes.now) }
    {
        let mut state = self.state.copy();
        state.update_by(bytes, &self.quarters);
        state.digest()
    }
}

/// What an opening keeps of a page: the state of the SHA-256 of all entries before it, and that SHA-256 at its end.
#[derive(Drop)]
pub struct PageSum {
    before: PageState,
    sum: Digest32,
}

impl PageSum {
    ghost use Rattle.index_pages.specs.Paged.{has_sum};

    /// Of a page behind a state, which takes its bytes in.
    pub(crate) fn of(state: &mut HashState, bytes: &[u8]) -> PageSum
        ensures before { result.before ≡ state.old }
        ensures sum { (result.sum).0 ≡ digest_of (absorb state.old bytes.now) }
        ensures state { state.new ≡ absorb state.old bytes.now }
    {
        let before = PageState::of(state, bytes);
        let sum = Digest32(state.digest());
        PageSum { before, sum }
    }

    /// Whether the page had these bytes, by the SHA-256 at its end.
    pub(crate) fn has(&self, bytes: &[u8]) -> bool
        ensures { result ≡ has_sum self.now bytes.now }
    {
        let found = self.before.digest_with(bytes);
        found.as_slice() == self.sum.0.as_slice()
    }
}
