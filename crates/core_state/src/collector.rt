//! The collector of unused chunks, while it is open.

ghost use Rattle.core_state.specs.Entries.{FitsPages};

use crate::marked::MarkedPages;
use gc_plan::Gc;
use snapshot_files::FilePath;
use store_types::Refusal;

/// What ended a collector early.
#[derive(Debug, Drop)]
pub enum Early {
    /// Memory was wanting for one of its acts.
    NoMemory,
    /// The index that stands there does not decode, or is not as the collector opened it.
    Unreadable(FilePath),
}

impl Early {
    ghost use Rattle.std.specs.Prelude.{◌≡◌};
    ghost use Rattle.wire_commands.specs.HasText.{ReplyHasText};
    ghost use Rattle.wire_commands.specs.declared.reply.Reply.TheVariants.{Refused};
    ghost use Rattle.core_state.specs.Collectors.{refusal_of};

    /// As the collector's end replies it. It takes no memory.
    #[tactic(auto, using(crate::proofs::Texts::no_memory_has_text, crate::proofs::Texts::unreadable_has_text))]
    pub fn into_refusal(self) -> Refusal
        ensures value { result ≡ refusal_of self }
        ensures text { ReplyHasText (Refused result) }
    {
        match self {
            Early::NoMemory => Refusal::NoMemory,
            Early::Unreadable(path) => Refusal::Unreadable {
                name: path.into_bytes(),
            },
        }
    }
}

/// A collector that is open on a lane.
#[derive(Drop)]
pub struct Collector {
    pub lane: u32,
    pub plan: Gc,
    /// What is at hand of the index that is being marked. Nothing is before it is opened.
    pub pages: Option<MarkedPages>,
    /// Where something ended it early, its next act is its end.
    pub ended: Option<Early>,
    ghost fits: { FitsPages plan pages },
}

impl Collector {
    ghost use Rattle.std.specs.Prelude.{◌≡◌};
    ghost use Rattle.core_state.specs.Collectors.{with_cut};

    /// Want of memory ends it early. What ended it before stands.
    pub fn cut(&mut self)
        ensures { self.new ≡ with_cut self.old }
    {
        if self.ended.is_some() {
            return;
        }
        self.ended = Some(Early::NoMemory);
    }
}
