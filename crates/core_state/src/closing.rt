//! Acts that end a session, and the entries of the order that are to be had without memory.

ghost use Rattle.std.specs.Prelude.{◌≡◌, ◌<◌, ◌+◌, ◌↔◌, IsTrue, OnOk, OnErr, slice_set};
ghost use Rattle.lock_book.specs.Locks.{Releases};
ghost use Rattle.store_model.specs.Store.{Store, ended};
ghost use Rattle.core_state.specs.Closing as closing;
ghost use Rattle.core_state.specs.Closing.{HasEnded};
ghost use Rattle.core_state.specs.Entering.{SameEntries};
ghost use Rattle.core_state.specs.Holds.{Shows};
ghost use Rattle.core_state.specs.Reserved.{HasRoom};
ghost use Rattle.core_state.specs.declared.indexes.Indexes.TheVariants.{Unread};
ghost use Rattle.core_state.specs.declared.kept.Session.TheVariants.{Idle};

use crate::indexes::Indexes;
use crate::kept::Session;
use crate::parts::Parts;
use crate::state::Core;
use std::alloc::AllocError;
use store_history::Act;
use wire_commands::Command;

/// The act ends the session: an ABORT of a writer, a CLOSE_READER of a reader.
pub fn closes(session: &Session, act: &Act) -> bool
    ensures { result ≡ closing.closes act.now session.now }
{
    match act {
        Act::Plain(Command::Abort) => matches!(session, Session::Writer(_)),
        Act::Plain(Command::CloseReader) => matches!(session, Session::Reader(_)),
        _ => false,
    }
}

/// The lane has no session any more, holds nothing and keeps nothing of indexes. It takes no memory, and the disk is not
/// called: what is left of a writer stays where it is.
pub fn end_session<D>(parts: &mut Parts<D>, lane: u32)
    requires { lane < 64 }
    ensures disk { parts.new.disk ≡ parts.old.disk }
    ensures catalogue { parts.new.catalogue.listed ≡ parts.old.catalogue.listed }
    ensures sessions { parts.new.sessions.items ≡ slice_set parts.old.sessions.items lane Idle }
    ensures ended { HasEnded parts.new lane }
    ensures locks { Releases parts.old.locks parts.new.locks lane }
    ensures indexes { parts.new.indexes.items ≡ slice_set parts.old.indexes.items lane Unread }
    ensures shows { (s : Store) → Shows parts.old s → Shows parts.new (ended s lane) }
{
    parts.sessions[lane as usize] = Session::Idle;
    parts.indexes[lane as usize] = Indexes::Unread;
    parts.locks.release(lane);
}

impl<D, E, C> Core<D, E, C> {
    /// The act ends the lane's session, and the disk hasn't failed so far.
    pub fn is_closing(&self, lane: u32, act: &Act) -> bool
        requires { lane < 64 }
        ensures { result ≡ closing.is_closing self.now lane act.now }
    {
        match self.fault {
            None => closes(&self.parts.sessions[lane as usize], act),
            Some(_) => false,
        }
    }

    /// An entry for an act of the lane is to be had without memory: a spare one, or one of the lane's reserve. No act asks
    /// for more than another.
    pub fn room(&self, lane: u32, _act: &Act) -> bool
        requires { lane < 64 }
        ensures { IsTrue result ↔ HasRoom self.now lane }
    {
        self.journal.room(lane as usize)
    }

    /// Makes so many spare entries. At want of memory nothing has changed.
    pub fn reserve(&mut self, more: u32) -> Result<(), AllocError>
        ensures entries { SameEntries self.old.journal self.new.journal }
        ensures held { self.new.journal.held ≡ self.old.journal.held }
        ensures spare { OnOk result (self.new.journal.spare ≡ self.old.journal.spare + more) }
        ensures err { OnErr result (self.new.journal.spare ≡ self.old.journal.spare) }
        ensures parts { self.new.parts ≡ self.old.parts }
        ensures remote { self.new.remote ≡ self.old.remote }
        ensures clock { self.new.clock ≡ self.old.clock }
        ensures upkeep { self.new.upkeep ≡ self.old.upkeep }
        ensures collector { self.new.collector ≡ self.old.collector }
        ensures last { self.new.last ≡ self.old.last }
        ensures fault { self.new.fault ≡ self.old.fault }
    {
        self.journal.reserve(more)
    }
}
