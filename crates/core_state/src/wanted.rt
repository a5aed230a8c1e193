//! What a command wants of its lane.

use crate::kept::{Session, Writing};
use crate::parts::Parts;
use restore_reader::Reader;
use store_types::Refusal;

impl Session {
    ghost use Rattle.std.specs.Prelude.{IfErr};
    ghost use Rattle.wire_commands.specs.HasText.{ReplyHasText};
    ghost use Rattle.wire_commands.specs.declared.reply.Reply.TheVariants.{Refused};
    ghost use Rattle.restore_reader.specs.Answers.{Lends};
    ghost use Rattle.core_state.specs.Wanted.{reader_in};

    /// The reader that it is. It is refused where it is none.
    pub fn reader(&self) -> Result<&Reader, Refusal>
        ensures value { Lends (reader_in self.now) result }
        ensures text { IfErr result (λ refusal. ReplyHasText (Refused refusal)) }
    {
        match self {
            Session::Reader(reader) => Ok(reader),
            session => Err(Refusal::WrongState(session.state())),
        }
    }
}

impl<D> Parts<D> {
    ghost use Rattle.std.specs.Prelude.{◌≡◌, ◌<◌, IfErr};
    ghost use Rattle.wire_commands.specs.HasText.{ReplyHasText};
    ghost use Rattle.wire_commands.specs.declared.reply.Reply.TheVariants.{Refused};
    ghost use Rattle.restore_reader.specs.Answers.{Lends};
    ghost use Rattle.core_state.specs.Wanted.{reader_in, session_at, want_idle, want_writer};

    /// The lane's reader. It is refused where the lane has none.
    pub fn reader(&self, lane: u32) -> Result<&Reader, Refusal>
        requires { lane < 64 }
        ensures value { Lends (reader_in (session_at self.now lane)) result }
        ensures text { IfErr result (λ refusal. ReplyHasText (Refused refusal)) }
    {
        self.sessions[lane as usize].reader()
    }

    /// The lane's writer. It is refused where the lane has none.
    pub fn writer(&self, lane: u32) -> Result<&Writing, Refusal>
        requires { lane < 64 }
        ensures value { Lends (want_writer (session_at self.now lane)) result }
        ensures text { IfErr result (λ refusal. ReplyHasText (Refused refusal)) }
    {
        match &self.sessions[lane as usize] {
            Session::Writer(writing) => Ok(writing),
            session => Err(Refusal::WrongState(session.state())),
        }
    }

    /// The lane has no session. It is refused where it has one.
    pub fn idle(&self, lane: u32) -> Result<(), Refusal>
        requires { lane < 64 }
        ensures value { want_idle (session_at self.now lane) ≡ result }
        ensures text { IfErr result (λ refusal. ReplyHasText (Refused refusal)) }
    {
        match &self.sessions[lane as usize] {
            Session::Idle => Ok(()),
            session => Err(Refusal::WrongState(session.state())),
        }
    }
}
