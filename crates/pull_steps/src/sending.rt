//! An index that is sent: its chunks, and then its entries.

ghost use Rattle.std.specs.Prelude.{◌≡◌, ◌<◌, ◌≤◌, ◌^◌, drop, length, vec_len, IfErr, IfOk, MatchResult};
ghost use Rattle.wire_commands.specs.HasText.{ReplyHasText};
ghost use Rattle.store_history.specs.Pulling as model;
ghost use Rattle.pull_steps.specs.Asked.{AsksFor};
ghost use Rattle.pull_steps.specs.Entries.{AsksAt, IsNext, NotesChunk, append_from, appended_behind, chunk_behind, chunk_from, chunk_read_at, chunk_told_at, opened_by, IsAsLong, size_at};
ghost use Rattle.pull_steps.specs.States.{CourseHasText, EndsInText, appending_at, closing_of, opening_of, pull_in, reading_at, sending_at, shown_course, shown_stock};
ghost use Rattle.pull_steps.specs.Taken.{IsData};

use crate::ask::Ask;
use crate::ending::{ended, mismatched};
use crate::files::next_file;
use crate::pull::State;
use crate::stages::{AtEntry, HasChunk, Sending};
use std::alloc::{AllocError, Global};
use store_types::{Bytes, Digest32, Rows};
use wire_commands::{Command, Reply};

/// How many entries an APPEND has at most.
const BATCH: usize = 4096;

/// What the entries from a place on come to first.
#[derive(Clone, Copy)]
pub enum Next {
    /// The chunk of the entry at this place was not sent for the snapshot.
    Unsent(usize),
    /// The chunk with this digest was sent, and has another length than its entry.
    Mismatched(Digest32),
    /// All were sent.
    End,
}

impl Sending {
    /// The NEW_FIXED or NEW_DYNAMIC of the index.
    pub fn open(&self, alloc: Global) -> Result<Ask, AllocError>
        ensures { IfOk result (AsksFor (opening_of self.now)) }
    {
        let file = Bytes::from_slice(alloc, self.index.name.as_slice())?;
        Ok(Ask::Command(match self.index.chunk_size {
            Some(chunk_size) => Command::NewFixed {
                file,
                size: self.index.size,
                chunk_size,
            },
            None => Command::NewDynamic { file },
        }))
    }

    /// The CLOSE_INDEX. It is the writer's only open index, so its number is 0.
    pub fn close(&self) -> Ask
        ensures { AsksFor (closing_of self.now) result }
    {
        Ask::Command(Command::CloseIndex {
            number: 0,
            count: self.index.entries.len() as u64,
            size: self.index.size,
            csum: self.index.csum,
        })
    }

    /// The first entry, from a place on, whose chunk was not sent for the snapshot, or is as long as another entry.
    fn next_entry(&self, from: usize) -> Next
        requires { from ≤ vec_len self.now.index.entries }
        ensures { IsNext self.now from result }
    {
        for place in from..self.index.entries.len() {
            let digest = self.index.entries[place].digest;
            let Some(size) = self.stock.sent.find(&digest) else {
                return Next::Unsent(place);
            };
            if !self.index.fits(place, u64::from(size)) {
                return Next::Mismatched(digest);
            }
        }
        Next::End
    }

    /// On to the next APPEND, of the entries from a place on, or to the CLOSE_INDEX. It takes no memory.
    #[tactic(auto, unfolding(store_history::specs::Pulling::next_append))]
    fn next_append(self, from: usize) -> State
        requires from { from ≤ vec_len self.index.entries }
        requires texts { CourseHasText (shown_course self.course) }
        ensures job { pull_in result ≡ append_from self (drop from self.index.entries.items) }
        ensures text { EndsInText (pull_in result) }
    {
        if from < self.index.entries.len() {
            return State::Appending(AtEntry {
                sending: self,
                place: from,
            });
        }
        State::ClosingIndex(self)
    }

    /// On to the next chunk that was not sent, of the entries from a place on, or to the first APPEND. A chunk that was sent
    /// and has another length than its entry ends the job. It takes no memory.
    fn next_chunk(self, from: usize) -> State
        requires from { from ≤ vec_len self.index.entries }
        requires texts { CourseHasText (shown_course self.course) }
        ensures job { pull_in result ≡ chunk_from self (drop from self.index.entries.items) }
        ensures text { EndsInText (pull_in result) }
    {
        match self.next_entry(from) {
            Next::Unsent(place) => State::ReadingChunk(AtEntry {
                sending: self,
                place,
            }),
            Next::Mismatched(digest) => mismatched(digest),
            Next::End => self.next_append(0),
        }
    }

    /// The state after the reply to NEW_FIXED or NEW_DYNAMIC. It takes no memory.
    pub fn opened(self, reply: Reply) -> State
        requires text { ReplyHasText reply }
        requires texts { CourseHasText (shown_course self.course) }
        ensures job { pull_in result ≡ opened_by self reply }
        ensures text { EndsInText (pull_in result) }
    {
        if let Reply::Refused(_) = reply {
            return ended(reply);
        }
        self.next_chunk(0)
    }

    /// The state after the reply to CLOSE_INDEX. It takes no memory.
    pub fn closed(self, alloc: Global, reply: Reply) -> State
        requires text { ReplyHasText reply }
        requires texts { CourseHasText (shown_course self.course) }
        ensures job { pull_in result
            ≡ model.goes_on reply (model.next_file (shown_course self.course) (shown_stock self.stock)) }
        ensures text { EndsInText (pull_in result) }
    {
        if let Reply::Refused(_) = reply {
            return ended(reply);
        }
        let Sending { course, stock, .. } = self;
        next_file(alloc, course, stock)
    }
}

impl AtEntry {
    /// The read of the chunk. It takes no memory.
    pub fn read(&self) -> Ask
        ensures { AsksAt (reading_at self.now) result }
    {
        Ask::Chunk {
            digest: self.sending.index.entries[self.place].digest,
        }
    }

    /// The APPEND of the entries from here on, as many as one has.
    pub fn append(&self, alloc: Global) -> Result<Ask, AllocError>
        ensures { IfOk result (AsksAt (appending_at self.now)) }
    {
        let end = self.sending.index.entries.len().min(self.place + BATCH);
        let entries = Vec::from_slice(alloc, &self.sending.index.entries[self.place..end])?;
        Ok(Ask::Command(Command::Append {
            number: 0,
            entries: Rows::from_vec(entries),
        }))
    }

    /// The chunk's blob was read: it counts as sent. At want of memory nothing has changed.
    fn note(&mut self, blob: &Bytes) -> Result<(), AllocError>
        requires { length blob.now < 2 ^ 32 }
        ensures { NotesChunk self.old self.new blob.now result }
    {
        let length = blob.as_slice().len() as u32;
        let digest = self.sending.index.entries[self.place].digest;
        self.sending.stock.sent.add(&digest, length)
    }

    /// The state after the chunk's blob was read: it is sent, unless it has another length than the entry. Where memory is
    /// wanting, the state before.
    fn blob_read(mut self, blob: Bytes) -> Result<State, State>
        requires small { length blob < 2 ^ 32 }
        requires texts { CourseHasText (shown_course self.sending.course) }
        ensures ok { IfOk result (λ state. pull_in state ≡ chunk_read_at self blob) }
        ensures err { IfErr result
            (λ state. (pull_in state ≡ reading_at self) × IsAsLong self blob) }
        ensures text { MatchResult result (λ state. EndsInText (pull_in state))
            (λ state. EndsInText (pull_in state)) }
    {
        let size = blob.as_slice().len() as u64;
        if !self.sending.index.fits(self.place, size) {
            return Ok(mismatched(self.sending.index.entries[self.place].digest));
        }
        match self.note(&blob) {
            Ok(()) => Ok(State::SendingChunk(HasChunk { at: self, blob })),
            Err(AllocError) => Err(State::ReadingChunk(self)),
        }
    }

    /// The state after the reply to the read of the chunk. Where memory is wanting for a chunk, the state before.
    pub fn chunk_read(self, reply: Reply) -> Result<State, State>
        requires text { ReplyHasText reply }
        requires texts { CourseHasText (shown_course self.sending.course) }
        ensures ok { IfOk result (λ state. pull_in state ≡ chunk_told_at self reply) }
        ensures err { IfErr result
            (λ state. (pull_in state ≡ reading_at self) × IsData (size_at self) reply) }
        ensures text { MatchResult result (λ state. EndsInText (pull_in state))
            (λ state. EndsInText (pull_in state)) }
    {
        match reply {
            Reply::Data(blob) => self.blob_read(blob),
            reply => Ok(ended(reply)),
        }
    }

    /// The state after the reply to the APPEND. It takes no memory.
    pub fn appended(self, reply: Reply) -> State
        requires text { ReplyHasText reply }
        requires texts { CourseHasText (shown_course self.sending.course) }
        ensures job { pull_in result ≡ model.goes_on reply (appended_behind self) }
        ensures text { EndsInText (pull_in result) }
    {
        if let Reply::Refused(_) = reply {
            return ended(reply);
        }
        let AtEntry { sending, place } = self;
        let end = sending.index.entries.len().min(place + BATCH);
        sending.next_append(end)
    }
}

impl HasChunk {
    /// The CHUNK.
    pub fn ask(&self, alloc: Global) -> Result<Ask, AllocError>
        ensures { IfOk result (AsksAt (sending_at self.now)) }
    {
        Ok(Ask::Command(Command::Chunk {
            digest: self.at.sending.index.entries[self.at.place].digest,
            blob: Bytes::from_slice(alloc, self.blob.as_slice())?,
        }))
    }

    /// The state after the reply to it. It takes no memory.
    pub fn sent(self, reply: Reply) -> State
        requires text { ReplyHasText reply }
        requires texts { CourseHasText (shown_course self.at.sending.course) }
        ensures job { pull_in result ≡ model.goes_on reply (chunk_behind self.at) }
        ensures text { EndsInText (pull_in result) }
    {
        if let Reply::Refused(_) = reply {
            return ended(reply);
        }
        let HasChunk { at, .. } = self;
        let AtEntry { sending, place } = at;
        sending.next_chunk(place + 1)
    }
}
