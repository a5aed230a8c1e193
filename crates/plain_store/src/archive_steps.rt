//! The commands of a writer on its archives.

ghost use Rattle.std.specs.Prelude.{◌<◌, ◌≤◌};
ghost use Rattle.store_types.specs.Times.{last_moment};
ghost use Rattle.store_model.specs.ArchiveSteps.{new_dynamic as begins, put_chunk as puts, append as appends};
ghost use Rattle.plain_store.specs.Outcomes.{BeginsFixed, Closes, Does, IsSpelled};

use crate::plain::Plain;
use plain_sessions::{Change, Stop, checked_piece};
use std::alloc::Global;
use store_types::{AppendEntry, Digest32};
use wire_commands::Reply;

impl Plain {
    /// NEW_FIXED: the lane's writer begins a fixed archive, and the lane is told its number.
    pub(crate) fn new_fixed(
        &mut self,
        alloc: Global,
        lane: u32,
        moment: u64,
        name: &[u8],
        size: u64,
        chunk_size: u64,
    ) -> Result<Reply, Stop>
        requires lane { lane < 64 }
        requires moment { moment ≤ last_moment }
        ensures does { BeginsFixed self.old self.new lane moment name.now size chunk_size result }
        ensures spelled { IsSpelled result }
    {
        let w = self.want_writer(lane)?;
        let begun = w.begin_fixed(alloc, name, size, chunk_size, moment)?;
        let number = begun.number;
        self.change(lane, Change::Begin(begun))?;
        Ok(Reply::Number(number))
    }

    /// NEW_DYNAMIC: the lane's writer begins a dynamic archive, and the lane is told its number.
    pub(crate) fn new_dynamic(
        &mut self,
        alloc: Global,
        lane: u32,
        moment: u64,
        name: &[u8],
    ) -> Result<Reply, Stop>
        requires lane { lane < 64 }
        requires moment { moment ≤ last_moment }
        ensures does { Does self.old self.new result (begins self.old lane moment name.now) }
        ensures spelled { IsSpelled result }
    {
        let w = self.want_writer(lane)?;
        let begun = w.begin_dynamic(alloc, name, moment)?;
        let number = begun.number;
        self.change(lane, Change::Begin(begun))?;
        Ok(Reply::Number(number))
    }

    /// CHUNK: the blob's piece comes to the pool of the lane's writer.
    pub(crate) fn put_chunk(
        &mut self,
        alloc: Global,
        lane: u32,
        digest: &Digest32,
        blob: &[u8],
    ) -> Result<Reply, Stop>
        requires { lane < 64 }
        ensures does { Does self.old self.new result (puts self.old lane digest.now blob.now) }
        ensures spelled { IsSpelled result }
    {
        self.want_writer(lane)?;
        let piece = checked_piece(alloc, digest, blob)?;
        let pieces = vec![in alloc; piece]?;
        self.change(lane, Change::Pool(pieces))?;
        Ok(Reply::Done)
    }

    /// APPEND: an archive of the lane's writer has the pieces of these entries behind its own, or none of them.
    pub(crate) fn append(
        &mut self,
        alloc: Global,
        lane: u32,
        number: u8,
        entries: &[AppendEntry],
    ) -> Result<Reply, Stop>
        requires { lane < 64 }
        ensures does { Does self.old self.new result (appends self.old lane number entries.now) }
        ensures spelled { IsSpelled result }
    {
        let w = self.want_writer(lane)?;
        let pieces = w.pieces_for(alloc, number, entries)?;
        self.change(lane, Change::Grow(number, pieces))?;
        Ok(Reply::Done)
    }

    /// CLOSE_INDEX: an archive of the lane's writer becomes a file.
    pub(crate) fn close_index(
        &mut self,
        alloc: Global,
        lane: u32,
        number: u8,
        count: u64,
        size: u64,
        csum: &Digest32,
    ) -> Result<Reply, Stop>
        requires { lane < 64 }
        ensures does { Closes self.old self.new lane number count size csum.now result }
        ensures spelled { IsSpelled result }
    {
        let w = self.want_writer(lane)?;
        let file = w.closed(alloc, number, count, size, csum)?;
        self.change(lane, Change::Close(number, file))?;
        Ok(Reply::Done)
    }
}
