//! The commands of a reader.

ghost use Rattle.std.specs.Prelude.{◌≡◌, ◌<◌};
ghost use Rattle.store_model.specs.ReaderSteps.{reader_files, open_reader as opened, download as downloaded, get_chunk as chunk_given, range as range_given, read_file as file_read, read_chunk as chunk_read, close_reader as closed};
ghost use Rattle.plain_store.specs.Outcomes.{Answers, Does, IsSpelled};

use crate::parts::part_in;
use crate::plain::Plain;
use plain_sessions::{Held, Reader, Stop, blob_at};
use plain_snapshots::{File, file_named, snapshot_named};
use std::alloc::Global;
use store_types::{Digest32, FileName, Refusal};
use wire_commands::Reply;

impl Plain {
    /// The files of the reader's snapshot.
    fn reader_files(&self, r: &Reader) -> &[File]
        ensures { result.now ≡ reader_files self.now r.now }
    {
        match snapshot_named(r.key().as_key(), &self.snapshots) {
            Some(snapshot) => &snapshot.files,
            None => &[],
        }
    }

    /// OPEN_READER: the lane gets a reader of the snapshot.
    pub(crate) fn open_reader(
        &mut self,
        alloc: Global,
        lane: u32,
        snapshot: &[u8],
    ) -> Result<Reply, Stop>
        requires { lane < 64 }
        ensures does { Does self.old self.new result (opened self.old lane snapshot.now) }
        ensures spelled { IsSpelled result }
    {
        let key = self.idle_key(alloc, lane, snapshot)?;
        if snapshot_named(key.as_key(), &self.snapshots).is_none() {
            return Err(Stop::Refused(Refusal::NoSnapshot));
        }
        let r = Reader::new(alloc, key);
        self.set_held(lane, Held::Reading(r));
        Ok(Reply::Done)
    }

    /// DOWNLOAD: a part of a file of the reader's snapshot.
    pub(crate) fn download(
        &mut self,
        alloc: Global,
        lane: u32,
        name: &[u8],
        offset: u64,
    ) -> Result<Reply, Stop>
        requires { lane < 64 }
        ensures does { Does self.old self.new result (downloaded self.old lane name.now offset) }
        ensures spelled { IsSpelled result }
    {
        let r = self.want_reader(lane)?;
        let Ok(name) = FileName::check(alloc, name)? else {
            return Err(Stop::Refused(Refusal::BadName));
        };
        let (file, part) = part_in(alloc, self.reader_files(r), &name, offset)?;
        let after = r.note(name, &file.content)?;
        self.set_held(lane, Held::Reading(after));
        Ok(part)
    }

    /// GET_CHUNK: the blob of a piece of an archive that the reader downloaded.
    pub(crate) fn get_chunk(
        &self,
        alloc: Global,
        lane: u32,
        digest: &Digest32,
    ) -> Result<Reply, Stop>
        requires { lane < 64 }
        ensures does { Answers self.now result (chunk_given self.now lane digest.now) }
        ensures spelled { IsSpelled result }
    {
        let r = self.want_reader(lane)?;
        let blob = r.chunk(alloc, self.reader_files(r), digest)?;
        Ok(Reply::Data(blob))
    }

    /// RANGE: bytes of an archive that the reader downloaded.
    pub(crate) fn range(
        &self,
        alloc: Global,
        lane: u32,
        name: &[u8],
        offset: u64,
        length: u32,
    ) -> Result<Reply, Stop>
        requires { lane < 64 }
        ensures does { Answers self.now result (range_given self.now lane name.now offset length) }
        ensures spelled { IsSpelled result }
    {
        let r = self.want_reader(lane)?;
        let Ok(name) = FileName::check(alloc, name)? else {
            return Err(Stop::Refused(Refusal::BadName));
        };
        if !name.is_index() {
            return Err(Stop::Refused(Refusal::BadName));
        }
        let files = self.reader_files(r);
        if file_named(name.as_slice(), files).is_none() {
            return Err(Stop::Refused(Refusal::NoFile));
        }
        let bytes = r.range(alloc, files, &name, offset, length)?;
        Ok(Reply::Data(bytes))
    }

    /// VERIFY's read of a part of a file, which notes nothing.
    pub(crate) fn read_file(
        &self,
        alloc: Global,
        lane: u32,
        name: &FileName,
        offset: u64,
    ) -> Result<Reply, Stop>
        requires { lane < 64 }
        ensures does { Answers self.now result (file_read self.now lane name.now offset) }
        ensures spelled { IsSpelled result }
    {
        let r = self.want_reader(lane)?;
        let _ = name.as_slice();
        let read = part_in(alloc, self.reader_files(r), name, offset)?;
        Ok(read.1)
    }

    /// VERIFY's read of the piece at an entry of an index: its blob.
    pub(crate) fn read_chunk(
        &self,
        alloc: Global,
        lane: u32,
        name: &FileName,
        entry: u32,
    ) -> Result<Reply, Stop>
        requires { lane < 64 }
        ensures does { Answers self.now result (chunk_read self.now lane name.now entry) }
        ensures spelled { IsSpelled result }
    {
        let r = self.want_reader(lane)?;
        if !name.is_index() {
            return Err(Stop::Refused(Refusal::NoFile));
        }
        let Some(file) = file_named(name.as_slice(), self.reader_files(r)) else {
            return Err(Stop::Refused(Refusal::NoFile));
        };
        let blob = blob_at(alloc, file.content.pieces(), entry)?;
        Ok(Reply::Data(blob))
    }

    /// CLOSE_READER: the reader ends.
    pub(crate) fn close_reader(&mut self, lane: u32) -> Result<Reply, Stop>
        requires { lane < 64 }
        ensures does { Does self.old self.new result (closed self.old lane) }
        ensures spelled { IsSpelled result }
    {
        self.want_reader(lane)?;
        self.end(lane);
        Ok(Reply::Done)
    }
}
