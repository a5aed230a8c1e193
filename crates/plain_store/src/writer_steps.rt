//! The commands of a writer.

ghost use Rattle.std.specs.Prelude.{◌≡◌, ◌<◌, length, option_map, IfOk, IfErr};
ghost use Rattle.store_model.specs.WriterSteps.{base_text as text_of_base, want_newer as needs_newer, open_writer as opened, base_of as base_named, previous as looked_back, put_blob as put, finish as finished, abort as aborted};
ghost use Rattle.plain_sessions.specs.Outcomes.{Tells};
ghost use Rattle.plain_store.specs.Outcomes.{Does, IsSpelled};
ghost use Rattle.wire_commands.specs.HasText.{FitsRefusal};
ghost use Rattle.plain_store.specs.Writers.{base_of as tested_base, want_room_in};

use crate::parts::part_in;
use crate::plain::Plain;
use plain_sessions::{Change, Held, Stop, Writer, want_free};
use plain_snapshots::{PlainKey, Snapshot, count_in, insert_snapshot, latest_in, snapshot_named};
use std::alloc::{AllocError, Global};
use store_types::{Bytes, FileName, Refusal, SnapshotKey};
use wire_commands::Reply;

/// The snapshot is later than the latest of its group.
fn want_newer(key: &SnapshotKey, latest: Option<&PlainKey>) -> Result<(), Refusal>
    ensures fits { IfErr result FitsRefusal }
    ensures test { result ≡ needs_newer key.now.time (option_map (λ l. l.now) latest.entry) }
{
    let Some(latest) = latest else {
        return Ok(());
    };
    let latest = latest.as_key().time;
    if latest < key.time {
        Ok(())
    } else {
        Err(Refusal::NotNewer { latest })
    }
}

/// The snapshot's group has room for one more.
fn want_group_room(key: &SnapshotKey, snapshots: &[Snapshot]) -> Result<(), Refusal>
    ensures fits { IfErr result FitsRefusal }
    ensures test { result ≡ want_room_in key.now snapshots.now }
{
    if count_in(key, snapshots) < 4096 {
        Ok(())
    } else {
        Err(Refusal::TooMany { limit: 4096 })
    }
}

/// The base's text, empty where there is none.
fn base_text(alloc: Global, base: Option<&PlainKey>) -> Result<Bytes, AllocError>
    ensures text { IfOk result (λ text. text ≡ text_of_base (option_map (λ k. k.now) base.entry)) }
    ensures short { IfOk result (λ text. length text < 256) }
{
    match base {
        None => Ok(Bytes::new(alloc)),
        Some(key) => key.text(alloc),
    }
}

fn copied(base: Option<&PlainKey>) -> Result<Option<PlainKey>, AllocError>
    ensures { IfOk result (λ copy. copy ≡ option_map (λ k. k.now) base.entry) }
{
    match base {
        None => Ok(None),
        Some(key) => Ok(Some(key.clone()?)),
    }
}

impl Plain {
    /// The latest snapshot of the group, where a writer of the snapshot may begin.
    fn base_of(&self, key: &SnapshotKey) -> Result<Option<&PlainKey>, Refusal>
        ensures fits { IfErr result FitsRefusal }
        ensures test { Tells result (tested_base self.now key.now) (option_map (λ k. k.now)) }
    {
        want_free(&self.sessions, key)?;
        let latest = latest_in(key, &self.snapshots);
        want_newer(key, latest)?;
        want_group_room(key, &self.snapshots)?;
        Ok(latest)
    }

    /// OPEN_WRITER: the lane gets a writer of the snapshot, and is told the text of the base, the
    /// group's latest snapshot.
    pub(crate) fn open_writer(
        &mut self,
        alloc: Global,
        lane: u32,
        moment: u64,
        snapshot: &[u8],
    ) -> Result<Reply, Stop>
        requires { lane < 64 }
        ensures does { Does self.old self.new result (opened self.old lane moment snapshot.now) }
        ensures spelled { IsSpelled result }
    {
        let key = self.idle_key(alloc, lane, snapshot)?;
        let base = self.base_of(key.as_key())?;
        let text = base_text(alloc, base)?;
        let base = copied(base)?;
        let w = Writer::new(alloc, key, moment, base);
        self.set_held(lane, Held::Writing(w));
        Ok(Reply::Base { snapshot: text })
    }

    /// The snapshot that is the writer's base, where it is still there.
    fn base_snapshot(&self, w: &Writer) -> Option<&Snapshot>
        ensures { option_map (λ x. x.now) result ≡ base_named self.now w.now }
    {
        let key = w.base()?;
        snapshot_named(key.as_key(), &self.snapshots)
    }

    /// PREVIOUS: a part of a file of the base. The file's pieces come to the pool of the lane's writer.
    pub(crate) fn previous(
        &mut self,
        alloc: Global,
        lane: u32,
        name: &[u8],
        offset: u64,
    ) -> Result<Reply, Stop>
        requires { lane < 64 }
        ensures does { Does self.old self.new result (looked_back self.old lane name.now offset) }
        ensures spelled { IsSpelled result }
    {
        let w = self.want_writer(lane)?;
        let Ok(name) = FileName::check(alloc, name)? else {
            return Err(Stop::Refused(Refusal::BadName));
        };
        let Some(base) = self.base_snapshot(w) else {
            return Err(Stop::Refused(Refusal::NoSnapshot));
        };
        let (file, part) = part_in(alloc, &base.files, &name, offset)?;
        let pieces = file.content.pieces().to_vec(alloc)?;
        self.change(lane, Change::Pool(pieces))?;
        Ok(part)
    }

    /// BLOB: the lane's writer gets a file of the blob's data.
    pub(crate) fn put_blob(
        &mut self,
        alloc: Global,
        lane: u32,
        name: &[u8],
        blob: &[u8],
    ) -> Result<Reply, Stop>
        requires { lane < 64 }
        ensures does { Does self.old self.new result (put self.old lane name.now blob.now) }
        ensures spelled { IsSpelled result }
    {
        let w = self.want_writer(lane)?;
        let file = w.upload(alloc, name, blob)?;
        self.change(lane, Change::Upload(file))?;
        Ok(Reply::Done)
    }

    /// FINISH: the files of the lane's writer become a finished snapshot.
    pub(crate) fn finish(&mut self, alloc: Global, lane: u32) -> Result<Reply, Stop>
        requires { lane < 64 }
        ensures does { Does self.old self.new result (finished self.old lane) }
        ensures spelled { IsSpelled result }
    {
        let w = self.want_writer(lane)?;
        let snapshot = w.finished(alloc)?;
        insert_snapshot(&mut self.snapshots, snapshot)?;
        self.set_held(lane, Held::Nothing);
        Ok(Reply::Done)
    }

    /// ABORT: the writer ends without a snapshot.
    pub(crate) fn abort(&mut self, lane: u32) -> Result<Reply, Stop>
        requires { lane < 64 }
        ensures does { Does self.old self.new result (aborted self.old lane) }
        ensures spelled { IsSpelled result }
    {
        self.want_writer(lane)?;
        self.end(lane);
        Ok(Reply::Done)
    }
}
