//! The reads of the remote.

ghost use Rattle.std.specs.Prelude.{◌≡◌, ◌≤◌, true, is_some, length, IfErr, IfOk, IsErrOf, IsSome, IsTrue};
ghost use Rattle.std.specs.List.{All};
ghost use Rattle.disk_trait.specs.Effects.{OnlyReads};
ghost use Rattle.store_types.specs.Names.{IsKey, group_of, key_of};
ghost use Rattle.store_history.specs.declared.act.Act.TheVariants.{RemoteChunk, RemoteFile, RemoteList};
ghost use Rattle.store_history.specs.Acts.{IsWellFormed, family_of};
ghost use Rattle.wire_commands.specs.HasText.{ReplyHasText};
ghost use Rattle.wire_commands.specs.declared.command.Command.TheVariants.{Sync};
ghost use Rattle.store_history.specs.RemoteDisk.{RemoteStays};
ghost use Rattle.store_history.specs.Replies.{gives_blob, gives_file, gives_keys, may_give};
ghost use Rattle.core_remote.specs.RemoteActs.{FailsBy, Gives, GivesRemote, HasName, IsShort, IsTested, IsUnread, texts_of as texts_by};

use chunk_store::{LoadFault, load};
use core_state::{Act, Family};
use disk_trait::{Disk, DiskError};
use snapshot_files::{keys_in_group, path_of, read_part};
use std::alloc::{AllocError, Global};
use store_stops::Stop;
use store_types::{Bytes, Digest32, FileName, GROUP_LIMIT, GroupKey, Refusal, Rows, SnapshotKey};
use wire_commands::{Command, Reply};

/// The texts of the first 4,096 of these snapshots.
fn texts_of(alloc: Global, keys: &[SnapshotKey]) -> Result<Rows<Bytes>, AllocError>
    requires { All IsKey keys.now }
    ensures value { IfOk result (λ texts. texts ≡ texts_by keys.now) }
    ensures few { IfOk result (λ texts. length texts ≤ 4096) }
    ensures short { IfOk result (λ texts. All IsShort texts) }
{
    let mut texts = Vec::new(alloc);
    for key in keys {
        if texts.len() == GROUP_LIMIT {
            return Ok(Rows::from_vec(texts));
        }
        let text = key.print(alloc)?;
        texts.push(Bytes::from_vec(text.into_bytes()))?;
    }
    Ok(Rows::from_vec(texts))
}

/// The group's snapshots on the remote, damaged ones among them, as GROUP tells them: the oldest first, 4,096 at most.
fn list<E: Disk>(remote: &mut E, alloc: Global, group: &[u8]) -> Result<Reply, DiskError>
    requires { IsSome (group_of group.now) }
    ensures reads { OnlyReads E.Disk remote.old remote.new (IsErrOf result DiskError.Failed) }
    ensures gives { Gives E.Disk remote.old (RemoteList (Sync group.now)) result }
    // on any remote
    ensures kind { IfOk result (λ reply. IsTrue (gives_keys reply)) }
    ensures text { IfOk result ReplyHasText }
{
    let Ok(group) = GroupKey::parse(alloc, group)? else {
        unreachable!();
    };
    let keys = keys_in_group(remote, alloc, &group)?;
    let texts = texts_of(alloc, &keys)?;
    Ok(Reply::Keys(texts))
}

/// A part of a file of the remote: what is left from an offset in bytes, and no more than 4,194,304 bytes.
///
/// It is refused where nothing is there, where the offset is beyond the file's size, and where the file gives fewer bytes
/// than its size says.
fn part<E: Disk>(
    remote: &mut E,
    alloc: Global,
    snapshot: &[u8],
    name: &FileName,
    offset: u64,
) -> Result<Reply, DiskError>
    requires { IsSome (key_of snapshot.now) }
    ensures reads { OnlyReads E.Disk remote.old remote.new (IsErrOf result DiskError.Failed) }
    ensures gives { Gives E.Disk remote.old (RemoteFile snapshot.now name.now offset) result }
    // on any remote
    ensures kind { IfOk result (λ reply. IsTrue (gives_file offset reply)) }
    ensures text { IfOk result ReplyHasText }
{
    let Ok(key) = SnapshotKey::parse(alloc, snapshot)? else {
        unreachable!();
    };
    let path = path_of(alloc, &key, name)?;
    match read_part(remote, alloc, path.as_str(), offset) {
        Ok(part) => Ok(Reply::Part {
            total: part.total,
            bytes: part.bytes,
        }),
        Err(Stop::Refused(refusal)) => Ok(Reply::Refused(refusal)),
        Err(Stop::NoMemory) => Err(DiskError::NoMemory),
        Err(Stop::DiskFailed) => Err(DiskError::Failed),
    }
}

/// The blob of the remote's chunk with this digest. It is refused as damaged where nothing is there, where the file is no
/// blob, and where its data are not a piece with this digest.
fn chunk<E: Disk>(remote: &mut E, alloc: Global, digest: &Digest32) -> Result<Reply, DiskError>
    ensures reads { OnlyReads E.Disk remote.old remote.new (IsErrOf result DiskError.Failed) }
    ensures gives { Gives E.Disk remote.old (RemoteChunk digest.now) result }
    // on any remote
    ensures kind { IfOk result (λ reply. IsTrue (gives_blob reply)) }
    ensures tested { IfOk result (IsTested (RemoteChunk digest.now)) }
    ensures text { IfOk result ReplyHasText }
{
    match load(remote, alloc, digest) {
        Ok(chunk) => Ok(Reply::Data(Bytes::from_vec(chunk.into_blob()))),
        Err(LoadFault::Damaged { digest, found }) => Ok(Reply::Refused(Refusal::Damaged {
            digest,
            fault: found,
        })),
        Err(LoadFault::NoMemory) => Err(DiskError::NoMemory),
        Err(LoadFault::Failed) => Err(DiskError::Failed),
    }
}

/// Reads what the act asks for.
fn read_disk<E: Disk>(remote: &mut E, alloc: Global, act: Act) -> Result<Reply, DiskError>
    requires kind { family_of act ≡ Family.Reaches }
    requires formed { IsWellFormed act }
    requires named { HasName act }
    ensures reads { OnlyReads E.Disk remote.old remote.new (IsErrOf result DiskError.Failed) }
    ensures gives { Gives E.Disk remote.old act result }
    // on any remote
    ensures kind { IfOk result (λ reply. IsTrue (may_give act reply)) }
    ensures tested { IfOk result (IsTested act) }
    ensures text { IfOk result ReplyHasText }
{
    match act {
        Act::RemoteList(Command::Sync { group }) => list(remote, alloc, group.as_slice()),
        Act::RemoteFile {
            snapshot,
            name,
            offset,
        } => part(remote, alloc, snapshot.as_slice(), &name, offset),
        Act::RemoteChunk { digest } => chunk(remote, alloc, &digest),
        _ => unreachable!(),
    }
}

/// Reads what the act asks for, of the remote that is there.
pub fn read<E: Disk>(remote: &mut Option<E>, alloc: Global, act: Act) -> Result<Reply, Stop>
    requires there { is_some remote.old ≡ true }
    requires kind { family_of act ≡ Family.Reaches }
    requires formed { IsWellFormed act }
    requires named { HasName act }
    ensures stays { RemoteStays E.Disk remote.old remote.new }
    ensures failed { FailsBy E.Disk remote.old remote.new result }
    ensures gives { GivesRemote E.Disk remote.old act result }
    // on any remote
    ensures kind { IfOk result (λ reply. IsTrue (may_give act reply)) }
    ensures tested { IfOk result (IsTested act) }
    ensures text { IfOk result ReplyHasText }
    ensures unrefused { IfErr result IsUnread }
{
    match remote {
        Some(disk) => Ok(read_disk(disk, alloc, act)?),
        None => unreachable!(),
    }
}
