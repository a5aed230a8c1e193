//! The sessions.

ghost use Rattle.std.specs.Prelude.{◌≡◌, ◌<◌, ◌≤◌, ◌-◌, ◌∷◌, [], length, IfOk};
ghost use Rattle.std.specs.List.{flat_map};
ghost use Rattle.sha2.specs.Sha256.{sha256};
ghost use Rattle.blob_codec.specs.Blob.{FitsBlob};
ghost use Rattle.blob_codec.specs.Blob as blobs;
ghost use Rattle.store_files.specs.DynamicIndex.{entry_text};
ghost use Rattle.dynamic_index.specs.Pieces.{last_end};
ghost use Rattle.dynamic_index.specs.Writing.{ends_behind};
ghost use Rattle.wire_commands.specs.HasText.{HasText};
ghost use Rattle.generator.specs.Pieces.{piece as piece_of, piece_at};
ghost use Rattle.generator.specs.Archives.{AreLengths, entries_from, fact_of, facts};
ghost use Rattle.generator.specs.Sessions.{Puts, collections, previous, opening, chunk_of, chunk_at, chunks, append, manifest_sent, closing, backup, backups, upkeep, generated};

use crate::manifest::{group_of, manifest, snapshot_of};
use crate::pieces::{is_sent, piece, seed_of};
use blob_codec::encode;
use dynamic_index::DynamicWriter;
use sha2::{Digest, Sha256};
use std::alloc::{AllocError, Global};
use store_types::{AppendEntry, Bytes, Digest32, Keep, Piece, Rows};
use wire_commands::Command;

/// The pieces of an archive.
const PIECES: u32 = 64;

/// The snapshots of a session.
const SNAPSHOTS: u32 = 4;

/// No input has more bytes.
const INPUT_SIZE: usize = 524_288;

const ARCHIVE_NAME: &[u8; 9] = b"root.didx";

const MANIFEST_NAME: &[u8; 15] = b"index.json.blob";

/// Puts a command behind an input.
#[tactic(auto, unfolding(crate::specs::Sessions::input_of))]
fn put(alloc: Global, input: &mut Vec<u8>, command: Command) -> Result<(), AllocError>
    requires { HasText command }
    ensures { Puts input.old.items input.new.items (command ∷ []) result }
{
    let text = command.text(alloc);
    drop(command);
    let body = text?;
    input.extend_from_slice(&(body.len() as u32).to_le_bytes())?;
    input.extend_from_slice(&body)
}

fn blob_of(alloc: Global, bytes: &[u8]) -> Result<Bytes, AllocError>
    requires { FitsBlob bytes.now }
    ensures { IfOk result (λ text. text ≡ blobs.blob bytes.now) }
{
    let Ok(text) = encode(alloc, bytes)? else {
        unreachable!()
    };
    Ok(Bytes::from_vec(text))
}

/// Lane 0 collects four times.
fn put_collections(alloc: Global, input: &mut Vec<u8>) -> Result<(), AllocError>
    ensures { Puts input.old.items input.new.items collections result }
{
    put(alloc, input, Command::Gc)?;
    put(alloc, input, Command::Gc)?;
    put(alloc, input, Command::Gc)?;
    put(alloc, input, Command::Gc)?;
    put(alloc, input, Command::Bye)
}

/// Behind the first snapshot the pieces of the base may be named.
fn put_previous(alloc: Global, input: &mut Vec<u8>, j: u32) -> Result<(), AllocError>
    ensures { Puts input.old.items input.new.items (previous j) result }
{
    if j == 0 {
        return Ok(());
    }
    let file = Bytes::from_slice(alloc, ARCHIVE_NAME)?;
    put(alloc, input, Command::Previous { file, offset: 0 })
}

/// The writer is opened, and its archive begun.
fn put_opening(alloc: Global, input: &mut Vec<u8>, k: u32, j: u32) -> Result<(), AllocError>
    requires lane { k ≤ 63 }
    requires snapshot { j < 4 }
    ensures { Puts input.old.items input.new.items (opening k j) result }
{
    let snapshot = snapshot_of(alloc, k, j)?;
    put(alloc, input, Command::OpenWriter { snapshot })?;
    put_previous(alloc, input, j)?;
    let file = Bytes::from_slice(alloc, ARCHIVE_NAME)?;
    put(alloc, input, Command::NewDynamic { file })
}

/// Sends the piece of a seed, and gives its digest and its length.
fn put_chunk(alloc: Global, input: &mut Vec<u8>, seed: u64) -> Result<Piece, AllocError>
    ensures puts { Puts input.old.items input.new.items (chunk_of (piece_of seed) ∷ []) result }
    ensures fact { IfOk result (λ fact. fact ≡ fact_of (piece_of seed)) }
{
    let bytes = piece(alloc, seed)?;
    let digest = Digest32(Sha256::digest(bytes.as_slice()));
    let blob = blob_of(alloc, &bytes)?;
    put(alloc, input, Command::Chunk { digest, blob })?;
    let length = bytes.len() as u32;
    Ok(Piece { digest, length })
}

/// Sends piece `i`, if it isn't one that the snapshot before had, and gives its digest and its length, by those of that
/// snapshot's pieces.
fn put_piece(
    alloc: Global,
    input: &mut Vec<u8>,
    k: u32,
    j: u32,
    i: u32,
    before: &[Piece],
) -> Result<Piece, AllocError>
    requires lane { k ≤ 63 }
    requires snapshot { j < 4 }
    requires piece { i < 64 }
    requires before { 0 < j → before.now ≡ facts k (j - 1) }
    ensures puts { Puts input.old.items input.new.items (chunk_at k j i) result }
    ensures fact { IfOk result (λ fact. fact ≡ fact_of (piece_at k j i)) }
{
    if is_sent(j, i) {
        put_chunk(alloc, input, seed_of(k, j, i))
    } else {
        Ok(before[i as usize])
    }
}

/// Sends the pieces of a snapshot that the one before hadn't, and gives the digest and the length of each.
fn put_chunks(
    alloc: Global,
    input: &mut Vec<u8>,
    k: u32,
    j: u32,
    before: &[Piece],
) -> Result<Vec<Piece>, AllocError>
    requires lane { k ≤ 63 }
    requires snapshot { j < 4 }
    requires before { 0 < j → before.now ≡ facts k (j - 1) }
    ensures puts { Puts input.old.items input.new.items (chunks k j) result }
    ensures made { IfOk result (λ made. made.items ≡ facts k j) }
{
    let mut made = Vec::with_capacity(alloc, PIECES as usize)?;
    for i in 0..PIECES {
        made.push(put_piece(alloc, input, k, j, i, before)?)?;
    }
    Ok(made)
}

/// The entries of an APPEND of these pieces.
fn entries_of(alloc: Global, made: &[Piece]) -> Result<Vec<AppendEntry>, AllocError>
    requires { length made.now ≤ 64 }
    ensures { IfOk result (λ entries. entries.items ≡ entries_from 0 made.now) }
{
    let mut entries = Vec::with_capacity(alloc, made.len())?;
    let mut offset = 0;
    for fact in made {
        entries.push(AppendEntry {
            digest: fact.digest,
            offset,
        })?;
        offset += fact.length as u64;
    }
    Ok(entries)
}

/// The size of the archive of these pieces, and the checksum of its index.
fn index_of(alloc: Global, made: &[Piece]) -> Result<(u64, Digest32), AllocError>
    requires count { length made.now ≤ 64 }
    requires lengths { AreLengths made.now }
    ensures size { IfOk result (λ x. x.0 ≡ last_end 0 (ends_behind 0 made.now)) }
    ensures csum { IfOk result
        (λ x. (x.1).0 ≡ sha256 (flat_map entry_text (ends_behind 0 made.now))) }
{
    let mut index = DynamicWriter::new(alloc, [0; 16], 0);
    index.append_all(alloc, made)?;
    let (_, size, csum) = index.facts();
    Ok((size, csum))
}

/// The pieces become the archive's.
fn put_append(
    alloc: Global,
    input: &mut Vec<u8>,
    k: u32,
    j: u32,
    made: &[Piece],
) -> Result<(), AllocError>
    requires { made.now ≡ facts k j }
    ensures { Puts input.old.items input.new.items (append k j ∷ []) result }
{
    let entries = Rows::from_vec(entries_of(alloc, made)?);
    put(alloc, input, Command::Append { number: 0, entries })
}

/// The manifest lists the archive.
fn put_manifest(
    alloc: Global,
    input: &mut Vec<u8>,
    k: u32,
    j: u32,
    csum: &Digest32,
    size: u64,
) -> Result<(), AllocError>
    requires lane { k ≤ 63 }
    requires snapshot { j < 4 }
    ensures { Puts input.old.items input.new.items (manifest_sent k j csum.now size ∷ []) result }
{
    let text = manifest(alloc, k, j, csum, size)?;
    let blob = blob_of(alloc, &text)?;
    let file = Bytes::from_slice(alloc, MANIFEST_NAME)?;
    put(alloc, input, Command::Blob { file, blob })
}

/// The archive is completed, and the manifest sent.
fn put_closing(
    alloc: Global,
    input: &mut Vec<u8>,
    k: u32,
    j: u32,
    made: &[Piece],
) -> Result<(), AllocError>
    requires lane { k ≤ 63 }
    requires snapshot { j < 4 }
    requires made { made.now ≡ facts k j }
    ensures { Puts input.old.items input.new.items (closing k j) result }
{
    put_append(alloc, input, k, j, made)?;
    let (size, csum) = index_of(alloc, made)?;
    let number = 0;
    let count = PIECES as u64;
    let close = Command::CloseIndex {
        number,
        count,
        size,
        csum,
    };
    put(alloc, input, close)?;
    put_manifest(alloc, input, k, j, &csum, size)?;
    put(alloc, input, Command::Finish)
}

/// Sends a snapshot, and gives the digest and the length of each of its pieces, by those of the snapshot before.
fn put_backup(
    alloc: Global,
    input: &mut Vec<u8>,
    k: u32,
    j: u32,
    before: &[Piece],
) -> Result<Vec<Piece>, AllocError>
    requires lane { k ≤ 63 }
    requires snapshot { j < 4 }
    requires before { 0 < j → before.now ≡ facts k (j - 1) }
    ensures puts { Puts input.old.items input.new.items (backup k j) result }
    ensures made { IfOk result (λ made. made.items ≡ facts k j) }
{
    put_opening(alloc, input, k, j)?;
    let made = put_chunks(alloc, input, k, j, before)?;
    put_closing(alloc, input, k, j, &made)?;
    Ok(made)
}

/// Sends all snapshots of a lane.
fn put_backups(alloc: Global, input: &mut Vec<u8>, k: u32) -> Result<(), AllocError>
    requires { k ≤ 63 }
    ensures { Puts input.old.items input.new.items (backups k) result }
{
    let mut made = Vec::new(alloc);
    for j in 0..SNAPSHOTS {
        made = put_backup(alloc, input, k, j, &made)?;
    }
    Ok(())
}

/// The last snapshot is verified, the first forgotten, and the group pruned.
fn put_upkeep(alloc: Global, input: &mut Vec<u8>, k: u32) -> Result<(), AllocError>
    requires { k ≤ 63 }
    ensures { Puts input.old.items input.new.items (upkeep k) result }
{
    let snapshot = snapshot_of(alloc, k, 3)?;
    put(alloc, input, Command::Verify { snapshot })?;
    let snapshot = snapshot_of(alloc, k, 0)?;
    put(alloc, input, Command::Forget { snapshot })?;
    let group = group_of(alloc, k)?;
    let keep = Keep {
        last: 2,
        hourly: 0,
        daily: 0,
        weekly: 0,
        monthly: 0,
        yearly: 0,
    };
    let dry = false;
    put(alloc, input, Command::Prune { group, keep, dry })?;
    put(alloc, input, Command::Bye)
}

/// The input of lane `k`, of the lanes 0 to `n` with `n` from 1 to 63. It depends on `k` alone, and has at most 512 KiB.
pub fn generate(alloc: Global, n: u32, k: u32) -> Result<Vec<u8>, AllocError>
    requires some { 1 ≤ n }
    requires most { n ≤ 63 }
    requires lane { k ≤ n }
    ensures { IfOk result (λ input. input.items ≡ generated k) }
{
    let mut input = Vec::new(alloc);
    if k == 0 {
        put_collections(alloc, &mut input)?;
        return Ok(input);
    }
    input.reserve_exact(INPUT_SIZE)?;
    put_backups(alloc, &mut input, k)?;
    put_upkeep(alloc, &mut input, k)?;
    Ok(input)
}
