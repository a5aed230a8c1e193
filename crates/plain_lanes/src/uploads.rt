//! The commands by which a SYNC uploads a snapshot.

ghost use Rattle.std.specs.Prelude.{◌≡◌, ◌++◌, length, IfOk, OnOk};
ghost use Rattle.std.specs.FinMap.{empty};
ghost use Rattle.store_files.specs.Archive.{pieces_of};
ghost use Rattle.store_model.specs.SyncJob.{appends, entries_from, new_index, commands_of as commands_for};
ghost use Rattle.plain_snapshots.specs.Shown.{shown_layout};
ghost use Rattle.plain_lanes.specs.Uploading.{Pushes, chunk_of, chunks_of, one_chunk, close_of, sent_after, sent_with, archive_by, file_by, uploads_by, named_in, listed_in, manifest_text_in};

use known_chunks::Known;
use plain_snapshots::{Archive, BlobData, Content, File, Layout, Snapshot, facts_in, file_named};
use std::alloc::{AllocError, Global};
use std::collections::VecDeque;
use store_types::{AppendEntry, Bytes, Rows};
use wire_commands::Command;

// ---- an archive

/// The beginning of an index.
fn begins(alloc: Global, layout: Layout, name: &[u8]) -> Result<Command, AllocError>
    ensures { IfOk result (λ command. command ≡ new_index (shown_layout layout) name.now) }
{
    let file = Bytes::from_slice(alloc, name)?;
    match layout {
        Layout::Dynamic => Ok(Command::NewDynamic { file }),
        Layout::Fixed { size, chunk_size } => Ok(Command::NewFixed {
            file,
            size,
            chunk_size,
        }),
    }
}

/// The upload of a piece.
fn chunk(alloc: Global, piece: &BlobData) -> Result<Command, AllocError>
    ensures { IfOk result (λ command. command ≡ chunk_of piece.now) }
{
    Ok(Command::Chunk {
        digest: piece.digest(),
        blob: Bytes::from_vec(piece.text(alloc)?),
    })
}

/// The upload of a piece, unless its digest is sent.
fn push_chunk(
    alloc: Global,
    commands: &mut Vec<Command>,
    sent: &mut Known,
    piece: &BlobData,
) -> Result<(), AllocError>
    ensures pushes { Pushes commands.old commands.new (one_chunk sent.old piece.now) result }
    ensures sent { OnOk result (sent.new ≡ sent_with piece.now sent.old) }
{
    let digest = piece.digest();
    if sent.find(&digest).is_some() {
        return Ok(());
    }
    commands.push(chunk(alloc, piece)?)?;
    sent.add(&digest, 0)?;
    Ok(())
}

/// The uploads of the pieces whose digests are not sent, each at its first use.
fn push_chunks(
    alloc: Global,
    commands: &mut Vec<Command>,
    sent: &mut Known,
    pieces: &[BlobData],
) -> Result<(), AllocError>
    ensures pushes { Pushes commands.old commands.new (chunks_of sent.old pieces.now) result }
    ensures sent { OnOk result (sent.new ≡ sent_after pieces.now sent.old) }
{
    for piece in pieces {
        push_chunk(alloc, commands, sent, piece)?;
    }
    Ok(())
}

/// The entries of the pieces: each begins where the one before it ends. More than a `u64` counts no memory holds.
fn entries_of(alloc: Global, pieces: &[BlobData]) -> Result<Vec<AppendEntry>, AllocError>
    ensures { IfOk result (λ entries. entries.items ≡ entries_from 0 pieces.now) }
{
    let mut entries = Vec::new(alloc);
    let mut offset = 0u64;
    for piece in pieces {
        entries.push(AppendEntry {
            digest: piece.digest(),
            offset,
        })?;
        let size = piece.as_slice().len() as u64;
        offset = offset.checked_add(size).ok_or(AllocError)?;
    }
    Ok(entries)
}

/// The APPENDs of the entries.
fn push_appends(
    alloc: Global,
    commands: &mut Vec<Command>,
    entries: &[AppendEntry],
) -> Result<(), AllocError>
    ensures { Pushes commands.old commands.new (appends (length entries.now) entries.now) result }
{
    let mut left = entries;
    while !left.is_empty() {
        let (part, later) = left.split_at(left.len().min(4096));
        commands.push(Command::Append {
            number: 0,
            entries: Rows::from_vec(Vec::from_slice(alloc, part)?),
        })?;
        left = later;
    }
    Ok(())
}

/// The end of an index.
fn closes(alloc: Global, archive: &Archive) -> Result<Command, AllocError>
    ensures { IfOk result (λ command. command ≡ close_of archive.now) }
{
    Ok(Command::CloseIndex {
        number: 0,
        count: archive.pieces.len() as u64,
        size: archive.size()?,
        csum: archive.csum(alloc)?,
    })
}

fn push_archive(
    alloc: Global,
    commands: &mut Vec<Command>,
    sent: &mut Known,
    name: &[u8],
    archive: &Archive,
) -> Result<(), AllocError>
    ensures pushes { Pushes commands.old commands.new
        (archive_by sent.old name.now archive.now) result }
    ensures sent { OnOk result (sent.new ≡ sent_after archive.now.pieces sent.old) }
{
    commands.push(begins(alloc, archive.layout, name)?)?;
    push_chunks(alloc, commands, sent, &archive.pieces)?;
    let entries = entries_of(alloc, &archive.pieces)?;
    push_appends(alloc, commands, &entries)?;
    commands.push(closes(alloc, archive)?)?;
    Ok(())
}

// ---- files

fn push_file(
    alloc: Global,
    commands: &mut Vec<Command>,
    sent: &mut Known,
    file: &File,
) -> Result<(), AllocError>
    ensures pushes { Pushes commands.old commands.new (file_by sent.old file.now) result }
    ensures sent { OnOk result (sent.new ≡ sent_after (pieces_of file.now.content) sent.old) }
{
    let name = file.name.as_slice();
    match &file.content {
        Content::Archive(archive) => {
            push_archive(alloc, commands, sent, name, archive)?;
            Ok(())
        }
        Content::Blob(contents) => {
            commands.push(Command::Blob {
                file: Bytes::from_slice(alloc, name)?,
                blob: Bytes::from_vec(contents.text(alloc)?),
            })?;
            Ok(())
        }
    }
}

/// One more listed file, where there is one of this name.
fn push_named(listed: &mut Vec<File>, name: &[u8], files: &[File]) -> Result<(), AllocError>
    ensures { OnOk result (listed.new.items ≡ listed.old.items ++ named_in name.now files.now) }
{
    let Some(file) = file_named(name, files) else {
        return Ok(());
    };
    listed.push(file.clone()?)?;
    Ok(())
}

/// The files that the manifest among these lists, in its order.
fn listed_files(alloc: Global, files: &[File]) -> Result<Vec<File>, AllocError>
    ensures { IfOk result (λ listed. listed.items ≡ listed_in files.now) }
{
    let facts = facts_in(alloc, files)?;
    let mut listed = Vec::new(alloc);
    for fact in &facts {
        push_named(&mut listed, fact.name.as_slice(), files)?;
    }
    Ok(listed)
}

fn uploads(alloc: Global, files: &[File]) -> Result<Vec<Command>, AllocError>
    ensures { IfOk result (λ commands. commands.items ≡ uploads_by empty files.now) }
{
    let mut commands = Vec::new(alloc);
    let mut sent = Known::new(alloc);
    for file in files {
        push_file(alloc, &mut commands, &mut sent, file)?;
    }
    Ok(commands)
}

/// The text of the manifest among the files, or nothing.
fn manifest_text(alloc: Global, files: &[File]) -> Result<Vec<u8>, AllocError>
    ensures { IfOk result (λ text. text.items ≡ manifest_text_in files.now) }
{
    match file_named(b"index.json.blob", files) {
        Some(file) => Ok(file.content.text(alloc)?),
        None => Ok(Vec::new(alloc)),
    }
}

/// Behind OPEN_WRITER: the files, then the manifest and FINISH.
pub fn commands_of(alloc: Global, snapshot: &Snapshot) -> Result<VecDeque<Command>, AllocError>
    ensures { IfOk result (λ commands. commands.items ≡ commands_for snapshot.now) }
{
    let files = listed_files(alloc, &snapshot.files)?;
    let mut commands = uploads(alloc, &files)?;
    commands.push(Command::Blob {
        file: Bytes::from_slice(alloc, b"index.json.blob")?,
        blob: Bytes::from_vec(manifest_text(alloc, &snapshot.files)?),
    })?;
    commands.push(Command::Finish)?;
    Ok(VecDeque::from_vec(commands))
}
