//! What is told of snapshots and of their files.

ghost use Rattle.std.specs.Prelude.{◌≡◌, ◌≤◌, length, map, option_map, All, IfOk, IfSome};
ghost use Rattle.std.specs.List.{find};
ghost use Rattle.std.specs.Str.{bytes_eq};
ghost use Rattle.manifest.specs.Views.{fact_view};
ghost use Rattle.wire_commands.specs.HasText.{IsText, FitsListRow, FitsFileRow, ReplyHasText};
ghost use Rattle.wire_commands.specs.declared.reply.Reply.TheVariants as replies;
ghost use Rattle.store_model.specs.AdminSteps.{list_row as row_of, is_after as stands_after, facts_in as facts_of, file_rows as rows_of, group_texts as texts_of};
ghost use Rattle.plain_snapshots.specs.Rows.{rows_after, listing_after, row_of_sum, row_shown_of};

use crate::file::{File, manifest_data};
use crate::snapshot::Snapshot;
use manifest::FileFact;
use std::alloc::{AllocError, Global};
use store_types::{
    Bytes, Digest32, FileName, GROUP_LIMIT, GroupKey, LIST_LIMIT, Rows, SnapshotKey,
};
use wire_commands::{FileRow, ListRow, Reply};

/// A snapshot in a listing. It is whole.
fn list_row(alloc: Global, snapshot: &Snapshot) -> Result<ListRow, AllocError>
    ensures row { IfOk result (λ row. row ≡ row_of snapshot.now) }
    ensures fits { IfOk result FitsListRow }
{
    Ok(ListRow {
        snapshot: snapshot.key.text(alloc)?,
        damaged: false,
        files: snapshot.files.len() as u8,
    })
}

/// The snapshot comes after this one, where there is one.
fn comes_after(snapshot: &Snapshot, after: Option<&SnapshotKey>) -> bool
    ensures { result ≡ stands_after (option_map (λ key. key.now) after.entry) snapshot.now }
{
    match after {
        None => true,
        Some(key) => snapshot.is_after(key),
    }
}

fn list_rows(
    alloc: Global,
    snapshots: &[Snapshot],
    after: Option<&SnapshotKey>,
) -> Result<Vec<ListRow>, AllocError>
    ensures rows { IfOk result (λ rows. rows.items ≡ rows_after snapshots.now after.entry) }
    ensures fits { IfOk result (λ rows. All FitsListRow rows.items) }
{
    let mut rows = Vec::new(alloc);
    let later = snapshots
        .iter()
        .filter(|snapshot| comes_after(snapshot, after));
    for snapshot in later.take(LIST_LIMIT) {
        rows.push(list_row(alloc, snapshot)?)?;
    }
    Ok(rows)
}

/// The reply to LIST: the first 1,024 snapshots after one, or of all.
pub fn list_reply(
    alloc: Global,
    snapshots: &[Snapshot],
    after: Option<&SnapshotKey>,
) -> Result<Reply, AllocError>
    ensures reply { IfOk result (λ reply. reply ≡ listing_after snapshots.now after.entry) }
    ensures spelled { IfOk result ReplyHasText }
{
    let rows = list_rows(alloc, snapshots, after)?;
    Ok(Reply::Listing(Rows::from_vec(rows)))
}

/// What the manifest among the files lists.
pub fn facts_in(alloc: Global, files: &[File]) -> Result<Vec<FileFact>, AllocError>
    ensures { IfOk result (λ facts. map fact_view facts.items ≡ facts_of files.now) }
{
    let Some(contents) = manifest_data(files) else {
        return Ok(Vec::new(alloc));
    };
    match manifest::read(alloc, contents.as_slice())? {
        Ok(listed) => Ok(listed.files.into_vec()),
        Err(_) => Ok(Vec::new(alloc)),
    }
}

/// The text of a file's name.
fn name_text(alloc: Global, name: &FileName) -> Result<Bytes, AllocError>
    ensures text { IfOk result (λ text. text ≡ name.now) }
    ensures fits { IfOk result IsText }
{
    Bytes::from_slice(alloc, name.as_slice())
}

fn file_row(
    alloc: Global,
    name: &FileName,
    size: u64,
    csum: Digest32,
) -> Result<FileRow, AllocError>
    ensures row { IfOk result (λ row. row ≡ row_of_sum name.now size csum) }
    ensures fits { IfOk result FitsFileRow }
{
    let file = name_text(alloc, name)?;
    Ok(FileRow { file, size, csum })
}

/// What is listed of the file of this name.
fn fact_named<'a>(name: &FileName, facts: &'a [FileFact]) -> Option<&'a FileFact>
    ensures { option_map (λ f. f.now) result ≡ find (λ f. bytes_eq f.name name.now) facts.now }
{
    facts.iter().find(|fact| fact.name == *name)
}

/// A file as it is told: the manifest by its own size and checksum, another by those that the manifest lists.
fn row_shown(alloc: Global, facts: &[FileFact], file: &File) -> Result<Option<FileRow>, AllocError>
    ensures row { IfOk result (λ row. row ≡ row_shown_of facts.now file.now) }
    ensures fits { IfOk result (λ row. IfSome row FitsFileRow) }
{
    if file.name.is_manifest() {
        let fact = file.fact(alloc)?;
        let row = file_row(alloc, &fact.name, fact.size, fact.csum)?;
        return Ok(Some(row));
    }
    match fact_named(&file.name, facts) {
        Some(fact) => Ok(Some(file_row(alloc, &fact.name, fact.size, fact.csum)?)),
        None => Ok(None),
    }
}

fn file_rows(alloc: Global, files: &[File]) -> Result<Vec<FileRow>, AllocError>
    ensures rows { IfOk result (λ rows. rows.items ≡ rows_of files.now) }
    ensures count { IfOk result (λ rows. length rows.items ≤ length files.now) }
    ensures fits { IfOk result (λ rows. All FitsFileRow rows.items) }
{
    let facts = facts_in(alloc, files)?;
    let mut rows = Vec::new(alloc);
    for file in files {
        if let Some(row) = row_shown(alloc, &facts, file)? {
            rows.push(row)?;
        }
    }
    Ok(rows)
}

/// The reply to FILES: the snapshot's files in byte order.
pub fn files_reply(alloc: Global, snapshot: &Snapshot) -> Result<Reply, AllocError>
    ensures reply { IfOk result (λ reply. reply ≡ replies.Files (rows_of snapshot.now.files)) }
    ensures spelled { IfOk result ReplyHasText }
{
    let rows = file_rows(alloc, &snapshot.files)?;
    Ok(Reply::Files(Rows::from_vec(rows)))
}

fn group_texts(
    alloc: Global,
    group: &GroupKey,
    snapshots: &[Snapshot],
) -> Result<Vec<Bytes>, AllocError>
    ensures texts { IfOk result (λ texts. texts.items ≡ texts_of group.now snapshots.now) }
    ensures fits { IfOk result (λ texts. All IsText texts.items) }
{
    let mut texts = Vec::new(alloc);
    let members = snapshots
        .iter()
        .filter(|snapshot| snapshot.key.as_key().is_of(group));
    for snapshot in members.take(GROUP_LIMIT) {
        texts.push(snapshot.key.text(alloc)?)?;
    }
    Ok(texts)
}

/// The reply to GROUP: the oldest 4,096 snapshots of the group, the oldest first.
pub fn keys_reply(
    alloc: Global,
    group: &GroupKey,
    snapshots: &[Snapshot],
) -> Result<Reply, AllocError>
    ensures reply { IfOk result (λ reply. reply ≡ replies.Keys (texts_of group.now snapshots.now)) }
    ensures spelled { IfOk result ReplyHasText }
{
    let texts = group_texts(alloc, group, snapshots)?;
    Ok(Reply::Keys(Rows::from_vec(texts)))
}
