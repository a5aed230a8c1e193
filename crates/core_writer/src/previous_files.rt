//! PREVIOUS.

ghost use Rattle.std.specs.Prelude.{◌≡◌, ◌<◌, MatchResult, IfOk, IfErr, OnOk, OnErr, IsErrOf, IsTrue, Some};
ghost use Rattle.disk_trait.specs.Effects.{OnlyReads};
ghost use Rattle.wire_commands.specs.HasText.{ReplyHasText};
ghost use Rattle.wire_commands.specs.declared.command.Command.TheVariants.{Previous};
ghost use Rattle.wire_commands.specs.declared.reply.Reply.TheVariants.{Refused};
ghost use Rattle.snapshot_files.specs.Calls.{CallsForPart};
ghost use Rattle.core_state.specs.Calls.{ActCalls};
ghost use Rattle.snapshot_files.specs.Indexes.{lengths_from};
ghost use Rattle.snapshot_files.specs.Parts.{PartHasText, RefusesPart};
ghost use Rattle.snapshot_files.specs.Reads.{StopHasText};
ghost use Rattle.store_stops.specs.Stops.{IfRefused};
ghost use Rattle.core_state.specs.Commands.{PlainDoes, PlainLeaves};
ghost use Rattle.core_state.specs.Found.{lent_key};
ghost use Rattle.store_history.specs.Replies.{refuses_previous};
ghost use Rattle.core_state.specs.Unreadables.{ActUnreadable};
ghost use Rattle.core_writer.specs.Previous.{ArePieces, GivesPrevious, LendsPath, MayKnow, NotesPooled, as_map, asked_of_base, kept_by_whole, known_by_whole, whole_for, with_known};

use crate::names::file_name;
use core_state::{Catalogue, Indexes, Parts, Place, Session, path_named};
use disk_trait::Disk;
use known_chunks::Known;
use paged_indexes::{IndexEntry, IndexKind, TakesEntries};
use snapshot_files::{FilePart, FilePath, kind_of, read_index, read_part};
use std::alloc::{AllocError, Global};
use store_stops::Stop;
use store_types::{FileName, Refusal, SnapshotKey};
use wire_commands::Reply;

/// The pieces of an index as they are read: by their digests the lengths in bytes.
#[derive(Drop)]
struct Pieces {
    known: Known,
}

impl TakesEntries for Pieces {
    ghost taken = { λ p base entries. p.known ≡ as_map (lengths_from base entries) };

    fn take(&mut self, start: u64, entry: &IndexEntry) -> Result<(), AllocError> {
        self.known
            .add_new(&entry.digest, (entry.end - start) as u32)
    }
}

/// A part of a file of the base, and the pieces of an index.
#[derive(Drop)]
struct Given {
    part: FilePart,
    pieces: Known,
}

/// Where the base's file of that name stands.
#[tactic(auto, unfolding(crate::specs::Previous::base_file), using(core_state::proofs::Texts::no_snapshot_has_text, core_state::proofs::Texts::no_file_has_text))]
fn base_file<'a>(
    catalogue: &'a Catalogue,
    base: Option<&SnapshotKey>,
    name: &FileName,
) -> Result<&'a FilePath, Refusal>
    ensures text { IfErr result (λ refusal. ReplyHasText (Refused refusal)) }
    ensures kind { IfErr result (λ refusal. IsTrue (refuses_previous refusal)) }
    ensures value { LendsPath (lent_key base.entry) name.now catalogue.now.listed result }
{
    let key = base.ok_or(Refusal::NoSnapshot)?;
    let kept = catalogue.named(key).ok_or(Refusal::NoSnapshot)?;
    path_named(kept.files.as_slice(), name).ok_or(Refusal::NoFile)
}

/// A part of an index that is read whole, page by page, and its pieces.
fn read_whole<D: Disk>(
    disk: &mut D,
    alloc: Global,
    path: &FilePath,
    kind: IndexKind,
    offset: u64,
) -> Result<Given, Stop>
    ensures reads { OnlyReads D.Disk disk.old disk.new (IsErrOf result Stop.DiskFailed) }
    ensures calls { CallsForPart D.Disk disk.old disk.new path.now (Some kind) }
    ensures exact { GivesPrevious D.Disk disk.old path.now (Some kind) offset result }
    ensures kind { IfErr result (IfRefused (RefusesPart path.now)) }
    ensures text { MatchResult result (λ g. PartHasText g.part) StopHasText }
    ensures pieces { IfOk result (λ g. ArePieces g.pieces) }
{
    let mut pieces = Pieces {
        known: Known::new(alloc),
    };
    let index = read_index(disk, alloc, path.as_str(), kind, offset, &mut pieces)?;
    Ok(Given {
        part: index.part,
        pieces: pieces.known,
    })
}

/// Whether the file is read whole, as an index of which the writer may not name all pieces yet, and then of which kind.
fn whole_index(row: &Indexes, name: &FileName) -> Option<IndexKind>
    ensures { result ≡ whole_for row.now name.now }
{
    if row.is_pooled(name) {
        return None;
    }
    kind_of(name)
}

/// A part of a file, and its pieces where it is an index that is read whole.
fn read_file<D: Disk>(
    disk: &mut D,
    alloc: Global,
    path: &FilePath,
    whole: Option<IndexKind>,
    offset: u64,
) -> Result<Given, Stop>
    ensures reads { OnlyReads D.Disk disk.old disk.new (IsErrOf result Stop.DiskFailed) }
    ensures calls { CallsForPart D.Disk disk.old disk.new path.now whole }
    ensures exact { GivesPrevious D.Disk disk.old path.now whole offset result }
    ensures kind { IfErr result (IfRefused (RefusesPart path.now)) }
    ensures text { MatchResult result (λ g. PartHasText g.part) StopHasText }
    ensures pieces { IfOk result (λ g. ArePieces g.pieces) }
{
    if let Some(kind) = whole {
        return read_whole(disk, alloc, path, kind, offset);
    }
    let part = read_part(disk, alloc, path.as_str(), offset)?;
    Ok(Given {
        part,
        pieces: Known::new(alloc),
    })
}

/// The session's writer may name the pieces from now on. At want of memory the session is as before.
fn note(session: &mut Session, pieces: Known) -> Result<(), AllocError>
    requires writes { MayKnow session.old }
    requires pieces { ArePieces pieces }
    ensures ok { OnOk result (session.new ≡ with_known pieces session.old) }
    ensures err { OnErr result (session.new ≡ session.old) }
{
    match session {
        Session::Writer(w) => w.session.previous(pieces),
        _ => unreachable!(),
    }
}

/// Of an index that was read whole the session's writer may name all pieces from now on, and the lane keeps its name. Of a
/// file that was read in part nothing is noted. At want of memory the session and what the lane keeps are as before.
fn note_whole(
    session: &mut Session,
    row: &mut Indexes,
    alloc: Global,
    whole: Option<IndexKind>,
    name: FileName,
    pieces: Known,
) -> Result<(), AllocError>
    requires writes { MayKnow session.old }
    requires pieces { ArePieces pieces }
    ensures noted { OnOk result (session.new ≡ known_by_whole whole pieces session.old) }
    ensures kept { OnOk result (row.new ≡ kept_by_whole whole name row.old) }
    ensures unnoted { OnErr result (session.new ≡ session.old) }
    ensures unkept { OnErr result (row.new ≡ row.old) }
{
    if whole.is_none() {
        return Ok(());
    }
    let pooling = row.pooling(alloc, name)?;
    note(session, pieces)?;
    *row = pooling;
    Ok(())
}

/// A part of a file of the snapshot that the lane's writer has as base. It reads the disk, and writes nothing.
///
/// The part is what is left of the file's text from the offset, in bytes, and no more than 4,194,304 bytes. The writer
/// may name the pieces of an index from then on, whatever the offset: it is read whole once, and then in parts. The
/// refusals, in the order in which they are tested: the lane has no writer; the text is no file's name; the writer has no
/// base; the base has no such file; nothing stands where it was put; the offset is beyond its size; the file gives fewer
/// bytes than its size says, or is no index of its name's kind, where it is read whole. After a refusal, and at want of
/// memory, the writer may name what it might name before, and the lane keeps the names of indexes that it kept.
pub fn previous<D: Disk>(
    parts: &mut Parts<D>,
    alloc: Global,
    at: Place,
    name: &[u8],
    offset: u64,
) -> Result<Reply, Stop>
    requires { at.lane < 64 }
    ensures does { PlainDoes D.Disk parts.old parts.new at (Previous name.now offset) result }
    ensures leaves { PlainLeaves D.Disk parts.old parts.new at (Previous name.now offset) result }
    // no file is read that is not asked for, and none twice
    ensures calls { ActCalls D.Disk (asked_of_base name.now offset) parts.old parts.new at }
    // it is unreadable exactly where it is, as far as the disk tells
    ensures unreadable { ActUnreadable D.Disk (asked_of_base name.now offset) parts.old at result }
    // what the lane keeps of indexes then, and which pieces its writer may name
    ensures notes { NotesPooled D.Disk parts.old parts.new at.lane name.now offset result }
{
    parts.writer(at.lane)?;
    let name = file_name(alloc, name)?;
    let lane = at.lane as usize;
    let Session::Writer(w) = &parts.sessions[lane] else {
        unreachable!();
    };
    let path = base_file(&parts.catalogue, w.session.base(), &name)?;
    let whole = whole_index(&parts.indexes[lane], &name);
    let given = read_file(&mut parts.disk, alloc, path, whole, offset)?;
    let Given { part, pieces } = given;
    let session = &mut parts.sessions[lane];
    let row = &mut parts.indexes[lane];
    note_whole(session, row, alloc, whole, name, pieces)?;
    Ok(Reply::Part {
        total: part.total,
        bytes: part.bytes,
    })
}
