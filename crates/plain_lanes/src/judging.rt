//! What whole files and chunks say, beside what is listed of them.

ghost use Rattle.std.specs.Prelude.{◌≡◌, IfOk, IfSome};
ghost use Rattle.wire_commands.specs.HasText.{FitsFileFault};
ghost use Rattle.store_model.specs.VerifyJob as model;
ghost use Rattle.plain_lanes.specs.Visits.{shown_judged, blob_fault_of, fixed_pieces_of, dynamic_pieces_of, long_fault_of, GivesFault, GivesJudged, GivesPieces, HasPieces};

use crate::asked::file_name;
use blob_codec::decode;
use dynamic_index::DynamicView;
use fixed_index::FixedView;
use sha2::{Digest, Sha256};
use std::alloc::{AllocError, Global};
use std::collections::VecDeque;
use store_model::size_limit;
use store_types::{FileName, Piece};
use wire_commands::{FileFault, FileRow};

/// A file's fault, and of an index how many bytes its entries have together, and each of them.
#[derive(Drop)]
pub struct Judged {
    pub fault: Option<FileFault>,
    pub bytes: u64,
    pub entries: VecDeque<Piece>,
}

fn without_entries(alloc: Global, fault: Option<FileFault>) -> Judged
    ensures { shown_judged result ≡ model.without_entries fault }
{
    Judged {
        fault,
        bytes: 0,
        entries: VecDeque::from_vec(Vec::new(alloc)),
    }
}

/// The fault of a file that has another size or checksum than those that are listed.
fn compared(row: &FileRow, size: u64, csum: &[u8; 32]) -> Option<FileFault>
    ensures fault { result ≡ model.compared row.now size csum.now }
    ensures fits { IfSome result FitsFileFault }
{
    if row.size == size && row.csum.0 == *csum {
        None
    } else {
        Some(FileFault::Differs)
    }
}

/// The fault of a file of so many bytes, where it is longer than one of its kind may be.
pub fn long_fault(alloc: Global, row: &FileRow, total: u64) -> Result<Option<FileFault>, AllocError>
    ensures fault { GivesFault result (long_fault_of row.now total) }
    ensures fits { IfOk result (λ fault. IfSome fault FitsFileFault) }
{
    let name = file_name(alloc, row.file.as_slice())?;
    if total <= size_limit(&name) {
        return Ok(None);
    }
    if name.is_index() || row.size == total {
        return Ok(Some(FileFault::Unreadable));
    }
    Ok(Some(FileFault::Differs))
}

fn fixed_pieces(alloc: Global, view: &FixedView) -> Result<Vec<Piece>, AllocError>
    requires { HasPieces view.now }
    ensures { GivesPieces result (fixed_pieces_of view.now) }
{
    let mut pieces = Vec::new(alloc);
    for i in 0..view.len() {
        let (start, end) = view.span(i);
        pieces.push(Piece {
            digest: view.digest(i),
            length: (end - start) as u32,
        })?;
    }
    Ok(pieces)
}

fn dynamic_pieces(alloc: Global, view: &DynamicView) -> Result<Vec<Piece>, AllocError>
    ensures { GivesPieces result (dynamic_pieces_of view.now) }
{
    let mut pieces = Vec::new(alloc);
    for i in 0..view.len() {
        let (start, end) = view.span(i);
        pieces.push(Piece {
            digest: view.digest(i),
            length: (end - start) as u32,
        })?;
    }
    Ok(pieces)
}

#[tactic(auto, unfolding(store_model::specs::VerifyJob::fixed_judged))]
fn fixed_judged(alloc: Global, row: &FileRow, bytes: &[u8]) -> Result<Judged, AllocError>
    ensures judged { GivesJudged result (model.fixed_judged row.now bytes.now) }
    ensures fits { IfOk result (λ judged. IfSome judged.fault FitsFileFault) }
{
    let Ok(view) = FixedView::open_on(bytes) else {
        return Ok(without_entries(alloc, Some(FileFault::Unreadable)));
    };
    let pieces = fixed_pieces(alloc, &view)?;
    let total = view.size();
    Ok(Judged {
        fault: compared(row, total, &view.csum().0),
        bytes: total,
        entries: VecDeque::from_vec(pieces),
    })
}

#[tactic(auto, unfolding(store_model::specs::VerifyJob::dynamic_judged))]
fn dynamic_judged(alloc: Global, row: &FileRow, bytes: &[u8]) -> Result<Judged, AllocError>
    ensures judged { GivesJudged result (model.dynamic_judged row.now bytes.now) }
    ensures fits { IfOk result (λ judged. IfSome judged.fault FitsFileFault) }
{
    let Ok(view) = DynamicView::open_on(bytes) else {
        return Ok(without_entries(alloc, Some(FileFault::Unreadable)));
    };
    let pieces = dynamic_pieces(alloc, &view)?;
    let total = view.size();
    Ok(Judged {
        fault: compared(row, total, &view.csum().0),
        bytes: total,
        entries: VecDeque::from_vec(pieces),
    })
}

/// The contents are a manifest of the snapshot with this text.
fn manifest_fault(
    alloc: Global,
    snapshot: &[u8],
    contents: &[u8],
) -> Result<Option<FileFault>, AllocError>
    ensures fault { GivesFault result (model.manifest_fault snapshot.now contents.now) }
    ensures fits { IfOk result (λ fault. IfSome fault FitsFileFault) }
{
    let Ok(listed) = manifest::read(alloc, contents)? else {
        return Ok(Some(FileFault::Unreadable));
    };
    let text = listed.key.print(alloc)?;
    if text.as_bytes() == snapshot {
        Ok(None)
    } else {
        Ok(Some(FileFault::Differs))
    }
}

/// The fault of a blob of this name, by its data.
fn blob_fault(
    alloc: Global,
    snapshot: &[u8],
    name: &FileName,
    bytes: &[u8],
) -> Result<Option<FileFault>, AllocError>
    ensures fault { GivesFault result (model.blob_fault snapshot.now name.now bytes.now) }
    ensures fits { IfOk result (λ fault. IfSome fault FitsFileFault) }
{
    let Ok(contents) = decode(bytes) else {
        return Ok(Some(FileFault::Unreadable));
    };
    if name.is_manifest() {
        return manifest_fault(alloc, snapshot, contents);
    }
    Ok(None)
}

/// The fault of a blob of this name: that it differs from what is listed comes first.
fn listed_fault(
    alloc: Global,
    snapshot: &[u8],
    name: &FileName,
    row: &FileRow,
    bytes: &[u8],
) -> Result<Option<FileFault>, AllocError>
    ensures fault { GivesFault result (blob_fault_of snapshot.now name.now row.now bytes.now) }
    ensures fits { IfOk result (λ fault. IfSome fault FitsFileFault) }
{
    match compared(row, bytes.len() as u64, &Sha256::digest(bytes)) {
        Some(fault) => Ok(Some(fault)),
        None => blob_fault(alloc, snapshot, name, bytes),
    }
}

/// What a whole file says, of the snapshot with this text.
pub fn judge(
    alloc: Global,
    snapshot: &[u8],
    row: &FileRow,
    bytes: &[u8],
) -> Result<Judged, AllocError>
    ensures judged { GivesJudged result (model.judged snapshot.now row.now bytes.now) }
    ensures fits { IfOk result (λ judged. IfSome judged.fault FitsFileFault) }
{
    let name = file_name(alloc, row.file.as_slice())?;
    if name.is_fixed() {
        return fixed_judged(alloc, row, bytes);
    }
    if name.is_dynamic() {
        return dynamic_judged(alloc, row, bytes);
    }
    let fault = listed_fault(alloc, snapshot, &name, row, bytes)?;
    Ok(without_entries(alloc, fault))
}

/// It is the piece that the index names: of this length and with this digest. A piece is not empty.
fn is_piece(named: Piece, piece: &[u8]) -> bool
    ensures { result ≡ model.is_piece named piece.now }
{
    piece.len() as u64 == u64::from(named.length)
        && !piece.is_empty()
        && Sha256::digest(piece) == named.digest.0
}

/// The bytes are the blob of the piece that the index names, or the chunk is damaged.
pub fn chunk_fault(named: Piece, bytes: &[u8]) -> Option<FileFault>
    ensures fault { result ≡ model.chunk_fault named bytes.now }
    ensures fits { IfSome result FitsFileFault }
{
    let Ok(piece) = decode(bytes) else {
        return Some(FileFault::Damaged(named.digest));
    };
    if is_piece(named, piece) {
        None
    } else {
        Some(FileFault::Damaged(named.digest))
    }
}
