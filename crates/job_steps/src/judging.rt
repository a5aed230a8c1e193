//! What whole files say, beside what is listed of them.

ghost use Rattle.std.specs.Prelude.{◌≡◌, IfOk};
ghost use Rattle.job_steps.specs.FaultRows.{IsFitFault};
ghost use Rattle.store_model.specs.VerifyJob as model;
ghost use Rattle.job_steps.specs.Visits.{GivesFault, GivesJudged, GivesPieces, HasPieces, blob_fault_of, dynamic_pieces_of, fixed_pieces_of, long_fault, shown_judged};

use crate::chunks::Judged;
use blob_codec::decode;
use dynamic_index::DynamicView;
use fixed_index::FixedView;
use sha2::{Digest, Sha256};
use std::alloc::{AllocError, Global};
use store_model::size_limit;
use store_types::{FileName, Piece};
use wire_commands::{FileFault, FileRow};

fn without_entries(alloc: Global, fault: Option<FileFault>) -> Judged
    requires { IsFitFault fault }
    ensures { shown_judged result ≡ model.without_entries fault }
{
    Judged {
        fault,
        bytes: 0,
        entries: Vec::new(alloc),
    }
}

/// The fault of a file that has another size or checksum than those that are listed.
fn compared(row: &FileRow, size: u64, csum: &[u8; 32]) -> Option<FileFault>
    ensures fault { result ≡ model.compared row.now size csum.now }
    ensures fits { IsFitFault result }
{
    if row.size == size && row.csum.0 == *csum {
        None
    } else {
        Some(FileFault::Differs)
    }
}

fn fixed_entries(alloc: Global, view: &FixedView) -> Result<Vec<Piece>, AllocError>
    requires { HasPieces view.now }
    ensures { GivesPieces (fixed_pieces_of view.now) result }
{
    let mut entries = Vec::with_capacity(alloc, view.len() as usize)?;
    for i in 0..view.len() {
        let (start, end) = view.span(i);
        entries.push_reserved(Piece {
            digest: view.digest(i),
            length: (end - start) as u32,
        });
    }
    Ok(entries)
}

fn dynamic_entries(alloc: Global, view: &DynamicView) -> Result<Vec<Piece>, AllocError>
    ensures { GivesPieces (dynamic_pieces_of view.now) result }
{
    let mut entries = Vec::with_capacity(alloc, view.len() as usize)?;
    for i in 0..view.len() {
        let (start, end) = view.span(i);
        entries.push_reserved(Piece {
            digest: view.digest(i),
            length: (end - start) as u32,
        });
    }
    Ok(entries)
}

#[tactic(auto, unfolding(store_model::specs::VerifyJob::fixed_judged))]
fn fixed_judged(alloc: Global, row: &FileRow, bytes: &[u8]) -> Result<Judged, AllocError>
    ensures { GivesJudged result (model.fixed_judged row.now bytes.now) }
{
    let Ok(view) = FixedView::open_on(bytes) else {
        return Ok(without_entries(alloc, Some(FileFault::Unreadable)));
    };
    let entries = fixed_entries(alloc, &view)?;
    let total = view.size();
    Ok(Judged {
        fault: compared(row, total, &view.csum().0),
        bytes: total,
        entries,
    })
}

#[tactic(auto, unfolding(store_model::specs::VerifyJob::dynamic_judged))]
fn dynamic_judged(alloc: Global, row: &FileRow, bytes: &[u8]) -> Result<Judged, AllocError>
    ensures { GivesJudged result (model.dynamic_judged row.now bytes.now) }
{
    let Ok(view) = DynamicView::open_on(bytes) else {
        return Ok(without_entries(alloc, Some(FileFault::Unreadable)));
    };
    let entries = dynamic_entries(alloc, &view)?;
    let total = view.size();
    Ok(Judged {
        fault: compared(row, total, &view.csum().0),
        bytes: total,
        entries,
    })
}

/// The contents are a manifest of the snapshot with this text.
fn manifest_fault(
    alloc: Global,
    snapshot: &[u8],
    contents: &[u8],
) -> Result<Option<FileFault>, AllocError>
    ensures fault { GivesFault result (model.manifest_fault snapshot.now contents.now) }
    ensures fits { IfOk result IsFitFault }
{
    let Ok(listed) = manifest::read(alloc, contents)? else {
        return Ok(Some(FileFault::Unreadable));
    };
    let text = listed.key.print(alloc)?;
    if text.as_bytes() == snapshot {
        Ok(None)
    } else {
        Ok(Some(FileFault::Differs))
    }
}

/// The fault of a blob of this name, by its data.
fn blob_fault(
    alloc: Global,
    snapshot: &[u8],
    name: &FileName,
    bytes: &[u8],
) -> Result<Option<FileFault>, AllocError>
    ensures fault { GivesFault result (model.blob_fault snapshot.now name.now bytes.now) }
    ensures fits { IfOk result IsFitFault }
{
    let Ok(contents) = decode(bytes) else {
        return Ok(Some(FileFault::Unreadable));
    };
    if name.is_manifest() {
        return manifest_fault(alloc, snapshot, contents);
    }
    Ok(None)
}

/// The fault of a blob of this name: that it differs from what is listed comes first.
fn listed_fault(
    alloc: Global,
    snapshot: &[u8],
    name: &FileName,
    row: &FileRow,
    bytes: &[u8],
) -> Result<Option<FileFault>, AllocError>
    ensures fault { GivesFault result (blob_fault_of snapshot.now name.now row.now bytes.now) }
    ensures fits { IfOk result IsFitFault }
{
    match compared(row, bytes.len() as u64, &Sha256::digest(bytes)) {
        Some(fault) => Ok(Some(fault)),
        None => blob_fault(alloc, snapshot, name, bytes),
    }
}

/// The name of a listed file. A text that is none is taken for want of memory: no reply to FILES lists it.
pub fn file_name(alloc: Global, text: &[u8]) -> Result<FileName, AllocError>
    ensures { IfOk result (λ name. name ≡ text.now) }
{
    match FileName::check(alloc, text)? {
        Ok(name) => Ok(name),
        Err(_) => Err(AllocError),
    }
}

/// The fault of a listed file of so many bytes that is longer than one of its kind may be: it is no index and no blob, and that a
/// blob has another size than is listed comes first.
pub fn too_long(alloc: Global, row: &FileRow, total: u64) -> Result<Option<FileFault>, AllocError>
    ensures fault { GivesFault result (long_fault row.now total) }
    ensures fits { IfOk result IsFitFault }
{
    let name = file_name(alloc, row.file.as_slice())?;
    if total <= size_limit(&name) {
        return Ok(None);
    }
    if name.is_index() || row.size == total {
        return Ok(Some(FileFault::Unreadable));
    }
    Ok(Some(FileFault::Differs))
}

/// What a whole file says, of the snapshot with this text.
pub fn judge(
    alloc: Global,
    snapshot: &[u8],
    row: &FileRow,
    bytes: &[u8],
) -> Result<Judged, AllocError>
    ensures { GivesJudged result (model.judged snapshot.now row.now bytes.now) }
{
    let name = file_name(alloc, row.file.as_slice())?;
    if name.is_fixed() {
        return fixed_judged(alloc, row, bytes);
    }
    if name.is_dynamic() {
        return dynamic_judged(alloc, row, bytes);
    }
    let fault = listed_fault(alloc, snapshot, &name, row, bytes)?;
    Ok(without_entries(alloc, fault))
}
