//! Archives as a disk has them: their indexes, and the pieces that these name.

ghost use Rattle.std.specs.Prelude.{◌≡◌, ◌+◌, ◌≤◌, length, map, Ok, IfOk, slice_range};
ghost use Rattle.std.specs.Int.{w64, from_le_bytes};
ghost use Rattle.store_files.specs.FixedIndex.{fixed_of};
ghost use Rattle.store_files.specs.DynamicIndex.{dynamic_of};
ghost use Rattle.store_model.specs.Load.{piece_in as piece_of, empty_archive as archive_without, fixed_archive as fixed_of_index, dynamic_archive as dynamic_of_index};
ghost use Rattle.plain_snapshots.specs.Shown.{shown_layout};
ghost use Rattle.plain_snapshots.specs.Loading.{fixed_in as fixed_of_bytes, dynamic_in as dynamic_of_bytes, pieces_of_ends};

use crate::archive::{Archive, Layout};
use crate::blob::BlobData;
use crate::pieces::piece_in;
use crate::stored::Folder;
use dynamic_index::DynamicView;
use fixed_index::FixedView;
use std::alloc::{AllocError, Global};
use store_types::Bytes;

/// An archive without pieces.
fn empty_archive(alloc: Global, layout: Layout) -> Archive
    ensures { result ≡ archive_without (shown_layout layout) }
{
    Archive {
        layout,
        uuid: Bytes::new(alloc),
        ctime: 0,
        reserved: Bytes::new(alloc),
        pieces: Vec::new(alloc),
    }
}

fn u64_at(bytes: &[u8], at: usize) -> u64
    requires { at + 8 ≤ length bytes.now }
    ensures { result ≡ from_le_bytes w64 (slice_range bytes.now at (at + 8)) }
{
    let mut word = [0; 8];
    word.copy_from_slice(&bytes[at..at + 8]);
    u64::from_le_bytes(word)
}

/// The pieces that a fixed index names.
fn fixed_pieces(
    alloc: Global,
    files: &Folder,
    view: &FixedView,
) -> Result<Vec<BlobData>, AllocError>
    ensures { IfOk result (λ pieces. pieces.items ≡ map (piece_of files.now) view.now.digests) }
{
    let mut pieces = Vec::new(alloc);
    for i in 0..view.len() {
        let digest = view.digest(i).0;
        pieces.push(piece_in(alloc, files, &digest)?)?;
    }
    Ok(pieces)
}

/// The archive of a fixed index.
fn fixed_archive(
    alloc: Global,
    files: &Folder,
    bytes: &[u8],
    view: &FixedView,
) -> Result<Archive, AllocError>
    requires { fixed_of bytes.now ≡ Ok view.now }
    ensures { IfOk result (λ archive. archive ≡ fixed_of_index files.now view.now) }
{
    Ok(Archive {
        layout: Layout::Fixed {
            size: view.size(),
            chunk_size: view.chunk_size(),
        },
        uuid: Bytes::from_slice(alloc, &bytes[8..24])?,
        ctime: u64_at(bytes, 24).cast_signed(),
        reserved: Bytes::from_slice(alloc, &bytes[80..4096])?,
        pieces: fixed_pieces(alloc, files, view)?,
    })
}

/// The archive whose fixed index these bytes are. Bytes that are none count as one without pieces.
pub fn fixed_in(alloc: Global, files: &Folder, bytes: &[u8]) -> Result<Archive, AllocError>
    ensures { IfOk result (λ archive. archive ≡ fixed_of_bytes files.now bytes.now) }
{
    match FixedView::open_on(bytes) {
        Ok(view) => fixed_archive(alloc, files, bytes, &view),
        Err(_) => {
            let layout = Layout::Fixed {
                size: 0,
                chunk_size: 4096,
            };
            Ok(empty_archive(alloc, layout))
        }
    }
}

/// The pieces that a dynamic index names.
fn dynamic_pieces(
    alloc: Global,
    files: &Folder,
    view: &DynamicView,
) -> Result<Vec<BlobData>, AllocError>
    ensures { IfOk result (λ pieces. pieces.items ≡ pieces_of_ends files.now view.now.entries) }
{
    let mut pieces = Vec::new(alloc);
    for i in 0..view.len() {
        let digest = view.digest(i).0;
        pieces.push(piece_in(alloc, files, &digest)?)?;
    }
    Ok(pieces)
}

/// The archive of a dynamic index.
fn dynamic_archive(
    alloc: Global,
    files: &Folder,
    bytes: &[u8],
    view: &DynamicView,
) -> Result<Archive, AllocError>
    requires { dynamic_of bytes.now ≡ Ok view.now }
    ensures { IfOk result (λ archive. archive ≡ dynamic_of_index files.now view.now) }
{
    Ok(Archive {
        layout: Layout::Dynamic,
        uuid: Bytes::from_slice(alloc, &bytes[8..24])?,
        ctime: u64_at(bytes, 24).cast_signed(),
        reserved: Bytes::from_slice(alloc, &bytes[64..4096])?,
        pieces: dynamic_pieces(alloc, files, view)?,
    })
}

/// The archive whose dynamic index these bytes are. Bytes that are none count as one without pieces.
pub fn dynamic_in(alloc: Global, files: &Folder, bytes: &[u8]) -> Result<Archive, AllocError>
    ensures { IfOk result (λ archive. archive ≡ dynamic_of_bytes files.now bytes.now) }
{
    match DynamicView::open_on(bytes) {
        Ok(view) => dynamic_archive(alloc, files, bytes, &view),
        Err(_) => Ok(empty_archive(alloc, Layout::Dynamic)),
    }
}
