//! The front of an index's file.

ghost use Rattle.std.specs.Prelude.{◌≡◌, ◌+◌, ◌≤◌, IfOk, IsErrOf, slice_range};
ghost use Rattle.std.specs.FinMap.{get};
ghost use Rattle.std.specs.Int.{w64, from_le_bytes};
ghost use Rattle.std.specs.Str.{bytes_eq};
ghost use Rattle.disk_trait.specs.Effects.{OnlyReads};
ghost use Rattle.index_pages.specs.declared.fault.PageFault.TheVariants.{Failed as ReadFailed};
ghost use Rattle.index_pages.specs.Calls.{CallsAtMost, head_calls};
ghost use Rattle.index_pages.specs.Opening.{ReadsHead, count_told};
ghost use Rattle.index_pages.specs.Paged.{IsWidth};

use crate::{FRONT_SIZE, HEADER_SIZE, Page, PageFault};
use disk_trait::Disk;
use store_files::IndexFault;
use store_types::ENTRY_LIMIT;

/// The front of an index's file, and the file's size in bytes.
#[derive(Drop)]
pub struct Head {
    size: u64,
    front: [u8; 80],
}

impl Head {
    /// Whether this is the SHA-256 of the entries that the front has.
    pub fn has_csum(&self, csum: &[u8; 32]) -> bool
        ensures { result ≡ bytes_eq (slice_range self.now.front 32 64) csum.now }
    {
        &self.front[32..64] == csum.as_slice()
    }

    /// The number of eight bytes at a place of the front.
    pub fn number_at(&self, at: usize) -> u64
        requires { at + 8 ≤ 80 }
        ensures { result ≡ from_le_bytes w64 (slice_range self.now.front at (at + 8)) }
    {
        let mut word = [0; 8];
        word.copy_from_slice(&self.front[at..at + 8]);
        u64::from_le_bytes(word)
    }
}

/// The front of the file at the name. It is none of an index where the file is shorter than a header.
pub fn read_head<D: Disk>(disk: &mut D, name: &str, room: &mut Page) -> Result<Head, PageFault>
    ensures reads { OnlyReads D.Disk disk.old disk.new (IsErrOf result ReadFailed) }
    ensures calls { CallsAtMost D.Disk disk.old disk.new
        (head_calls (get (D.content disk.old) name.now)) }
    ensures exact { ReadsHead D.Disk disk.old name.now result }
    // on any disk
    ensures long { IfOk result (λ head. 4096 ≤ head.size) }
{
    let Some(size) = disk.size(name)? else {
        return Err(PageFault::Missing);
    };
    let short = PageFault::BadIndex {
        cause: IndexFault::Short,
    };
    if size < HEADER_SIZE {
        return Err(short);
    }
    room.fill(disk, name, 0, FRONT_SIZE, short)?;
    let mut front = [0; 80];
    front.copy_from_slice(room.as_slice());
    Ok(Head { size, front })
}

/// How many entries of this width the file has. It is no index where its magic number is another, where what follows the
/// header is not whole entries, or where they are more than an index has.
pub fn count_in(head: &Head, magic: &[u8], width: usize) -> Result<u32, PageFault>
    requires long { 4096 ≤ head.now.size }
    requires width { IsWidth width }
    ensures exact { result ≡ count_told magic.now width head.now }
    ensures limit { IfOk result (λ count. count ≤ 1_048_576) }
{
    if &head.front[..8] != magic {
        return Err(PageFault::BadIndex {
            cause: IndexFault::Magic,
        });
    }
    let rest = head.size - HEADER_SIZE;
    let width = width as u64;
    if rest % width != 0 {
        return Err(PageFault::BadIndex {
            cause: IndexFault::Length,
        });
    }
    if rest / width > ENTRY_LIMIT as u64 {
        return Err(PageFault::BadIndex {
            cause: IndexFault::Count,
        });
    }
    Ok((rest / width) as u32)
}
