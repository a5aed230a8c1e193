//! The room for a page.

ghost use Rattle.std.specs.Prelude.{◌≡◌, ◌<◌, ◌≤◌, [], length, take, IfOk, IsErrOf, OnErr, OnOk};
ghost use Rattle.disk_trait.specs.Disk.{TicksOnce};
ghost use Rattle.disk_trait.specs.Effects.{OnlyReads};
ghost use Rattle.index_pages.specs.declared.fault.PageFault.TheVariants.{Failed as ReadFailed, NoMemory as NoRoom};
ghost use Rattle.index_pages.specs.Gives.{IsTold, ReadsPart};

use crate::{PAGE_LIMIT, PageFault};
use disk_trait::Disk;
use std::alloc::{AllocError, Global};
use std::marker::Model;

/// The bytes of a page, as contracts see it. Its room is taken once, for pages of any index.
#[derive(Drop)]
pub struct Page {
    room: Vec<u8>,
    len: usize,
}

impl Model for Page {
    ghost use Rattle.std.specs.Prelude.{ℕ, ◌≡◌, ◌≤◌, List, length, take};

    ghost Value = { List ℕ };

    ghost view = { λ p. take p.len p.room.items };

    ghost invariant = { λ p. (length p.room.items ≡ 40_960) × (p.len ≤ 40_960) };
}

impl Page {
    /// Room for a page, and none is in it.
    pub fn new(alloc: Global) -> Result<Page, AllocError>
        ensures { IfOk result (λ page. page ≡ []) }
    {
        let mut room = Vec::with_capacity(alloc, PAGE_LIMIT)?;
        room.resize(PAGE_LIMIT, 0)?;
        Ok(Page { room, len: 0 })
    }

    /// The page's bytes.
    pub fn as_slice(&self) -> &[u8]
        ensures value { result.now ≡ self.now }
        ensures limit { length result.now ≤ 40_960 }
    {
        &self.room[..self.len]
    }

    /// Takes the page's bytes out.
    pub(crate) fn clear(&mut self)
        ensures { self.new ≡ [] }
    {
        self.len = 0;
    }

    /// Reads so many bytes of a file from an offset. Where there are fewer, that is the fault that is handed in. It takes
    /// no memory.
    pub(crate) fn fill<D: Disk>(
        &mut self,
        disk: &mut D,
        name: &str,
        offset: u64,
        len: usize,
        fewer: PageFault,
    ) -> Result<(), PageFault>
        requires len { len ≤ 40_960 }
        requires told { IsTold fewer }
        ensures reads { OnlyReads D.Disk disk.old disk.new (IsErrOf result ReadFailed) }
        ensures calls { TicksOnce D.honest D.calls disk.old disk.new }
        ensures exact { ReadsPart D.Disk disk.old name.now offset len fewer self.new result }
        // on any disk
        ensures len { OnOk result (length self.new ≡ len) }
        ensures err { OnErr result (self.new ≡ []) }
        ensures memory { IsErrOf result NoRoom → ⊥ }
    {
        self.len = 0;
        fill_front(disk, name, offset, &mut self.room, len, fewer)?;
        self.len = len;
        Ok(())
    }
}

/// Reads bytes of a file from an offset, as many as there is room for. Where there are fewer, that is the fault that is
/// handed in.
fn fill_room<D: Disk>(
    disk: &mut D,
    name: &str,
    offset: u64,
    room: &mut [u8],
    fewer: PageFault,
) -> Result<(), PageFault>
    requires { IsTold fewer }
    ensures reads { OnlyReads D.Disk disk.old disk.new (IsErrOf result ReadFailed) }
    ensures calls { TicksOnce D.honest D.calls disk.old disk.new }
    ensures exact { ReadsPart D.Disk disk.old name.now offset
        (length room.old) fewer room.new result }
    ensures memory { IsErrOf result NoRoom → ⊥ }
{
    let Some(count) = disk.read_part(name, offset, room)? else {
        return Err(PageFault::Missing);
    };
    if count != room.len() {
        return Err(fewer);
    }
    Ok(())
}

/// The same with the front of the room, so many bytes.
fn fill_front<D: Disk>(
    disk: &mut D,
    name: &str,
    offset: u64,
    room: &mut [u8],
    len: usize,
    fewer: PageFault,
) -> Result<(), PageFault>
    requires len { len ≤ length room.old }
    requires told { IsTold fewer }
    ensures reads { OnlyReads D.Disk disk.old disk.new (IsErrOf result ReadFailed) }
    ensures calls { TicksOnce D.honest D.calls disk.old disk.new }
    ensures exact { ReadsPart D.Disk disk.old name.now offset len fewer (take len room.new) result }
    ensures memory { IsErrOf result NoRoom → ⊥ }
{
    fill_room(disk, name, offset, &mut room[..len], fewer)
}
