//! What a CLOSE_INDEX tests, and the file that comes of it.

ghost use Rattle.std.specs.Prelude.{◌≡◌, IsTrue, IfErr, OnOk};
ghost use Rattle.std.specs.List.{list_any};
ghost use Rattle.wire_commands.specs.HasText.{FitsRefusal};
ghost use Rattle.store_model.specs.Archives.{want_size as size_reached};
ghost use Rattle.store_model.specs.WriterCalls.{has_number};
ghost use Rattle.plain_snapshots.specs.Shown.{shown_layout};
ghost use Rattle.store_types.specs.declared.refusal.Refusal.TheVariants.{BadClose};
ghost use Rattle.plain_sessions.specs.declared.stop.Stop.TheVariants.{Refused};
ghost use Rattle.plain_sessions.specs.Outcomes.{GivesSame, IsFitRefusal};
ghost use Rattle.plain_sessions.specs.Archiving.{closed_of, want_facts_of};

use crate::stop::Stop;
use crate::writer::Writer;
use plain_snapshots::{Archive, Content, File, Layout, end_of};
use std::alloc::Global;
use store_types::{CloseFault, Digest32, Refusal};

fn bad_close(fault: CloseFault) -> Stop
    ensures { result ≡ Refused (BadClose fault) }
{
    Stop::Refused(Refusal::BadClose(fault))
}

/// A fixed archive's size is reached.
fn want_size(layout: Layout, end: u64) -> Result<(), Refusal>
    ensures fits { IfErr result FitsRefusal }
    ensures test { result ≡ size_reached (shown_layout layout) end }
{
    match layout {
        Layout::Dynamic => Ok(()),
        Layout::Fixed { size, .. } => {
            if size <= end {
                Ok(())
            } else {
                Err(Refusal::BadClose(CloseFault::Rest(size)))
            }
        }
    }
}

/// The archive has so many pieces, they end there, its index has this checksum, and its size is reached.
fn want_facts(
    alloc: Global,
    archive: &Archive,
    count: u64,
    size: u64,
    csum: &Digest32,
) -> Result<(), Stop>
    ensures fits { IsFitRefusal result }
    ensures gives { GivesSame result (want_facts_of archive.now count size csum.now) }
{
    let pieces = archive.pieces.len() as u64;
    if count != pieces {
        return Err(bad_close(CloseFault::Count(pieces)));
    }
    let end = end_of(&archive.pieces)?;
    if size != end {
        return Err(bad_close(CloseFault::Size(end)));
    }
    let found = archive.csum(alloc)?;
    if *csum != found {
        return Err(bad_close(CloseFault::Csum(found)));
    }
    want_size(archive.layout, end)?;
    Ok(())
}

impl Writer {
    /// The file that a CLOSE_INDEX makes of the archive of a number.
    pub fn closed(
        &self,
        alloc: Global,
        number: u8,
        count: u64,
        size: u64,
        csum: &Digest32,
    ) -> Result<File, Stop>
        ensures fits { IsFitRefusal result }
        ensures gives { GivesSame result (closed_of self.now number count size csum.now) }
        ensures stands { OnOk result (IsTrue (list_any (has_number number) self.now.begun)) }
    {
        let Some(begun) = self.begun.at(number) else {
            return Err(Stop::Refused(Refusal::NoFile));
        };
        want_facts(alloc, &begun.archive, count, size, csum)?;
        Ok(File {
            name: begun.name.clone()?,
            content: Content::Archive(begun.archive.clone()?),
        })
    }
}
