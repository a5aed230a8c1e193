//! What a NEW_DYNAMIC or a NEW_FIXED tests, and the archive that it begins.

ghost use Rattle.std.specs.Prelude.{◌≡◌, ◌<◌, ◌≤◌, length, IfOk, OnOk};
ghost use Rattle.store_types.specs.Times.{last_moment};
ghost use Rattle.plain_sessions.specs.Changes.{HasRoom};
ghost use Rattle.plain_sessions.specs.Outcomes.{GivesSame, IsFitRefusal};
ghost use Rattle.plain_sessions.specs.Archiving.{begun_of, fixed_begun_of};

use crate::archives::{Begun, new_archive, want_number, want_sizes};
use crate::stop::Stop;
use crate::writer::Writer;
use plain_snapshots::Layout;
use std::alloc::Global;
use store_types::{FileName, Refusal};

impl Writer {
    /// The archive that a NEW_DYNAMIC begins.
    pub fn begin_dynamic(&self, alloc: Global, name: &[u8], moment: u64) -> Result<Begun, Stop>
        requires { moment ≤ last_moment }
        ensures fits { IsFitRefusal result }
        ensures gives { GivesSame result (begun_of self.now name.now moment) }
        ensures number { IfOk result (λ b. b.number < 256) }
        ensures room { OnOk result ((length self.now.begun < 16) × HasRoom self.now) }
    {
        let Ok(name) = FileName::check(alloc, name)? else {
            return Err(Stop::Refused(Refusal::BadName));
        };
        if !name.is_dynamic() {
            return Err(Stop::Refused(Refusal::BadName));
        }
        self.want_room(&name)?;
        want_number(self.begun.len())?;
        let number = self.begun.free_number();
        let archive = new_archive(alloc, Layout::Dynamic, 4032, &self.key, &name, moment)?;
        Ok(Begun {
            number,
            name,
            archive,
        })
    }

    /// The archive that a NEW_FIXED begins: of so many bytes, in pieces of so many.
    pub fn begin_fixed(
        &self,
        alloc: Global,
        name: &[u8],
        size: u64,
        chunk_size: u64,
        moment: u64,
    ) -> Result<Begun, Stop>
        requires { moment ≤ last_moment }
        ensures fits { IsFitRefusal result }
        ensures gives { GivesSame result (fixed_begun_of self.now name.now size chunk_size moment) }
        ensures number { IfOk result (λ b. b.number < 256) }
        ensures room { OnOk result ((length self.now.begun < 16) × HasRoom self.now) }
    {
        let Ok(name) = FileName::check(alloc, name)? else {
            return Err(Stop::Refused(Refusal::BadName));
        };
        if !name.is_fixed() {
            return Err(Stop::Refused(Refusal::BadName));
        }
        self.want_room(&name)?;
        want_number(self.begun.len())?;
        want_sizes(size, chunk_size)?;
        let number = self.begun.free_number();
        let layout = Layout::Fixed { size, chunk_size };
        let archive = new_archive(alloc, layout, 4016, &self.key, &name, moment)?;
        Ok(Begun {
            number,
            name,
            archive,
        })
    }
}
