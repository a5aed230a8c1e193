//! What a BLOB tests, and the file that comes of it.

ghost use Rattle.std.specs.Prelude.{◌≡◌, IfErr, OnOk};
ghost use Rattle.wire_commands.specs.HasText.{FitsRefusal};
ghost use Rattle.store_model.specs.Uploads.{has_file as file_there, want_room as needs_room};
ghost use Rattle.plain_sessions.specs.Changes.{HasRoom};
ghost use Rattle.plain_sessions.specs.Outcomes.{GivesSame, IsFitRefusal};
ghost use Rattle.plain_sessions.specs.Uploading.{upload_of};

use crate::stop::Stop;
use crate::writer::Writer;
use plain_snapshots::{BlobData, Content, File};
use std::alloc::Global;
use store_types::{FileName, Refusal};

impl Writer {
    /// The writer has an uploaded or an open file of that name.
    fn has_file(&self, name: &FileName) -> bool
        ensures { result ≡ file_there name.now self.now }
    {
        self.uploads.has_name(name) || self.begun.has_name(name)
    }

    /// The writer has no file of that name, and has room for one more.
    pub(crate) fn want_room(&self, name: &FileName) -> Result<(), Refusal>
        ensures fits { IfErr result FitsRefusal }
        ensures room { OnOk result (HasRoom self.now) }
        ensures test { result ≡ needs_room name.now self.now }
    {
        if self.has_file(name) {
            return Err(Refusal::Exists);
        }
        let begun = self.begun.len() as usize;
        if self.uploads.len().saturating_add(begun) < 64 {
            Ok(())
        } else {
            Err(Refusal::TooMany { limit: 64 })
        }
    }

    /// The file that a BLOB uploads.
    pub fn upload(&self, alloc: Global, name: &[u8], blob: &[u8]) -> Result<File, Stop>
        ensures fits { IsFitRefusal result }
        ensures gives { GivesSame result (upload_of self.now name.now blob.now) }
        ensures room { OnOk result (HasRoom self.now) }
    {
        let Ok(name) = FileName::check(alloc, name)? else {
            return Err(Stop::Refused(Refusal::BadName));
        };
        if !name.is_blob() {
            return Err(Stop::Refused(Refusal::BadName));
        }
        self.want_room(&name)?;
        match BlobData::decoded(alloc, blob)? {
            Ok(contents) => Ok(File {
                name,
                content: Content::Blob(contents),
            }),
            Err(cause) => Err(Stop::Refused(Refusal::BadBlob(cause))),
        }
    }
}
