//! What a FINISH tests, and the snapshot that comes of it.

ghost use Rattle.std.specs.Prelude.{◌≡◌, map, IfOk};
ghost use Rattle.manifest.specs.Views.{fact_view, manifest_view, mismatch_view};
ghost use Rattle.manifest.specs.Checking.{FitsField};
ghost use Rattle.wire_commands.specs.HasText.{FitsRefusal};
ghost use Rattle.store_model.specs.Manifests.{fact_of as listed_of, want_manifest, mismatch_refusal as refusal_of, listing_of};
ghost use Rattle.plain_sessions.specs.Outcomes.{Gives, GivesSame, IsFitRefusal};
ghost use Rattle.plain_sessions.specs.Finishing.{finished_of, want_uploads};

use crate::stop::Stop;
use crate::writer::Writer;
use manifest::{BadManifest, FileFact, Manifest, Mismatch, check};
use plain_snapshots::{BlobData, File, Snapshot, manifest_data};
use std::alloc::{AllocError, Global};
use store_types::{Bytes, Refusal, SnapshotKey};

/// What a manifest lists of each file.
fn facts_of(alloc: Global, files: &[File]) -> Result<Vec<FileFact>, AllocError>
    ensures { IfOk result (λ facts. map fact_view facts.items ≡ map listed_of files.now) }
{
    let mut facts = Vec::new(alloc);
    for file in files {
        facts.push(file.fact(alloc)?)?;
    }
    Ok(facts)
}

/// The manifest that these data are.
fn read_manifest(alloc: Global, contents: &BlobData) -> Result<Manifest, Stop>
    ensures fits { IsFitRefusal result }
    ensures gives { Gives manifest_view result (want_manifest contents.now) }
{
    match manifest::read(alloc, contents.as_slice())? {
        Ok(manifest) => Ok(manifest),
        Err(BadManifest { cause }) => Err(Stop::Refused(Refusal::BadManifest { cause })),
    }
}

/// The refusal of a manifest that differs so.
fn mismatch_refusal(alloc: Global, mismatch: Mismatch) -> Result<Refusal, AllocError>
    requires { FitsField mismatch.file mismatch.field }
    ensures fits { IfOk result FitsRefusal }
    ensures refusal { IfOk result (λ refusal. refusal ≡ refusal_of (mismatch_view mismatch)) }
{
    let Mismatch { file, field } = mismatch;
    let file = match file {
        Some(name) => Bytes::from_slice(alloc, name.as_slice())?,
        None => Bytes::new(alloc),
    };
    Ok(Refusal::ManifestMismatch { file, field })
}

/// The manifest has this key, and lists these uploads.
fn want_listed(
    alloc: Global,
    manifest: &Manifest,
    key: &SnapshotKey,
    uploads: &[FileFact],
) -> Result<(), Stop>
    ensures fits { IsFitRefusal result }
    ensures gives { GivesSame result (want_uploads manifest.now key.now uploads.now) }
{
    match check(manifest, key, uploads)? {
        Ok(()) => Ok(()),
        Err(mismatch) => Err(Stop::Refused(mismatch_refusal(alloc, mismatch)?)),
    }
}

impl Writer {
    /// The manifest among the files lists the others.
    fn want_listing(&self, alloc: Global) -> Result<Manifest, Stop>
        ensures fits { IsFitRefusal result }
        ensures gives { Gives manifest_view result (listing_of self.now.key self.now.files) }
    {
        let Some(contents) = manifest_data(self.uploads.as_slice()) else {
            return Err(Stop::Refused(Refusal::NoFile));
        };
        let manifest = read_manifest(alloc, contents)?;
        let facts = facts_of(alloc, self.uploads.as_slice())?;
        want_listed(alloc, &manifest, self.key.as_key(), &facts)?;
        Ok(manifest)
    }

    /// The snapshot that a FINISH makes of the files: no archive is open, and the manifest among them lists the others.
    pub fn finished(&self, alloc: Global) -> Result<Snapshot, Stop>
        ensures fits { IsFitRefusal result }
        ensures gives { GivesSame result (finished_of self.now) }
    {
        let count = self.begun.len();
        if count > 0 {
            return Err(Stop::Refused(Refusal::OpenIndexes { count }));
        }
        self.want_listing(alloc)?;
        Ok(Snapshot {
            key: self.key.clone()?,
            files: self.uploads.to_vec()?,
        })
    }
}
