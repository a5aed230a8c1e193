//! What FINISH tests of the manifest.

ghost use Rattle.std.specs.Prelude.{◌≡◌, IfOk, IfErr};
ghost use Rattle.store_model.specs.Manifests.{mismatch_refusal};
ghost use Rattle.manifest.specs.Checking.{FitsField};
ghost use Rattle.manifest.specs.Views.{mismatch_view};
ghost use Rattle.wire_commands.specs.HasText.{FitsRefusal};
ghost use Rattle.backup_session.specs.Answers.{GivesManifest};
ghost use Rattle.backup_session.specs.Finish.{manifest_from};
ghost use Rattle.backup_session.specs.Kept.{Ascends};

use manifest::{FileFact, Manifest, Mismatch, check, read};
use std::alloc::{AllocError, Global};
use store_types::{Bytes, Refusal, SnapshotKey};

fn mismatched(alloc: Global, mismatch: Mismatch) -> Result<Refusal, AllocError>
    requires { FitsField mismatch.file mismatch.field }
    ensures value { IfOk result (λ refusal. refusal ≡ mismatch_refusal (mismatch_view mismatch)) }
    ensures fits { IfOk result FitsRefusal }
{
    let Mismatch { file, field } = mismatch;
    match file {
        Some(name) => {
            let file = Bytes::from_slice(alloc, name.as_slice())?;
            Ok(Refusal::ManifestMismatch { file, field })
        }
        None => {
            let file = Bytes::new(alloc);
            Ok(Refusal::ManifestMismatch { file, field })
        }
    }
}

/// The manifest of these data, where it is the snapshot's and lists the files beside it.
pub fn checked_manifest(
    alloc: Global,
    key: &SnapshotKey,
    files: &[FileFact],
    bytes: &[u8],
) -> Result<Manifest, Refusal>
    requires { Ascends files.now }
    ensures value { GivesManifest (manifest_from key.now files.now bytes.now) result }
    ensures fits { IfErr result FitsRefusal }
{
    let manifest = match read(alloc, bytes)? {
        Ok(manifest) => manifest,
        Err(fault) => {
            let cause = fault.cause;
            return Err(Refusal::BadManifest { cause });
        }
    };
    match check(&manifest, key, files)? {
        Ok(()) => Ok(manifest),
        Err(mismatch) => Err(mismatched(alloc, mismatch)?),
    }
}
