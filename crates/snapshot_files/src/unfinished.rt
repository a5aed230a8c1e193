//! Which files opening takes away.

ghost use Rattle.std.specs.Prelude.{IfOk, option_map};
ghost use Rattle.snapshot_files.specs.Removed.{KnowsManifests, SplitsLast, TellsByManifests, TellsSnapshot};

use crate::manifest_path_of;
use std::alloc::{AllocError, Global};
use std::collections::BTreeSet;
use store_types::{FileName, SnapshotKey};

/// What stands before the last slash, and what stands behind it.
fn split_at_last_slash(name: &[u8]) -> Option<(&[u8], &[u8])>
    ensures { SplitsLast name.now (option_map (λ x. (x.0.now, x.1.now)) result) }
{
    match name.iter().rposition(|&b| b == b'/') {
        Some(at) => Some((&name[..at], &name[at + 1..])),
        None => None,
    }
}

/// The snapshot whose file has this name.
fn snapshot_of(alloc: Global, name: &str) -> Result<Option<SnapshotKey>, AllocError>
    ensures { IfOk result (TellsSnapshot name.now) }
{
    let Some((folder, file)) = split_at_last_slash(name.as_bytes()) else {
        return Ok(None);
    };
    let Ok(key) = SnapshotKey::parse(alloc, folder)? else {
        return Ok(None);
    };
    match FileName::check(alloc, file)? {
        Ok(_) => Ok(Some(key)),
        Err(_) => Ok(None),
    }
}

/// Whether opening takes the file of this name away: a temporary one, and one of a snapshot without a manifest.
pub fn is_leaving(
    alloc: Global,
    name: &str,
    manifests: &BTreeSet<String>,
) -> Result<bool, AllocError>
    ensures { TellsByManifests manifests.now name.now result }
{
    if name.as_bytes().ends_with(b".tmp") {
        return Ok(true);
    }
    let Some(key) = snapshot_of(alloc, name)? else {
        return Ok(false);
    };
    let manifest = manifest_path_of(alloc, &key)?;
    Ok(!manifests.contains(manifest.as_str()))
}

/// Those of the names that end as a manifest's does.
pub fn manifests_among(alloc: Global, names: &[String]) -> Result<BTreeSet<String>, AllocError>
    ensures { KnowsManifests names.now result }
{
    let mut manifests = BTreeSet::new(alloc);
    for name in names {
        if name.as_str().as_bytes().ends_with(b"/index.json.blob") {
            manifests.insert(name.clone()?)?;
        }
    }
    Ok(manifests)
}
