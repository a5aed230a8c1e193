//! The catalogue of the snapshots that were found.

ghost use Rattle.std.specs.Prelude.{◌≡◌, map, option_map, IfOk, IsTrue};
ghost use Rattle.std.specs.List.{All};
ghost use Rattle.manifest.specs.Views.{manifest_view};
ghost use Rattle.store_types.specs.Names.{IsKey};
ghost use Rattle.snapshot_files.specs.Scanned.{HasNames};
ghost use Rattle.core_opening.specs.Opening.{AreInserted, IsKeptOf, ListsNames, NumbersAll, stored_at, stored_names_rise};

use core_state::{Catalogue, Kept, Listed, StoredFile};
use manifest::Manifest;
use snapshot_files::{Found, path_of};
use std::alloc::{AllocError, Global};
use std::collections::BTreeSet;
use store_types::{FileName, Rows, SnapshotKey};

/// The number of the first snapshot that was found.
const FIRST_NUMBER: u64 = 1 << 63;

/// The names of the files that a manifest lists, if it reads, and of the manifest.
fn names_of(alloc: Global, manifest: Option<Manifest>) -> Result<BTreeSet<FileName>, AllocError>
    ensures { IfOk result (λ names. ListsNames (option_map manifest_view manifest) names.keys) }
{
    let mut names = BTreeSet::new(alloc);
    names.insert(FileName::manifest(alloc)?)?;
    let Some(manifest) = manifest else {
        return Ok(names);
    };
    for file in manifest.files.into_vec() {
        names.insert(file.name)?;
    }
    Ok(names)
}

/// The snapshot's files of these names, and where they stand.
fn files_of(
    alloc: Global,
    key: &SnapshotKey,
    names: BTreeSet<FileName>,
) -> Result<Vec<StoredFile>, AllocError>
    requires { IsKey key.now }
    ensures files { IfOk result (λ files. files.items ≡ map (stored_at key.now) names.keys) }
    ensures order { IfOk result (λ files. IsTrue (stored_names_rise files.items)) }
{
    let mut files = Vec::new(alloc);
    for name in names {
        let path = path_of(alloc, key, &name)?;
        files.push(StoredFile { name, path })?;
    }
    Ok(files)
}

/// What is kept of a snapshot that was found.
fn kept_of(alloc: Global, found: Found) -> Result<Kept, AllocError>
    requires { HasNames found }
    ensures { IfOk result (IsKeptOf found) }
{
    let Found {
        key,
        manifest,
        unreadable,
    } = found;
    let names = names_of(alloc, manifest)?;
    let files = files_of(alloc, &key, names)?;
    Ok(Kept {
        key,
        files: Rows::from_vec(files),
        unreadable,
    })
}

/// The catalogue of the snapshots that were found, each with what is kept of it, by numbers of their own.
pub fn catalogue_of(alloc: Global, found: Vec<Found>) -> Result<Catalogue, AllocError>
    requires { All HasNames found.items }
    ensures listed { IfOk result (λ c. AreInserted found.items c.listed) }
    ensures numbers { IfOk result (λ c. NumbersAll c.listed) }
{
    let mut catalogue = Catalogue::new(alloc);
    for found in found {
        let number = FIRST_NUMBER + catalogue.as_slice().len() as u64;
        let kept = kept_of(alloc, found)?;
        catalogue.reserve()?;
        catalogue.insert_reserved(Listed { number, kept });
    }
    Ok(catalogue)
}
