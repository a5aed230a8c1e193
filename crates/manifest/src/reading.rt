//! Manifests are read.

ghost use Rattle.std.specs.Prelude.{◌≡◌, [], Ok, Err, IfOk, MatchResult, map};
ghost use Rattle.serde_json.specs.View.{view, items_view};
ghost use Rattle.store_types.specs.Names.{IsKey};
ghost use Rattle.store_files.specs.Manifest.{files_in as files_of, manifest_of};
ghost use Rattle.manifest.specs.Views.{fact_view, manifest_view};
ghost use Rattle.manifest.specs.Reading.{TellsEntry, manifest_in as manifest_from};

use crate::facts::{BadManifest, FileFact, Manifest};
use crate::fields::{fact_in, is_plain, key_in};
use serde_json::Value;
use serde_json::error::Category;
use std::alloc::{AllocError, Global};
use std::collections::BTreeSet;
use store_types::{FileName, Rows};

const BAD_JSON: BadManifest = BadManifest { cause: 1 };

const BAD_FIELD: BadManifest = BadManifest { cause: 2 };

const BAD_FILE: BadManifest = BadManifest { cause: 3 };

const LISTED_TWICE: BadManifest = BadManifest { cause: 4 };

const BAD_CRYPT: BadManifest = BadManifest { cause: 5 };

/// The file of an entry. Its name joins those that were listed before.
fn entry_in(
    alloc: Global,
    json: &Value,
    names: &mut BTreeSet<FileName>,
) -> Result<Result<FileFact, BadManifest>, AllocError>
    ensures { IfOk result (TellsEntry (view json.now) names.old names.new) }
{
    let Some(fact) = fact_in(alloc, json)? else {
        return Ok(Err(BAD_FILE));
    };
    if !is_plain(json) {
        return Ok(Err(BAD_CRYPT));
    }
    let is_new = names.insert(fact.name.clone()?)?;
    if is_new {
        Ok(Ok(fact))
    } else {
        Ok(Err(LISTED_TWICE))
    }
}

/// The files of the entries, in their order.
fn files_in(
    alloc: Global,
    entries: &[Value],
) -> Result<Result<Vec<FileFact>, BadManifest>, AllocError>
    ensures { IfOk result (λ read. MatchResult read
        (λ files. files_of [] (items_view entries.now) ≡ Ok (map fact_view files.items))
        (λ e. files_of [] (items_view entries.now) ≡ Err e.cause)) }
{
    let mut names = BTreeSet::new(alloc);
    let mut files = Vec::new(alloc);
    for entry in entries {
        match entry_in(alloc, entry, &mut names)? {
            Ok(file) => files.push(file)?,
            Err(bad) => return Ok(Err(bad)),
        }
    }
    Ok(Ok(files))
}

fn manifest_in(alloc: Global, json: &Value) -> Result<Result<Manifest, BadManifest>, AllocError>
    ensures { IfOk result (λ read. MatchResult read
        (λ manifest. manifest_from (view json.now) ≡ Ok (manifest_view manifest))
        (λ e. manifest_from (view json.now) ≡ Err e.cause)) }
{
    let Some(key) = key_in(alloc, json)? else {
        return Ok(Err(BAD_FIELD));
    };
    let Some(entries) = json.get("files").and_then(Value::as_array) else {
        return Ok(Err(BAD_FIELD));
    };
    match files_in(alloc, entries)? {
        Ok(files) => Ok(Ok(Manifest {
            key,
            files: Rows::from_vec(files),
        })),
        Err(bad) => Ok(Err(bad)),
    }
}

/// The manifest that these bytes are, or the first cause for which they are none. The outer error is want of memory.
///
/// The bytes are the data of the blob `index.json.blob`: a JSON object with the texts `backup-type` and `backup-id`, the
/// whole number `backup-time` of seconds up to the end of the year 9999, and the list `files` of objects with the texts
/// `filename` and `csum`, 64 hexadecimal digits of either case, and the whole number `size` below 2^64. A `crypt-mode`
/// of a file is the text `none`, or absent. Other keys are accepted and not looked at; of two equal keys the last
/// counts; a number with a fraction, an exponent or a sign is no whole number.
pub fn read(alloc: Global, bytes: &[u8]) -> Result<Result<Manifest, BadManifest>, AllocError>
    ensures exact { IfOk result (λ read. MatchResult read
        (λ manifest. manifest_of bytes.now ≡ Ok (manifest_view manifest))
        (λ e. manifest_of bytes.now ≡ Err e.cause)) }
    ensures key { IfOk result (λ read. IfOk read (λ manifest. IsKey manifest.key)) }
{
    match Value::from_slice(alloc, bytes) {
        Ok(json) => manifest_in(alloc, &json),
        Err(error) if error.classify() == Category::Memory => Err(AllocError),
        Err(_) => Ok(Err(BAD_JSON)),
    }
}
