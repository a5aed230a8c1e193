//! The fields of a manifest's JSON.

ghost use Rattle.std.specs.Prelude.{◌≡◌, IfOk, codes, option_map};
ghost use Rattle.serde_json.specs.View.{view};
ghost use Rattle.serde_json.specs.Find.{get};
ghost use Rattle.store_files.specs.Manifest.Fields.{text_in as text_of, number_in as number_of, csum_in as csum_of, key_in as key_of, fact_in as fact_of, is_plain as is_plain_of};
ghost use Rattle.manifest.specs.Views.{fact_view};
ghost use Rattle.manifest.specs.Fields.{digest_of as digest_named, group_in as group_of};

use crate::facts::FileFact;
use hex::FromHex;
use serde_json::Value;
use std::alloc::{AllocError, Global};
use store_types::{Digest32, FileName, GroupKey, LAST_MOMENT, SnapshotKey};

fn text_in<'v>(json: &'v Value, name: &str) -> Option<&'v str>
    ensures { option_map (λ t. t.now) result ≡ text_of name.now (view json.now) }
{
    json.get(name).and_then(Value::as_str)
}

fn number_in(json: &Value, name: &str) -> Option<u64>
    ensures { result ≡ number_of name.now (view json.now) }
{
    json.get(name).and_then(Value::as_u64)
}

/// The digest of 64 hexadecimal digits of either case.
fn digest_of(text: &str) -> Option<Digest32>
    ensures { result ≡ digest_named text.now }
{
    match <[u8; 32] as FromHex>::from_hex(text) {
        Ok(bytes) => Some(Digest32(bytes)),
        Err(_) => None,
    }
}

#[tactic(auto, unfolding(store_files::specs::Manifest::Fields::csum_in))]
fn csum_in(json: &Value) -> Option<Digest32>
    ensures { result ≡ csum_of (view json.now) }
{
    match text_in(json, "csum") {
        Some(text) => digest_of(text),
        None => None,
    }
}

/// The group `<type>/<id>` of the texts `backup-type` and `backup-id`.
fn group_in(alloc: Global, json: &Value) -> Result<Option<GroupKey>, AllocError>
    ensures { IfOk result (λ group. group ≡ group_of (view json.now)) }
{
    let Some(kind) = text_in(json, "backup-type") else {
        return Ok(None);
    };
    let Some(id) = text_in(json, "backup-id") else {
        return Ok(None);
    };
    let mut text = String::from_str(alloc, kind)?;
    text.push_str("/")?;
    text.push_str(id)?;
    Ok(GroupKey::parse(alloc, text.as_bytes())?.ok())
}

/// The snapshot that the manifest belongs to.
pub fn key_in(alloc: Global, json: &Value) -> Result<Option<SnapshotKey>, AllocError>
    ensures { IfOk result (λ key. key ≡ key_of (view json.now)) }
{
    let Some(group) = group_in(alloc, json)? else {
        return Ok(None);
    };
    let Some(time) = number_in(json, "backup-time") else {
        return Ok(None);
    };
    if time > LAST_MOMENT {
        return Ok(None);
    }
    let GroupKey { kind, id } = group;
    Ok(Some(SnapshotKey { kind, id, time }))
}

/// What an entry says of its file.
#[tactic(auto, unfolding(store_files::specs::Manifest::Fields::fact_in))]
pub fn fact_in(alloc: Global, json: &Value) -> Result<Option<FileFact>, AllocError>
    ensures { IfOk result (λ fact. option_map fact_view fact ≡ fact_of (view json.now)) }
{
    let Some(name) = text_in(json, "filename") else {
        return Ok(None);
    };
    let Ok(name) = FileName::check(alloc, name.as_bytes())? else {
        return Ok(None);
    };
    let Some(size) = number_in(json, "size") else {
        return Ok(None);
    };
    let Some(csum) = csum_in(json) else {
        return Ok(None);
    };
    Ok(Some(FileFact { name, size, csum }))
}

/// Whether an entry has no `crypt-mode`, or the text `none`.
pub fn is_plain(json: &Value) -> bool
    ensures { result ≡ is_plain_of (get (codes "crypt-mode") (view json.now)) }
{
    match json.get("crypt-mode") {
        None => true,
        Some(mode) => mode.as_str() == Some("none"),
    }
}
