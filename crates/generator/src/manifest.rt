//! The names of a session's snapshots, and their manifests.

ghost use Rattle.std.specs.Prelude.{◌≡◌, ◌<◌, ◌≤◌, length, string_bytes, IfOk};
ghost use Rattle.hex.specs.Hex.{encode_lower};
ghost use Rattle.store_files.specs.Folder.{IsDigest};
ghost use Rattle.generator.specs.Manifests as spec;
ghost use Rattle.generator.specs.Json.{file_data, manifest_data};
ghost use Rattle.serde_json.specs.View.{view};

use serde_json::{Value, json};
use std::alloc::{AllocError, Global};
use store_types::{Bytes, Digest32};

/// The group `host/g<k>`.
pub fn group_of(alloc: Global, k: u32) -> Result<Bytes, AllocError>
    ensures { IfOk result (λ text. text ≡ spec.group_of k) }
{
    let text = format!(in alloc; "host/g{k}")?;
    Ok(Bytes::from_vec(text.into_bytes()))
}

/// The snapshot `host/g<k>/2020-01-0<j+1>T00:00:00Z`.
pub fn snapshot_of(alloc: Global, k: u32, j: u32) -> Result<Bytes, AllocError>
    requires { j < 4 }
    ensures { IfOk result (λ text. text ≡ spec.snapshot_of k j) }
{
    let day = j + 1;
    let text = format!(in alloc; "host/g{k}/2020-01-0{day}T00:00:00Z")?;
    Ok(Bytes::from_vec(text.into_bytes()))
}

/// The digits of a digest, in lower case.
fn digits_of(alloc: Global, bytes: &[u8]) -> Result<String, AllocError>
    requires { length bytes.now ≡ 32 }
    ensures value { IfOk result (λ text. string_bytes text ≡ encode_lower bytes.now) }
    ensures digest { IsDigest bytes.now }
{
    hex::encode(alloc, bytes)
}

/// What a manifest lists of the archive.
fn file_value(alloc: Global, csum: &Digest32, size: u64) -> Result<Value, AllocError>
    ensures value { IfOk result (λ v. view v ≡ file_data csum.now size) }
    ensures digest { IsDigest csum.now.0 }
{
    let digits = digits_of(alloc, &csum.0)?;
    let csum = digits.as_str();
    json!(in alloc; {"crypt-mode": "none", "csum": csum, "filename": "root.didx", "size": size})
}

fn manifest_value(alloc: Global, k: u32, j: u32, file: &Value) -> Result<Value, AllocError>
    requires { j < 4 }
    ensures { IfOk result (λ v. view v ≡ manifest_data k j (view file.now)) }
{
    let id = format!(in alloc; "g{k}")?;
    let id = id.as_str();
    let time = 1_577_836_800 + 86_400 * j as u64;
    json!(in alloc; {"backup-id": id, "backup-time": time, "backup-type": "host", "files": [file]})
}

/// The manifest of snapshot `j` of lane `k`, which lists the archive of this checksum and size in bytes.
pub fn manifest(
    alloc: Global,
    k: u32,
    j: u32,
    csum: &Digest32,
    size: u64,
) -> Result<Vec<u8>, AllocError>
    requires lane { k ≤ 63 }
    requires snapshot { j < 4 }
    ensures text { IfOk result (λ text. text.items ≡ spec.manifest_text k j csum.now size) }
    ensures short { IfOk result (λ text. length text.items ≤ 300) }
{
    let file = file_value(alloc, csum, size)?;
    let value = manifest_value(alloc, k, j, &file)?;
    let text = value.to_string(alloc)?;
    Ok(text.into_bytes())
}
