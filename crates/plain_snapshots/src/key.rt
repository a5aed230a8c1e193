//! The key of a snapshot.

ghost use Rattle.std.specs.Prelude.{◌≡◌, ◌<◌, length, IfOk};
ghost use Rattle.std.specs.Result.{result_ok};
ghost use Rattle.store_types.specs.Names.{key_of, key_text};

use std::alloc::{AllocError, Global};
use std::marker::Model;
use store_types::{BadName, Bytes, SnapshotKey};

/// A snapshot's key that has a text.
#[derive(Drop)]
pub struct PlainKey {
    key: SnapshotKey,
}

impl Model for PlainKey {
    ghost use Rattle.store_types.specs.declared.names.SnapshotKey.{SnapshotKey};
    ghost use Rattle.store_types.specs.Names.{IsKey};

    ghost Value = { SnapshotKey };

    ghost view = { λ k. k.key };

    ghost invariant = { λ k. IsKey k.key };
}

impl PlainKey {
    /// The key that a text names.
    pub fn parse(alloc: Global, text: &[u8]) -> Result<Result<PlainKey, BadName>, AllocError>
        ensures { IfOk result (λ read. result_ok read ≡ key_of text.now) }
    {
        match SnapshotKey::parse(alloc, text)? {
            Ok(key) => Ok(Ok(PlainKey { key })),
            Err(cause) => Ok(Err(cause)),
        }
    }

    /// Its text, which `parse` reads again.
    pub fn text(&self, alloc: Global) -> Result<Bytes, AllocError>
        ensures text { IfOk result (λ text. text ≡ key_text self.now) }
        ensures short { IfOk result (λ text. length text < 256) }
    {
        Ok(Bytes::from_vec(self.key.print(alloc)?.into_bytes()))
    }

    /// The key with its fields.
    pub fn as_key(&self) -> &SnapshotKey
        ensures { result.now ≡ self.now }
    {
        &self.key
    }
}

impl Clone for PlainKey {
    ghost is_clone = { λ key copy. copy ≡ key };

    fn clone(&self) -> Result<PlainKey, AllocError> {
        Ok(PlainKey {
            key: self.key.clone()?,
        })
    }
}
