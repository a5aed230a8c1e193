//! The data of a blob.

ghost use Rattle.std.specs.Prelude.{◌≡◌, ◌≤◌, [], length, IfOk};
ghost use Rattle.blob_codec.specs.Blob.{FitsBlob, blob, data_limit, data_of};
ghost use Rattle.store_files.specs.Archive.{digest_of};

use blob_codec::{BadBlob, decode, encode};
use sha2::{Digest, Sha256};
use std::alloc::{AllocError, Global};
use std::marker::Model;
use std::rc::Rc;
use store_types::{Bytes, Digest32};

/// Bytes of which there are few enough for a blob, with their digest. Copies share the bytes.
#[derive(Drop)]
pub struct BlobData {
    bytes: Rc<Bytes>,
    digest: Digest32,
}

impl Model for BlobData {
    ghost use Rattle.std.specs.Prelude.{◌≡◌, ℕ, List};
    ghost use Rattle.blob_codec.specs.Blob.{FitsBlob};
    ghost use Rattle.store_files.specs.Archive.{digest_of};

    ghost Value = { List ℕ };

    ghost view = { λ d. d.bytes.value };

    ghost invariant = { λ d. FitsBlob d.bytes.value × (d.digest ≡ digest_of d.bytes.value) };
}

impl BlobData {
    /// A copy of these bytes, with their digest.
    fn of(alloc: Global, bytes: &[u8]) -> Result<BlobData, AllocError>
        requires { FitsBlob bytes.now }
        ensures { IfOk result (λ copy. copy ≡ bytes.now) }
    {
        Ok(BlobData {
            bytes: Rc::new(alloc, Bytes::from_slice(alloc, bytes)?)?,
            digest: Digest32(Sha256::digest(bytes)),
        })
    }

    /// No bytes.
    pub fn empty(alloc: Global) -> Result<BlobData, AllocError>
        ensures { IfOk result (λ copy. copy ≡ []) }
    {
        BlobData::of(alloc, &[])
    }

    /// The data of a blob, or the first cause for which the bytes are none.
    pub fn decoded(alloc: Global, bytes: &[u8]) -> Result<Result<BlobData, BadBlob>, AllocError>
        ensures { IfOk result (λ read. read ≡ data_of bytes.now) }
    {
        match decode(bytes) {
            Ok(piece) => Ok(Ok(BlobData::of(alloc, piece)?)),
            Err(cause) => Ok(Err(cause)),
        }
    }

    /// The blob of these data.
    pub fn text(&self, alloc: Global) -> Result<Vec<u8>, AllocError>
        ensures { IfOk result (λ text. text.items ≡ blob self.now) }
    {
        Ok(encode(alloc, self.as_slice())?.unwrap())
    }

    pub fn as_slice(&self) -> &[u8]
        ensures value { result.now ≡ self.now }
        ensures limit { length result.now ≤ data_limit }
    {
        self.bytes.as_slice()
    }

    /// The SHA-256 of these data.
    pub fn digest(&self) -> Digest32
        ensures { result ≡ digest_of self.now }
    {
        self.digest
    }
}

impl Clone for BlobData {
    ghost is_clone = { λ «data» copy. copy ≡ «data» };

    fn clone(&self) -> Result<BlobData, AllocError> {
        Ok(BlobData {
            bytes: self.bytes.clone()?,
            digest: self.digest,
        })
    }
}
