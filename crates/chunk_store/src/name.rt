//! Where chunks stand.

ghost use Rattle.std.specs.Prelude.{◌≡◌, ◌≤◌, length};
ghost use Rattle.hex.specs.Hex.{encode_lower};
ghost use Rattle.blob_codec.specs.Laws.{AreBytes};
ghost use Rattle.store_files.specs.Folder.{IsDigest, chunk_name};

use arrayvec::ArrayString;
use std::marker::Model;
use store_types::Digest32;

/// A chunk's name in the datastore folder, `.chunks/<first four digits>/<all digits>`, with the 64 hexadecimal digits of
/// its SHA-256 in lower case. It takes no memory.
#[derive(Drop)]
pub struct ChunkName {
    text: ArrayString<77>,
}

impl Model for ChunkName {
    ghost use Rattle.std.specs.Prelude.{ℕ, List};

    ghost Value = { List ℕ };

    ghost view = { λ n. n.text.bytes };
}

/// The digits of a digest's bytes, in lower case.
fn digits_of(bytes: &[u8]) -> [u8; 64]
    requires { length bytes.now ≡ 32 }
    ensures value { result ≡ encode_lower bytes.now }
    ensures bytes { AreBytes bytes.now }
{
    let mut digits = [0; 64];
    let Ok(()) = hex::encode_to_slice(bytes, &mut digits) else {
        unreachable!();
    };
    digits
}

impl ChunkName {
    /// The name of the chunk with this digest.
    pub fn of(digest: &Digest32) -> ChunkName
        ensures value { result ≡ chunk_name digest.now.0 }
        ensures digest { IsDigest digest.now.0 }
    {
        let digits = digits_of(&digest.0);
        let Ok(digits) = str::from_utf8(&digits) else {
            unreachable!();
        };
        let mut text = ArrayString::new();
        text.push_str(".chunks/");
        text.push_str(&digits[..4]);
        text.push_str("/");
        text.push_str(digits);
        ChunkName { text }
    }

    pub fn as_str(&self) -> &str
        ensures text { result.now ≡ self.now }
        ensures short { length result.now ≤ 77 }
    {
        self.text.as_str()
    }
}
