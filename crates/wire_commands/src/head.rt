//! The text of a command or a reply: fields of small size, and behind them one that takes the rest.

ghost use Rattle.std.specs.Prelude.{◌≡◌, ◌+◌, ◌<◌, ◌≤◌, [], ◌∷◌, ◌++◌, length};
ghost use Rattle.wire_commands.specs.Fields as spec;

use arrayvec::ArrayVec;
use std::marker::Model;
use store_types::Bytes;

/// The longest head in bytes: that of a file in a reply to FILES, with a text behind its length and 40 bytes more.
const HEAD_LIMIT: usize = 296;

/// The fields of small size. They lie in the value itself.
#[derive(Drop)]
pub struct Head {
    bytes: ArrayVec<u8, HEAD_LIMIT>,
}

impl Model for Head {
    ghost use Rattle.std.specs.Prelude.{ℕ, ◌<◌, List, length};

    ghost Value = { List ℕ };

    ghost view = { λ head. head.bytes.items };

    ghost invariant = { λ head. 0 < length head.bytes.items };
}

impl Head {
    /// The code of a command, or the number of a reply.
    pub fn new(code: u8) -> Head
        ensures { result ≡ code ∷ [] }
    {
        let mut bytes = ArrayVec::new();
        bytes.push(code);
        Head { bytes }
    }

    /// A text behind its length, and no code before it.
    pub fn of_text(text: &Bytes) -> Head
        requires { length text.now < 256 }
        ensures { result ≡ spec.text text.now }
    {
        let text = text.as_slice();
        Head::new(text.len() as u8).bytes(text)
    }

    pub fn bytes(self, bytes: &[u8]) -> Head
        requires { length self + length bytes.now ≤ HEAD_LIMIT }
        ensures { result ≡ self ++ bytes.now }
    {
        let Head { bytes: mut all } = self;
        all.try_extend_from_slice(bytes).unwrap();
        Head { bytes: all }
    }

    pub fn byte(self, byte: u8) -> Head
        requires { length self < HEAD_LIMIT }
        ensures { result ≡ self ++ byte ∷ [] }
    {
        self.bytes(&[byte])
    }

    pub fn flag(self, set: bool) -> Head
        requires { length self < HEAD_LIMIT }
        ensures { result ≡ self ++ spec.flag set }
    {
        self.byte(if set { 1 } else { 0 })
    }

    pub fn u16(self, number: u16) -> Head
        requires { length self + 2 ≤ HEAD_LIMIT }
        ensures { result ≡ self ++ spec.u16 number }
    {
        self.bytes(&number.to_le_bytes())
    }

    pub fn u32(self, number: u32) -> Head
        requires { length self + 4 ≤ HEAD_LIMIT }
        ensures { result ≡ self ++ spec.u32 number }
    {
        self.bytes(&number.to_le_bytes())
    }

    pub fn u64(self, number: u64) -> Head
        requires { length self + 8 ≤ HEAD_LIMIT }
        ensures { result ≡ self ++ spec.u64 number }
    {
        self.bytes(&number.to_le_bytes())
    }

    /// A text behind its length.
    pub fn text(self, text: &Bytes) -> Head
        requires short { length text.now < 256 }
        requires room { length self + length text.now < HEAD_LIMIT }
        ensures { result ≡ self ++ spec.text text.now }
    {
        let text = text.as_slice();
        self.byte(text.len() as u8).bytes(text)
    }

    pub fn as_slice(&self) -> &[u8]
        ensures value { result.now ≡ self.now }
        ensures some { 0 < length result.now }
    {
        self.bytes.as_slice()
    }
}

/// The text of a command or a reply: the head, and then the rest.
#[derive(Drop)]
pub struct Spelling<'a> {
    pub head: Head,
    pub rest: &'a [u8],
}

impl<'a> Spelling<'a> {
    /// A text without a field that takes the rest.
    pub fn of(head: Head) -> Spelling<'a>
        ensures head { result.head ≡ head }
        ensures rest { result.rest.now ≡ [] }
    {
        Spelling { head, rest: &[] }
    }
}
