//! The grammar of names over bytes.

ghost use Rattle.std.specs.Prelude.{◌≡◌};
ghost use Rattle.std.specs.List.{list_all};
ghost use Rattle.std.specs.Str.{IsAscii};
ghost use Rattle.store_types.specs.FileNames.{is_id as is_id_of, is_word_byte as is_word, is_id_byte as is_id_part, has_ending as ends_after_more, is_file_name as is_name_of_file};
ghost use Rattle.store_types.specs.Names.{SplitsAtSlash};

/// An ASCII letter, a digit or `_`.
fn is_word_byte(b: u8) -> bool
    ensures { result ≡ is_word b }
{
    b.is_ascii_alphanumeric() || b == b'_'
}

/// One of these, `.` or `-`.
fn is_id_byte(b: u8) -> bool
    ensures { result ≡ is_id_part b }
{
    is_word_byte(b) || b == b'.' || b == b'-'
}

fn has_id_bytes(text: &[u8]) -> bool
    ensures { result ≡ list_all is_id_part text.now }
{
    for b in text {
        if !is_id_byte(*b) {
            return false;
        }
    }
    true
}

/// 1 to 64 bytes of an id, the first a letter, a digit or `_`.
pub fn is_id(text: &[u8]) -> bool
    ensures { result ≡ is_id_of text.now }
{
    !text.is_empty() && text.len() <= 64 && is_word_byte(text[0]) && has_id_bytes(text)
}

/// Whether the name ends so, with at least one byte before.
pub fn has_ending(name: &[u8], ending: &[u8]) -> bool
    ensures { result ≡ ends_after_more ending.now name.now }
{
    name.ends_with(ending) && ending.len() < name.len()
}

/// Whether the text is formed like an id and ends like a file of a snapshot.
pub fn is_file_name(text: &[u8]) -> bool
    ensures { result ≡ is_name_of_file text.now }
{
    is_id(text)
        && (has_ending(text, b".fidx") || has_ending(text, b".didx") || has_ending(text, b".blob"))
}

/// What stands before the first `/`, and what stands behind it.
pub fn split_at_slash(text: &[u8]) -> Option<(&[u8], &[u8])>
    ensures { SplitsAtSlash text.now result }
{
    let at = text.iter().position(|b| *b == b'/')?;
    Some((&text[..at], &text[at + 1..]))
}

/// An ASCII text as a `str`.
pub fn as_text(bytes: &[u8]) -> &str
    requires { IsAscii bytes.now }
    ensures { result.now ≡ bytes.now }
{
    let Ok(text) = str::from_utf8(bytes) else {
        unreachable!()
    };
    text
}
