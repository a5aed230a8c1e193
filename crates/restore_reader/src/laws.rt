//! What holds of a range that is read page by page.

ghost use Rattle.restore_reader.specs.Laws.{BytesAreTheRange, BytesFollow, NothingBefore, NothingBehind, OpenedIsKept, PartsFitTheRange, PartsFollow, PartsReadTheirBytes};

/// What is kept of an index that was opened is what its file's text makes of it.
pub fn an_opened_index_is_its_files()
    ensures { OpenedIsKept }
{}

/// Of pages that follow one another a range has what it has of each, of their parts and of their bytes: nothing of those
/// that end where it begins or before, and nothing of those that begin where it ends or behind.
pub fn a_range_is_that_of_its_pages()
    ensures parts { PartsFollow }
    ensures bytes { BytesFollow }
    ensures before { NothingBefore }
    ensures behind { NothingBehind }
{}

/// Whatever pieces have the digests and lengths of a page's entries, the parts are the range's bytes of what they make.
/// Those of the whole content are the range, and no parts have more bytes than it.
pub fn parts_read_their_bytes()
    ensures bytes { PartsReadTheirBytes }
    ensures whole { BytesAreTheRange }
    ensures total { PartsFitTheRange }
{}
