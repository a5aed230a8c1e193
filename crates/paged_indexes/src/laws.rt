//! What holds of indexes that are read page by page.

ghost use Rattle.paged_indexes.specs.Laws.{DynamicChunksAreFound, DynamicPagesAreOfTheView, DynamicStays, FixedChunksAreFound, FixedPagesAreOfTheView, FixedStays, KeptHasTheSum, OpenedIsTheIndex};

/// There are as many entries as in the view, and a page's entries are the view's at its place.
pub fn a_page_is_of_the_view()
    ensures dynamic { DynamicPagesAreOfTheView }
    ensures fixed { FixedPagesAreOfTheView }
{}

/// A file that is as it was opened gives each of its pages.
pub fn what_stays_is_given()
    ensures dynamic { DynamicStays }
    ensures fixed { FixedStays }
{}

/// What is kept of an index is of bytes, and bytes of a page are kept exactly where they are as many as the page has, and
/// behind those bytes before it have the SHA-256 of them to the page's end.
pub fn what_is_kept_has_the_sha256()
    ensures { KeptHasTheSum }
{}

/// The chunk at an offset is the one that has the byte there, and there is none exactly from the archive's size on.
pub fn a_chunk_is_found_by_its_bytes()
    ensures dynamic { DynamicChunksAreFound }
    ensures fixed { FixedChunksAreFound }
{}

/// While the file stands there from which an index was opened, each page has the index's entries at its place, and the page
/// that is found for an offset begins there or before it.
pub fn what_was_opened_is_the_index()
    ensures { OpenedIsTheIndex }
{}
