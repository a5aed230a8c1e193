//! What holds of books as a whole.

ghost use Rattle.atime_book.specs.Laws.{WhatIsWrittenIsRead, WhatIsReadHasOneSpelling};

/// The text of a book in range is read as that book.
pub fn what_is_written_is_read()
    ensures { WhatIsWrittenIsRead }
{}

/// Bytes that are read as a book are that book's text, and it is in range.
pub fn what_is_read_has_one_spelling()
    ensures { WhatIsReadHasOneSpelling }
{}
