//! What holds of dynamic indexes as a whole.

ghost use Rattle.dynamic_index.specs.Laws.{WhatIsWrittenIsRead, WhatIsReadHasOneSpelling};

/// The text of an index in range is read as that index, whatever its reserved bytes are.
pub fn what_is_written_is_read()
    ensures { WhatIsWrittenIsRead }
{}

/// Bytes that are read as an index are that index's text, its reserved bytes included, and it is in range.
pub fn what_is_read_has_one_spelling()
    ensures { WhatIsReadHasOneSpelling }
{}
