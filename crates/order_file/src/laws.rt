//! What holds of order files as a whole.

ghost use Rattle.order_file.specs.Laws.{WhatIsWrittenIsRead, WhatIsReadHasOneSpelling};

/// The text of an order that keeps the rules for so many lanes is read as that order.
pub fn what_is_written_is_read()
    ensures { WhatIsWrittenIsRead }
{}

/// Bytes that are read as an order for so many lanes are that order's text, and it keeps the rules.
pub fn what_is_read_has_one_spelling()
    ensures { WhatIsReadHasOneSpelling }
{}
