//! What holds of blobs as a whole.

ghost use Rattle.blob_codec.specs.Laws.{WhatIsEncodedDecodes, WhatDecodesHasOneSpelling};

/// The blob of some data holds these data.
pub fn what_is_encoded_decodes()
    ensures { WhatIsEncodedDecodes }
{}

/// Bytes that hold some data are the blob of these data, and no others are.
pub fn what_decodes_has_one_spelling()
    ensures { WhatDecodesHasOneSpelling }
{}
