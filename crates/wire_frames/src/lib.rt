//! Frames of a stream: the length of a body as a little-endian u32, and the body. A body has at most
//! 16,778,240 bytes.
#![tactic(auto)]

ghost use Rattle.std.specs.Prelude.{◌≡◌};
ghost use Rattle.wire_frames.specs.Frames.{Tail, cut, frames_from, frames_of};
ghost use Rattle.wire_frames.specs.Laws.{WhatIsWrittenIsCutOff, WhatIsCutOffWasWritten, StreamsHaveTheirFrames, PiecesHaveTheSameFrames};

mod cutter;
mod frame;

pub use cutter::Cutter;
pub use frame::{BODY_LIMIT, Frame, TooLong, put_frame, put_frame_counted};

/// What is written as a frame is cut off as that frame, and nothing else is. The frames of a stream
/// are the same however it comes in pieces.
pub fn frame_laws()
    ensures written { WhatIsWrittenIsCutOff }
    ensures read { WhatIsCutOffWasWritten }
    ensures stream { StreamsHaveTheirFrames }
    ensures next { (t : Tail) → frames_of t ≡ frames_from t (cut t.bytes) frames_of }
    ensures pieces { PiecesHaveTheSameFrames }
{}
