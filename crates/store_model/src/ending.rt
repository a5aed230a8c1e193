//! How a lane ended.

/// The last of a lane: its input was read to BYE or to its end between two frames, or something stopped it.
#[derive(Clone, Copy, Debug, PartialEq, Eq)]
pub enum Ending {
    Clean,
    /// At this offset of the input, in bytes, no command stands.
    Broken { place: u64 },
    SourceFault,
    SinkFault,
    /// The lane took 2^40 bytes without ending.
    SourceTooLong,
    NoMemory,
}
