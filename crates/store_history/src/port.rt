//! What a lane reads and writes, and what is told of it in the end.

use store_model::Ending;

/// Where a lane's commands come from, and where its replies go.
#[derive(Drop)]
pub struct Port<S, K> {
    pub source: S,
    pub sink: K,
}

/// How a lane was served: how many bytes it took of its source, how many it gave its sink, and how it ended.
#[derive(Clone, Copy, Debug, PartialEq, Eq)]
pub struct LaneReport {
    pub taken: u64,
    pub given: u64,
    pub ending: Ending,
}

impl Default for LaneReport {
    /// Of a lane that took and gave nothing.
    fn default() -> LaneReport {
        LaneReport {
            taken: 0,
            given: 0,
            ending: Ending::Clean,
        }
    }
}
