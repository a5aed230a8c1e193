//! What stands round each command.

/// Called round each command of a lane. It may hold up the lane and changes nothing else.
pub trait Gate {
    /// Before a lane's command of this number, from 0.
    fn before(&self, lane: u32, number: u64);

    /// After that command was answered.
    fn after(&self, lane: u32, number: u64);
}

/// A gate that returns at once.
#[derive(Clone, Copy, Debug, Default)]
pub struct FreeGate;

impl Gate for FreeGate {
    fn before(&self, _lane: u32, _number: u64) {}

    fn after(&self, _lane: u32, _number: u64) {}
}
