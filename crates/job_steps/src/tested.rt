//! A part that a thread has tested.

ghost use Rattle.std.specs.Prelude.{◌≡◌, None};
ghost use Rattle.job_steps.specs.FaultRows.{IsFitFault};
ghost use Rattle.job_steps.specs.Waits.{fault_with};

use crate::part::Part;
use std::snapshot::Snapshot;
use std::thread::Promise;
use wire_commands::FileFault;

/// The part's room, and the fault of its first chunk that is damaged.
#[derive(Drop)]
pub struct Tested {
    pub room: Part,
    pub fault: Option<FileFault>,
    ghost fits: { IsFitFault fault },
}

/// The part as it was handed over, for what its thread is to tell. It has no bytes.
#[derive(Drop)]
pub struct TestOf(pub Snapshot<Part>);

impl Promise<Tested> for TestOf {
    ghost kept_by = { λ p tested. tested.fault ≡ fault_with None p.0.value.chunks.items };
}
