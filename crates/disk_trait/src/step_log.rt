//! What a disk in memory has done, and how a file is found in it.

ghost use Rattle.std.specs.Prelude.{◌≡◌};
ghost use Rattle.std.specs.FinMap.{get};
ghost use Rattle.disk_trait.specs.Files.{Files};
ghost use Rattle.disk_trait.specs.Replay.{done};
ghost use Rattle.disk_trait.specs.Traced.{traced, IsFound};

/// What a disk has done.
#[derive(Debug, Drop)]
pub enum Step {
    Put { name: String, bytes: Vec<u8> },
    Rename { from: String, to: String },
    Remove { name: String },
    Sync,
}

/// A step, and the moment from which it had been done.
#[derive(Debug, Drop)]
pub struct LoggedStep {
    pub at: u64,
    pub step: Step,
}

// What stands at a name after a step: these bytes, nothing, or what stood at a name before it.
pub enum Trace<'a> {
    Bytes(&'a [u8]),
    Nothing,
    Name(&'a str),
}

#[tactic(auto, using(crate::specs::Replayed::steps))]
pub fn trace_back<'a>(step: &'a Step, name: &'a str) -> Trace<'a>
    ensures { (files : Files) → get (done files step.now) name.now ≡ traced files result }
{
    match step {
        Step::Put { name: put, bytes } => {
            if name == put.as_str() {
                Trace::Bytes(bytes.as_slice())
            } else {
                Trace::Name(name)
            }
        }
        Step::Rename { from, to } => {
            if name == to.as_str() {
                Trace::Name(from.as_str())
            } else if name == from.as_str() {
                Trace::Nothing
            } else {
                Trace::Name(name)
            }
        }
        Step::Remove { name: gone } => {
            if name == gone.as_str() {
                Trace::Nothing
            } else {
                Trace::Name(name)
            }
        }
        Step::Sync => Trace::Name(name),
    }
}

pub fn find<'a>(log: &'a [LoggedStep], name: &'a str) -> Option<&'a [u8]>
    ensures { IsFound log.now name.now result }
{
    let mut wanted = name;
    let mut left = log.len();
    while left > 0 {
        left -= 1;
        match trace_back(&log[left].step, wanted) {
            Trace::Bytes(bytes) => return Some(bytes),
            Trace::Nothing => return None,
            Trace::Name(before) => wanted = before,
        }
    }
    None
}
