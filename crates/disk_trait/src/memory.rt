//! A disk in memory. It keeps what it did, and reads by going back over it.

ghost use Rattle.std.specs.Prelude.{◌≡◌, ◌+◌, ◌-◌, ◌^◌, ℕ, min, OnOk, OnErr, IfOk, ◌≤◌, length};
ghost use Rattle.std.specs.FinMap.{empty};
ghost use Rattle.std.specs.Result.{ForOk};
ghost use Rattle.disk_trait.specs.Files.{Files};
ghost use Rattle.disk_trait.specs.Replay.{played, all_by, all_short, KeepsShort, images_of, IsPut, IsRename, IsRemove};
ghost use Rattle.disk_trait.specs.Timeline.{read_now};
ghost use Rattle.disk_trait.specs.Calls.{filled};
ghost use Rattle.disk_trait.specs.Effects.{IsImage, ReadsAs, IsPlainlyLeft, LeavesOnlyRead};
ghost use Rattle.disk_trait.specs.ShortNames.{short_read, short_left};

use crate::crashes::crash_log;
use crate::names::list_names;
use crate::step_log::{LoggedStep, Step, find};
use crate::{Disk, DiskError, Failed};
use std::alloc::{AllocError, Global};

/// An honest disk in memory, on which nothing else writes. It records each step that it does; where the record can't grow,
/// a put is refused for want of memory, and a rename, a removal or a sync fails and counts.
#[derive(Drop)]
pub struct MemoryDisk {
    alloc: Global,
    log: Vec<LoggedStep>,
    calls: u64,
    faults: u64,
    ghost done: { all_by calls log.items },
    ghost short: { all_short log.items },
}

impl MemoryDisk {
    ghost use Rattle.disk_trait.specs.Recorded.{steps_of, crashed_by, RecordsStep};

    /// An empty disk, on which nothing else was.
    pub fn new(alloc: Global) -> Self
        ensures honest { ⟦<MemoryDisk as Disk>⟧.honest result }
        ensures empty { ⟦<MemoryDisk as Disk>⟧.content result ≡ empty }
        ensures firm { (t : ℕ) (c : Files) → ⟦<MemoryDisk as Disk>⟧.images result t c → c ≡ empty }
        ensures calls { ⟦<MemoryDisk as Disk>⟧.calls result ≡ 0 }
        ensures faults { ⟦<MemoryDisk as Disk>⟧.faults result ≡ 0 }
    {
        MemoryDisk {
            alloc,
            log: Vec::new(alloc),
            calls: 0,
            faults: 0,
        }
    }

    /// Each put, rename, removal and sync that it has done, with the moment from which it counts.
    pub fn steps(&self) -> &[LoggedStep]
        ensures steps { result.now ≡ steps_of self.now }
        ensures content { ⟦<MemoryDisk as Disk>⟧.content self.now ≡ played empty result.now }
    {
        self.log.as_slice()
    }

    /// What a crash leaves, on a disk of its own on which nothing else was. Choice 0: as after the last sync, 2: as it
    /// reads, but each name put since the last sync, under its present name, is cut to half, and no removal is done. Any
    /// other: as it reads.
    pub fn crashed(&self, alloc: Global, choice: u8) -> Result<MemoryDisk, AllocError>
        ensures image { IsImage ⟦<MemoryDisk as Disk>⟧ self.now result }
        ensures left { IfOk result (ReadsAs ⟦<MemoryDisk as Disk>⟧ (crashed_by choice self.now)) }
        ensures as_read { IsPlainlyLeft ⟦<MemoryDisk as Disk>⟧ choice self.now result }
        ensures firm { IfOk result (LeavesOnlyRead ⟦<MemoryDisk as Disk>⟧) }
        ensures calls { IfOk result (λ left. ⟦<MemoryDisk as Disk>⟧.calls left ≡ 0) }
        ensures faults { IfOk result (λ left. ⟦<MemoryDisk as Disk>⟧.faults left ≡ 0) }
    {
        Ok(MemoryDisk {
            alloc,
            log: crash_log(alloc, &self.log, choice)?,
            calls: 0,
            faults: 0,
        })
    }

    fn tick(&mut self)
        ensures calls { self.new.calls ≡ min (self.old.calls + 1) (2 ^ 64 - 1) }
        ensures later { self.old.calls ≤ self.new.calls }
        ensures log { self.new.log.items ≡ self.old.log.items }
        ensures faults { self.new.faults ≡ self.old.faults }
    {
        self.calls = self.calls.saturating_add(1);
    }

    fn fail(&mut self)
        ensures calls { self.new.calls ≡ self.old.calls }
        ensures log { self.new.log.items ≡ self.old.log.items }
        ensures faults { self.new.faults ≡ min (self.old.faults + 1) (2 ^ 64 - 1) }
        ensures more { self.old.faults ≤ self.new.faults }
    {
        self.faults = self.faults.saturating_add(1);
    }

    // Does a step, where there is memory for it. A moment passes in any case.
    fn record(&mut self, step: Result<Step, AllocError>) -> Result<(), AllocError>
        requires { ForOk step KeepsShort }
        ensures calls { self.new.calls ≡ min (self.old.calls + 1) (2 ^ 64 - 1) }
        ensures later { self.old.calls ≤ self.new.calls }
        ensures faults { self.new.faults ≡ self.old.faults }
        ensures ok { OnOk result (RecordsStep self.old self.new step) }
        ensures err { OnErr result (self.new.log.items ≡ self.old.log.items) }
    {
        self.tick();
        let logged = LoggedStep {
            at: self.calls,
            step: step?,
        };
        self.log.push(logged)?;
        Ok(())
    }

    fn record_or_fail(&mut self, step: Result<Step, AllocError>) -> Result<(), Failed>
        requires { ForOk step KeepsShort }
        ensures calls { self.new.calls ≡ min (self.old.calls + 1) (2 ^ 64 - 1) }
        ensures later { self.old.calls ≤ self.new.calls }
        ensures faults { self.old.faults ≤ self.new.faults }
        ensures ok { OnOk result (RecordsStep self.old self.new step) }
        ensures err { OnErr result (self.new.log.items ≡ self.old.log.items) }
        ensures cause { OnErr result (self.new.faults ≡ min (self.old.faults + 1) (2 ^ 64 - 1)) }
    {
        match self.record(step) {
            Ok(()) => Ok(()),
            Err(AllocError) => {
                self.fail();
                Err(Failed)
            }
        }
    }
}

fn put_step(alloc: Global, name: &str, bytes: &[u8]) -> Result<Step, AllocError>
    ensures { IfOk result (λ s. IsPut s name.now bytes.now) }
{
    Ok(Step::Put {
        name: String::from_str(alloc, name)?,
        bytes: bytes.to_vec(alloc)?,
    })
}

fn rename_step(alloc: Global, from: &str, to: &str) -> Result<Step, AllocError>
    ensures { IfOk result (λ s. IsRename s from.now to.now) }
{
    Ok(Step::Rename {
        from: String::from_str(alloc, from)?,
        to: String::from_str(alloc, to)?,
    })
}

fn remove_step(alloc: Global, name: &str) -> Result<Step, AllocError>
    ensures { IfOk result (λ s. IsRemove s name.now) }
{
    Ok(Step::Remove {
        name: String::from_str(alloc, name)?,
    })
}

impl Disk for MemoryDisk {
    ghost honest = { λ _. Unit {0} };

    ghost content = { λ d. played empty d.log.items };

    ghost images = { λ d. images_of d.calls d.log.items };

    ghost calls = { λ d. d.calls };

    ghost faults = { λ d. d.faults };

    ghost told = { λ d t c i. (tt, i.0, i.1) };

    ghost as_read = { λ d _ below. read_now d.calls d.log.items d.done below };

    ghost short_names = { λ d _. short_read d.log.items d.short };

    ghost short_images = { λ d t c i. short_left d.calls d.log.items d.short t c i };

    fn calls(&self) -> u64 {
        self.calls
    }

    fn faults(&self) -> u64 {
        self.faults
    }

    fn read(&mut self, alloc: Global, name: &str) -> Result<Option<Vec<u8>>, DiskError> {
        self.tick();
        match find(&self.log, name) {
            Some(bytes) => Ok(Some(bytes.to_vec(alloc)?)),
            None => Ok(None),
        }
    }

    fn read_part(
        &mut self,
        name: &str,
        offset: u64,
        into: &mut [u8],
    ) -> Result<Option<usize>, Failed> {
        self.tick();
        match find(&self.log, name) {
            Some(bytes) => Ok(Some(copy_part(bytes, offset, into))),
            None => Ok(None),
        }
    }

    fn size(&mut self, name: &str) -> Result<Option<u64>, Failed> {
        self.tick();
        match find(&self.log, name) {
            Some(bytes) => Ok(Some(bytes.len() as u64)),
            None => Ok(None),
        }
    }

    fn list(&mut self, alloc: Global, prefix: &str) -> Result<Vec<String>, DiskError> {
        self.tick();
        Ok(list_names(alloc, &self.log, prefix)?)
    }

    fn put(&mut self, alloc: Global, name: &str, bytes: &[u8]) -> Result<(), DiskError> {
        self.record(put_step(alloc, name, bytes))?;
        Ok(())
    }

    fn rename(&mut self, from: &str, to: &str) -> Result<bool, Failed> {
        if let None = find(&self.log, from) {
            self.tick();
            return Ok(false);
        }
        self.record_or_fail(rename_step(self.alloc, from, to))?;
        Ok(true)
    }

    fn remove(&mut self, name: &str) -> Result<bool, Failed> {
        if let None = find(&self.log, name) {
            self.tick();
            return Ok(false);
        }
        self.record_or_fail(remove_step(self.alloc, name))?;
        Ok(true)
    }

    fn sync(&mut self) -> Result<(), Failed> {
        self.record_or_fail(Ok(Step::Sync))?;
        Ok(())
    }
}

// Copies bytes of a file from an offset, as many as there are and go in.
fn copy_part(bytes: &[u8], offset: u64, into: &mut [u8]) -> usize
    ensures count { result ≡ min (length into.old) (length bytes.now - offset) }
    ensures copied { into.new ≡ filled bytes.now offset into.old }
{
    if offset >= bytes.len() as u64 {
        return 0;
    }
    let rest = &bytes[offset as usize..];
    let count = rest.len().min(into.len());
    into[..count].copy_from_slice(&rest[..count]);
    count
}
