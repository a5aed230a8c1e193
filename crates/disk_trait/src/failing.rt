//! A disk that fails on purpose, over another.

ghost use Rattle.std.specs.Prelude.{◌≡◌, ◌<◌, ◌≤◌, ◌+◌, ◌-◌, ◌^◌, ◌↔◌, min, ℕ, List, length, OnOk, IsErrOf, IsErr};
ghost use Rattle.disk_trait.specs.Files.{SameBut};
ghost use Rattle.disk_trait.specs.Disk.{Rose, TicksOnce, Same, MayMove, MayGo};
ghost use Rattle.disk_trait.specs.Calls.{ReadsAt, FindsAt, CountsAt, ListsNames, WantKeepsFaults};
ghost use Rattle.disk_trait.specs.Effects.{StepsOn, SameContent, OkKeepsContent, IsDurable, DiskFills, DiskTells, DiskPuts, Renames, DiskDrops, DiskWantKeeps, DiskNoneKeeps};
ghost use Rattle.disk_trait.specs.FailurePlan.{fails_at};

use crate::{Disk, DiskError, Failed};
use std::alloc::Global;

// Which calls fail, the first having the number 0.
#[derive(Drop)]
enum Plan {
    Calls(Vec<u64>),
    // All after so many.
    StopAfter(u64),
}

#[derive(Drop)]
struct Schedule {
    plan: Plan,
    // How many calls there were.
    made: u64,
}

impl Schedule {
    // Whether the next call fails. Counts it.
    fn is_failing(&mut self) -> bool
        ensures fails { result ≡ fails_at self.old.plan self.old.made }
        ensures made { self.new.made ≡ min (self.old.made + 1) (2 ^ 64 - 1) }
        ensures plan { self.new.plan ≡ self.old.plan }
    {
        let number = self.made;
        self.made = self.made.saturating_add(1);
        match &self.plan {
            Plan::Calls(numbers) => numbers.contains(&number),
            Plan::StopAfter(count) => number >= *count,
        }
    }
}

/// A disk over another that fails the calls of a plan. A call that fails so is not made on the disk below, where only a
/// moment passes; every other is.
#[derive(Drop)]
pub struct FailingDisk<D: Disk + Drop> {
    inner: D,
    schedule: Schedule,
    failed: u64,
}

// A call that changes nothing. It lets a moment pass.
fn pass<D: Disk>(disk: &mut D)
    ensures kept { D.honest disk.old ↔ D.honest disk.new }
    ensures count { D.faults disk.old ≤ D.faults disk.new }
    ensures tick { TicksOnce D.honest D.calls disk.old disk.new }
    ensures crash { StepsOn D.Disk disk.old disk.new Same }
    ensures same { SameContent D.Disk disk.old disk.new }
{
    let _ = disk.size("");
}

impl<D: Disk + Drop> FailingDisk<D> {
    ghost use Rattle.disk_trait.specs.Planned.{plan_is, made_by, own_faults, all_faults, below};
    ghost use Rattle.disk_trait.specs.declared.failing.Plan.TheVariants.{Calls, StopAfter};

    /// Fails the calls with these numbers, the first call being 0.
    pub fn at_calls(inner: D, numbers: Vec<u64>) -> Self
        ensures plan { plan_is result ≡ Calls numbers }
        ensures made { made_by result ≡ 0 }
        ensures own { own_faults result ≡ 0 }
        ensures below { below result ≡ inner }
    {
        FailingDisk::planned(inner, Plan::Calls(numbers))
    }

    /// Stops after so many calls: every later one fails.
    pub fn stopping_after(inner: D, count: u64) -> Self
        ensures plan { plan_is result ≡ StopAfter count }
        ensures made { made_by result ≡ 0 }
        ensures own { own_faults result ≡ 0 }
        ensures below { below result ≡ inner }
    {
        FailingDisk::planned(inner, Plan::StopAfter(count))
    }

    fn planned(inner: D, plan: Plan) -> Self
        ensures plan { plan_is result ≡ plan }
        ensures made { made_by result ≡ 0 }
        ensures own { own_faults result ≡ 0 }
        ensures below { below result ≡ inner }
    {
        FailingDisk {
            inner,
            schedule: Schedule { plan, made: 0 },
            failed: 0,
        }
    }

    /// The disk below.
    pub fn into_inner(self) -> D
        ensures { result ≡ below self }
    {
        self.inner
    }

    // Fails a planned call.
    fn fail(&mut self)
        ensures kept { D.honest self.old.inner ↔ D.honest self.new.inner }
        ensures count { all_faults D.Disk self.old ≤ all_faults D.Disk self.new }
        ensures rose { Rose (all_faults D.Disk self.old) (all_faults D.Disk self.new) }
        ensures own { self.new.failed ≡ min (self.old.failed + 1) (2 ^ 64 - 1) }
        ensures schedule { self.new.schedule ≡ self.old.schedule }
        ensures tick { TicksOnce D.honest D.calls self.old.inner self.new.inner }
        ensures crash { StepsOn D.Disk self.old.inner self.new.inner Same }
        ensures same { SameContent D.Disk self.old.inner self.new.inner }
    {
        pass(&mut self.inner);
        self.failed = self.failed.saturating_add(1);
    }
}

impl<D: Disk + Drop> Disk for FailingDisk<D> {
    ghost use Rattle.disk_trait.specs.Planned.{Follows, ServesOver, PlanKeepsContent, PlanKeepsFiles, below};

    ghost honest = { λ d. D.honest d.inner };

    ghost content = { λ d. D.content d.inner };

    ghost images = { λ d. D.images d.inner };

    ghost calls = { λ d. D.calls d.inner };

    ghost faults = { λ d. min (D.faults d.inner + d.failed) (2 ^ 64 - 1) };

    ghost told = { λ d t c i. D.told d.inner t c i };

    ghost as_read = { λ d h below. D.as_read d.inner h below };

    ghost short_names = { λ d h. D.short_names d.inner h };

    ghost short_images = { λ d t c i. D.short_images d.inner t c i };

    fn calls(&self) -> u64 {
        self.inner.calls()
    }

    fn faults(&self) -> u64 {
        self.inner.faults().saturating_add(self.failed)
    }

    fn read(&mut self, alloc: Global, name: &str) -> Result<Option<Vec<u8>>, DiskError>
        ensures serves { ServesOver D.Disk self.old self.new (IsErrOf result DiskError.Failed) }
        ensures tick { TicksOnce D.honest D.calls (below self.old) (below self.new) }
        ensures crash { StepsOn D.Disk (below self.old) (below self.new) Same }
        ensures same { SameContent D.Disk (below self.old) (below self.new) }
        ensures bytes { ReadsAt D.honest D.content (below self.old) name.now result }
        ensures unchanged { WantKeepsFaults D.faults (below self.old) (below self.new) result }
        ensures plan { Follows D.faults self.old self.new (IsErrOf result DiskError.Failed) }
    {
        if self.schedule.is_failing() {
            self.fail();
            return Err(DiskError::Failed);
        }
        self.inner.read(alloc, name)
    }

    fn read_part(
        &mut self,
        name: &str,
        offset: u64,
        into: &mut [u8],
    ) -> Result<Option<usize>, Failed>
        ensures serves { ServesOver D.Disk self.old self.new (IsErr result) }
        ensures tick { TicksOnce D.honest D.calls (below self.old) (below self.new) }
        ensures crash { StepsOn D.Disk (below self.old) (below self.new) Same }
        ensures same { SameContent D.Disk (below self.old) (below self.new) }
        ensures there { FindsAt D.honest D.content (below self.old) name.now result }
        ensures bytes { DiskFills D.Disk (below self.old) name.now offset into.old into.new result }
        ensures plan { Follows D.faults self.old self.new (IsErr result) }
    {
        if self.schedule.is_failing() {
            self.fail();
            return Err(Failed);
        }
        self.inner.read_part(name, offset, into)
    }

    fn size(&mut self, name: &str) -> Result<Option<u64>, Failed>
        ensures serves { ServesOver D.Disk self.old self.new (IsErr result) }
        ensures tick { TicksOnce D.honest D.calls (below self.old) (below self.new) }
        ensures crash { StepsOn D.Disk (below self.old) (below self.new) Same }
        ensures same { SameContent D.Disk (below self.old) (below self.new) }
        ensures size { CountsAt D.honest D.content (below self.old) name.now result }
        ensures plan { Follows D.faults self.old self.new (IsErr result) }
    {
        if self.schedule.is_failing() {
            self.fail();
            return Err(Failed);
        }
        self.inner.size(name)
    }

    fn list(&mut self, alloc: Global, prefix: &str) -> Result<Vec<String>, DiskError>
        ensures serves { ServesOver D.Disk self.old self.new (IsErrOf result DiskError.Failed) }
        ensures tick { TicksOnce D.honest D.calls (below self.old) (below self.new) }
        ensures crash { StepsOn D.Disk (below self.old) (below self.new) Same }
        ensures same { SameContent D.Disk (below self.old) (below self.new) }
        ensures names { ListsNames D.honest D.content (below self.old) prefix.now result }
        ensures unchanged { WantKeepsFaults D.faults (below self.old) (below self.new) result }
        ensures plan { Follows D.faults self.old self.new (IsErrOf result DiskError.Failed) }
    {
        if self.schedule.is_failing() {
            self.fail();
            return Err(DiskError::Failed);
        }
        self.inner.list(alloc, prefix)
    }

    fn put(&mut self, alloc: Global, name: &str, bytes: &[u8]) -> Result<(), DiskError>
        requires { length name.now ≤ 255 }
        ensures serves { ServesOver D.Disk self.old self.new (IsErrOf result DiskError.Failed) }
        ensures tick { TicksOnce D.honest D.calls (below self.old) (below self.new) }
        ensures crash { StepsOn D.Disk (below self.old) (below self.new) (SameBut name.now) }
        ensures put { DiskPuts D.Disk (below self.old) (below self.new) name.now bytes.now result }
        ensures unchanged { DiskWantKeeps D.Disk (below self.old) (below self.new) result }
        ensures plan { Follows D.faults self.old self.new (IsErrOf result DiskError.Failed) }
        ensures not_made { PlanKeepsFiles D.Disk self.old self.new }
    {
        if self.schedule.is_failing() {
            self.fail();
            return Err(DiskError::Failed);
        }
        self.inner.put(alloc, name, bytes)
    }

    fn rename(&mut self, from: &str, to: &str) -> Result<bool, Failed>
        requires { length to.now ≤ 255 }
        ensures serves { ServesOver D.Disk self.old self.new (IsErr result) }
        ensures tick { TicksOnce D.honest D.calls (below self.old) (below self.new) }
        ensures crash { StepsOn D.Disk (below self.old) (below self.new) (MayMove from.now to.now) }
        ensures there { DiskTells D.Disk (below self.old) from.now result }
        ensures renamed { Renames D.Disk (below self.old) (below self.new) from.now to.now result }
        ensures unchanged { DiskNoneKeeps D.Disk (below self.old) (below self.new) result }
        ensures plan { Follows D.faults self.old self.new (IsErr result) }
        ensures not_made { PlanKeepsFiles D.Disk self.old self.new }
    {
        if self.schedule.is_failing() {
            self.fail();
            return Err(Failed);
        }
        self.inner.rename(from, to)
    }

    fn remove(&mut self, name: &str) -> Result<bool, Failed>
        ensures serves { ServesOver D.Disk self.old self.new (IsErr result) }
        ensures tick { TicksOnce D.honest D.calls (below self.old) (below self.new) }
        ensures crash { StepsOn D.Disk (below self.old) (below self.new) (MayGo name.now) }
        ensures there { DiskTells D.Disk (below self.old) name.now result }
        ensures removed { DiskDrops D.Disk (below self.old) (below self.new) name.now result }
        ensures unchanged { DiskNoneKeeps D.Disk (below self.old) (below self.new) result }
        ensures plan { Follows D.faults self.old self.new (IsErr result) }
        ensures not_made { PlanKeepsFiles D.Disk self.old self.new }
    {
        if self.schedule.is_failing() {
            self.fail();
            return Err(Failed);
        }
        self.inner.remove(name)
    }

    fn sync(&mut self) -> Result<(), Failed>
        ensures serves { ServesOver D.Disk self.old self.new (IsErr result) }
        ensures tick { TicksOnce D.honest D.calls (below self.old) (below self.new) }
        ensures crash { StepsOn D.Disk (below self.old) (below self.new) Same }
        ensures same { OkKeepsContent D.Disk (below self.old) (below self.new) result }
        ensures durable { OnOk result (IsDurable D.Disk (below self.new)) }
        ensures plan { Follows D.faults self.old self.new (IsErr result) }
        ensures not_made { PlanKeepsContent D.Disk self.old self.new }
    {
        if self.schedule.is_failing() {
            self.fail();
            return Err(Failed);
        }
        self.inner.sync()
    }
}
