//! A disk: a map from names to bytes as it reads, and for each moment the images that a crash then may leave.

ghost use Rattle.std.specs.Prelude.{◌≡◌, ◌≤◌, ℕ, List, length, OnOk, IsErrOf, IsErr};
ghost use Rattle.disk_trait.specs.Files.{Files, HasShortNames, SameBut};
ghost use Rattle.disk_trait.specs.Disk.{Serves, TicksOnce, Steps, Now, Same, MayMove, MayGo, ToldToNow, IsLeftAsRead};
ghost use Rattle.disk_trait.specs.Calls.{ReadsAt, FindsAt, FillsAt, CountsAt, ListsNames, TellsThere, PutsWhole, MovesFile, DropsFile, WantKeeps, NoneKeeps};
ghost use Rattle.std.specs.IoError.{error_kind};
ghost use Rattle.disk_trait.specs.IoCauses.{cause_of};
ghost use Rattle.disk_trait.specs.declared.disk.DiskError.TheVariants.{NoMemory, Failed as DiskFailed};

use std::alloc::{AllocError, AllocFailed, Global};
use std::io::{self, ErrorKind};
use thiserror::Error;

/// The disk failed, and its count of faults rose.
#[derive(Clone, Copy, Debug, PartialEq, Eq, Error)]
#[error("the disk failed")]
pub struct Failed;

/// What may end a call that takes memory.
#[derive(Clone, Copy, Debug, PartialEq, Eq, Error)]
pub enum DiskError {
    /// The disk failed, and its count of faults rose.
    #[error("the disk failed")]
    Failed,
    #[error("out of memory")]
    NoMemory,
}

impl From<Failed> for DiskError {
    ghost from_gives = { λ _ e. e ≡ DiskFailed };

    fn from(_: Failed) -> Self {
        DiskError::Failed
    }
}

impl From<AllocError> for DiskError {
    ghost from_gives = { λ _ e. e ≡ NoMemory };

    fn from(_: AllocError) -> Self {
        DiskError::NoMemory
    }
}

impl<T: Drop> From<AllocFailed<T>> for DiskError {
    ghost from_gives = { λ _ e. e ≡ NoMemory };

    fn from(_: AllocFailed<T>) -> Self {
        DiskError::NoMemory
    }
}

impl From<io::Error> for Failed {
    fn from(_: io::Error) -> Self {
        Failed
    }
}

impl From<io::Error> for DiskError {
    ghost from_gives = { λ error e. e ≡ cause_of (error_kind error) };

    fn from(error: io::Error) -> Self {
        if error.kind() == ErrorKind::OutOfMemory {
            DiskError::NoMemory
        } else {
            DiskError::Failed
        }
    }
}

/// A map from names of at most 255 bytes to bytes. Every `&mut` call is a moment, and the disk has for each moment the
/// images that a crash then may leave. Its content and its images are told of an honest disk alone; of any disk its
/// counts and the causes of its refusals.
pub trait Disk {
    /// The disk keeps what it is given, and nobody else writes it.
    ghost honest: { Self → Type 0 };

    /// The disk as it reads.
    ghost content: { Self → Files };

    /// The images that a crash at a moment may leave, or might have left.
    ghost images: { Self → ℕ → Files → Type 0 };

    /// The moment: how many calls there were, from any number on.
    ghost calls: { Self → ℕ };

    /// How often the disk has failed.
    ghost faults: { Self → ℕ };

    /// Never falls. On an honest disk it rises by one with each `&mut` call, up to 2^64 - 1; no clause tells of images at
    /// that value.
    fn calls(&self) -> u64
        ensures { result ≡ calls self.now };

    /// Never falls. A call fails only where it rose in that call, or stands at 2^64 - 1.
    fn faults(&self) -> u64
        ensures { result ≡ faults self.now };

    /// The bytes at a name, or `None` where nothing is there.
    fn read(&mut self, alloc: Global, name: &str) -> Result<Option<Vec<u8>>, DiskError>
        ensures serves { Serves honest faults self.old self.new (IsErrOf result DiskError.Failed) }
        ensures tick { TicksOnce honest calls self.old self.new }
        ensures crash { Steps calls images self.old self.new Same }
        ensures same { honest self.old → content self.new ≡ content self.old }
        ensures bytes { ReadsAt honest content self.old name.now result }
        ensures unchanged { IsErrOf result DiskError.NoMemory → faults self.new ≡ faults self.old };

    /// Fills `into` from the front with bytes of a file from an offset: the smaller of its length and what is left, which
    /// is the result. `None` where nothing is at the name, and then `into` stays.
    fn read_part(
        &mut self,
        name: &str,
        offset: u64,
        into: &mut [u8],
    ) -> Result<Option<usize>, Failed>
        ensures serves { Serves honest faults self.old self.new (IsErr result) }
        ensures tick { TicksOnce honest calls self.old self.new }
        ensures crash { Steps calls images self.old self.new Same }
        ensures same { honest self.old → content self.new ≡ content self.old }
        ensures there { FindsAt honest content self.old name.now result }
        ensures bytes { FillsAt honest content self.old name.now offset into.old into.new result };

    /// How many bytes stand at a name, or `None` where nothing is there.
    fn size(&mut self, name: &str) -> Result<Option<u64>, Failed>
        ensures serves { Serves honest faults self.old self.new (IsErr result) }
        ensures tick { TicksOnce honest calls self.old self.new }
        ensures crash { Steps calls images self.old self.new Same }
        ensures same { honest self.old → content self.new ≡ content self.old }
        ensures size { CountsAt honest content self.old name.now result };

    /// The names that begin with a prefix, in byte order.
    fn list(&mut self, alloc: Global, prefix: &str) -> Result<Vec<String>, DiskError>
        ensures serves { Serves honest faults self.old self.new (IsErrOf result DiskError.Failed) }
        ensures tick { TicksOnce honest calls self.old self.new }
        ensures crash { Steps calls images self.old self.new Same }
        ensures same { honest self.old → content self.new ≡ content self.old }
        ensures names { ListsNames honest content self.old prefix.now result }
        ensures unchanged { IsErrOf result DiskError.NoMemory → faults self.new ≡ faults self.old };

    /// Places bytes at a name, in place of what was there. Until a sync, a crash may leave any bytes at the name, or
    /// nothing.
    fn put(&mut self, alloc: Global, name: &str, bytes: &[u8]) -> Result<(), DiskError>
        requires { length name.now ≤ 255 }
        ensures serves { Serves honest faults self.old self.new (IsErrOf result DiskError.Failed) }
        ensures tick { TicksOnce honest calls self.old self.new }
        ensures crash { Steps calls images self.old self.new (SameBut name.now) }
        ensures put { PutsWhole honest content self.old self.new name.now bytes.now result }
        ensures unchanged { WantKeeps honest content calls images faults self.old self.new result };

    /// Moves what stands at `from` to `to`, in place of what was there. Until a sync, it may or may not have happened.
    /// `false` exactly where nothing is at `from`, and then nothing changed.
    fn rename(&mut self, from: &str, to: &str) -> Result<bool, Failed>
        requires { length to.now ≤ 255 }
        ensures serves { Serves honest faults self.old self.new (IsErr result) }
        ensures tick { TicksOnce honest calls self.old self.new }
        ensures crash { Steps calls images self.old self.new (MayMove from.now to.now) }
        ensures there { TellsThere honest content self.old from.now result }
        ensures renamed { MovesFile honest content self.old self.new from.now to.now result }
        ensures unchanged { NoneKeeps honest content calls images faults self.old self.new result };

    /// Removes what stands at a name. Until a sync, it may or may not have happened. `false` exactly where nothing is at
    /// the name, and then nothing changed.
    fn remove(&mut self, name: &str) -> Result<bool, Failed>
        ensures serves { Serves honest faults self.old self.new (IsErr result) }
        ensures tick { TicksOnce honest calls self.old self.new }
        ensures crash { Steps calls images self.old self.new (MayGo name.now) }
        ensures there { TellsThere honest content self.old name.now result }
        ensures removed { DropsFile honest content self.old self.new name.now result }
        ensures unchanged { NoneKeeps honest content calls images faults self.old self.new result };

    /// After Ok, a crash leaves only what is read.
    fn sync(&mut self) -> Result<(), Failed>
        ensures serves { Serves honest faults self.old self.new (IsErr result) }
        ensures tick { TicksOnce honest calls self.old self.new }
        ensures crash { Steps calls images self.old self.new Same }
        ensures same { honest self.old → OnOk result (content self.new ≡ content self.old) }
        ensures durable { OnOk result (Now calls images self.new (λ c. c ≡ content self.new)) };

    /// Images are those of an honest disk, of moments up to now, below the greatest number.
    ghost told: { ToldToNow honest calls images };

    /// The disk as it reads is one of its images.
    ghost as_read: { IsLeftAsRead honest content calls images };

    /// No name has more than 255 bytes, on the disk and in its images.
    ghost short_names: { (d : Self) → honest d → HasShortNames (content d) };

    ghost short_images: { (d : Self) (t : ℕ) (c : Files) → images d t c → HasShortNames c };
}
