//! A datastore and the remote as a scenario goes on, line by line.

use crate::bytes::bytes_of;
use crate::checked::Checked;
use crate::checks::holds;
use crate::differs::Differs;
use crate::plan::Plan;
use crate::session::{Disks, Left, copy_of, copy_of_remote};
use crate::stops::{Found, Sweep, Whole};
use crate::words::{number_of, same, split};
use crate::woven::{Compared, serve_compared};
use disk_trait::{Disk, MemoryDisk};
use std::alloc::{AllocError, Global};
use std::mem;
use std::sync::Wait;
use std::thread::Threads;

/// What stands, and what is planned. Lines speak of one disk, the datastore's at first.
#[derive(Drop)]
pub struct Stage {
    pub alloc: Global,
    /// The scenario's name.
    pub name: String,
    pub disk: MemoryDisk,
    /// The other disk: the remote's, where there is one, or the datastore's, while lines speak of the remote's.
    pub other: Option<MemoryDisk>,
    is_there: bool,
    plan: Plan,
    /// What may be found behind it, where its disk stops. Lines speak of the last of them.
    sweep: Sweep,
    /// What the last session left.
    left: Option<Left>,
    /// The last run that was checked.
    checked: Option<Checked>,
    /// A line of the scenario did not hold.
    pub has_differed: bool,
    /// Disks that earlier scenarios of the file left for later ones, by name.
    kept: Vec<(String, MemoryDisk)>,
}

/// A file's name, which may have any letters.
pub fn name_of(alloc: Global, text: &str) -> Result<String, Differs> {
    match String::from_utf8(bytes_of(alloc, text)?) {
        Ok(name) => Ok(name),
        Err(_) => Err(Differs::Unread),
    }
}

impl Stage {
    /// An empty datastore without a remote.
    pub fn new(alloc: Global, name: &str) -> Result<Stage, AllocError> {
        let name = String::from_str(alloc, name)?;
        let plan = Plan::new(alloc)?;
        Ok(Stage {
            alloc,
            name,
            disk: MemoryDisk::new(alloc),
            other: None,
            is_there: false,
            plan,
            sweep: Sweep::new(alloc),
            left: None,
            checked: None,
            has_differed: false,
            kept: Vec::new(alloc),
        })
    }

    /// Another scenario begins, with an empty datastore and without a remote.
    pub fn begin_scenario(&mut self, name: &str) -> Result<(), AllocError> {
        let mut next = Stage::new(self.alloc, name)?;
        next.kept = mem::replace(&mut self.kept, Vec::new(self.alloc));
        drop(mem::replace(self, next));
        Ok(())
    }

    /// Does what a line says, or tests it.
    pub fn obey<R: Threads + Wait + Sync>(
        &mut self,
        rt: &R,
        number: usize,
        line: &str,
    ) -> Result<(), Differs> {
        let (word, rest) = split(line);
        match word.as_bytes() {
            b"ends" => self.serve(rt, rest),
            b"checks" => self.check(rt, rest),
            b"checked" | b"changed" | b"reordered" => self.check_again(rt, word, rest),
            b"sweep" => self.sweep(rt, number_of(rest)?),
            _ => self.prepare(number, word, rest),
        }
    }

    /// Does what a line says of the disks.
    fn prepare(&mut self, number: usize, word: &str, rest: &str) -> Result<(), Differs> {
        match word.as_bytes() {
            b"put" => self.put(rest),
            b"gone" => self.remove(rest),
            b"there" => self.turn(true),
            b"here" => self.turn(false),
            b"crash" => self.crash(rest),
            b"keep" => self.keep(rest),
            b"from" => self.begin(rest),
            b"found" => self.find(number, rest),
            b"name" => self.add_name(rest),
            b"whole" => self.leave(number, rest),
            _ => self.plan_or_test(number, word, rest),
        }
    }

    fn plan_or_test(&mut self, number: usize, word: &str, rest: &str) -> Result<(), Differs> {
        if self.next_plan().obey(number, word, rest)? {
            return Ok(());
        }
        let Some(left) = self.left.take() else {
            return Err(Differs::Unread);
        };
        let ended = holds(self, &left, word, rest);
        self.left = Some(left);
        ended
    }

    /// The session that lines speak of.
    fn next_plan(&mut self) -> &mut Plan {
        match self.sweep.founds.last_mut() {
            Some(found) => &mut found.plan,
            None => &mut self.plan,
        }
    }

    fn put(&mut self, text: &str) -> Result<(), Differs> {
        let (name, bytes) = split(text);
        let name = name_of(self.alloc, name)?;
        let bytes = bytes_of(self.alloc, bytes)?;
        if name.len() > 255 {
            return Err(Differs::Unread);
        }
        self.disk.put(self.alloc, name.as_str(), &bytes)?;
        Ok(())
    }

    fn remove(&mut self, text: &str) -> Result<(), Differs> {
        let name = name_of(self.alloc, text)?;
        if self.disk.remove(name.as_str())? {
            return Ok(());
        }
        Err(Differs::Unread)
    }

    /// Lines speak of the remote from here on, or of the datastore.
    fn turn(&mut self, is_there: bool) -> Result<(), Differs> {
        if self.is_there == is_there {
            return Err(Differs::Unread);
        }
        let other = self.other.take().unwrap_or(MemoryDisk::new(self.alloc));
        self.other = Some(mem::replace(&mut self.disk, other));
        self.is_there = is_there;
        Ok(())
    }

    fn crash(&mut self, text: &str) -> Result<(), Differs> {
        match u8::try_from(number_of(text)?) {
            Ok(choice) if choice < 3 => self.disk = self.disk.crashed(self.alloc, choice)?,
            _ => return Err(Differs::Unread),
        }
        Ok(())
    }

    fn keep(&mut self, name: &str) -> Result<(), Differs> {
        let disk = copy_of(self.alloc, &self.disk)?;
        let name = String::from_str(self.alloc, name)?;
        self.kept.push((name, disk))?;
        Ok(())
    }

    /// A copy of the first disk that was kept so.
    fn copy_kept(&self, name: &str) -> Result<MemoryDisk, Differs> {
        for (known, disk) in &self.kept {
            if known.as_str() == name {
                return Ok(copy_of(self.alloc, disk)?);
            }
        }
        Err(Differs::Unread)
    }

    fn begin(&mut self, name: &str) -> Result<(), Differs> {
        self.disk = self.copy_kept(name)?;
        Ok(())
    }

    fn find(&mut self, line: usize, text: &str) -> Result<(), Differs> {
        let found = Found::new(self.alloc, line, text)?;
        self.sweep.founds.push(found)?;
        Ok(())
    }

    fn add_name(&mut self, text: &str) -> Result<(), Differs> {
        let name = String::from_str(self.alloc, text)?;
        match self.sweep.founds.last_mut() {
            Some(found) => found.names.push(name)?,
            None => return Err(Differs::Unread),
        }
        Ok(())
    }

    /// A crash may leave this file, of this size.
    fn leave(&mut self, line: usize, text: &str) -> Result<(), Differs> {
        let (name, size) = split(text);
        let name = name_of(self.alloc, name)?;
        let size = number_of(size)?;
        self.sweep.wholes.push(Whole {
            line,
            name,
            size,
            is_left: false,
        })?;
        Ok(())
    }

    /// Stops the session that is planned at each of its calls.
    fn sweep<R: Threads + Wait + Sync>(&mut self, rt: &R, calls: u64) -> Result<(), Differs> {
        let alloc = self.alloc;
        let disk = copy_of(alloc, &self.disk)?;
        let mut plan = mem::replace(&mut self.plan, Plan::new(alloc)?);
        let mut sweep = mem::replace(&mut self.sweep, Sweep::new(alloc));
        let remote = self.other.take();
        let tried = sweep.try_calls(rt, alloc, &mut plan, &Disks { disk, remote }, calls);
        drop(plan);
        drop(sweep);
        tried
    }

    /// The datastore, and the remote if any; or the remote alone, while lines speak of it.
    fn take_disks(&mut self) -> Disks {
        let disk = mem::replace(&mut self.disk, MemoryDisk::new(self.alloc));
        let remote = if self.is_there {
            None
        } else {
            self.other.take()
        };
        Disks { disk, remote }
    }

    /// Copies of these, as they read.
    fn copy_disks(&self) -> Result<Disks, AllocError> {
        let disk = copy_of(self.alloc, &self.disk)?;
        let remote = if self.is_there {
            None
        } else {
            copy_of_remote(self.alloc, &self.other)?
        };
        Ok(Disks { disk, remote })
    }

    /// Goes on with what was served.
    fn go_on(&mut self, compared: Compared) {
        let Compared {
            left,
            disks,
            checked,
        } = compared;
        self.disk = disks.disk;
        if disks.remote.is_some() {
            self.other = disks.remote;
        }
        self.left = Some(left);
        self.checked = Some(checked);
    }

    /// Serves what is planned on these disks. Goes on with what was served, where it ended so.
    fn serve_once<R: Threads + Wait + Sync>(
        &mut self,
        rt: &R,
        plan: &Plan,
        disks: Disks,
        ended: &str,
    ) -> Result<Result<(), Differs>, Differs> {
        let compared = serve_compared(rt, self.alloc, plan, disks)?;
        let holds = compared.left.compare(self.alloc, plan, ended);
        if holds.is_ok() {
            self.go_on(compared);
        } else {
            drop(compared);
        }
        Ok(holds)
    }

    /// Serves what is planned. Where it is to be tried more than once, so on copies, until what is wanted comes about.
    fn serve_tries<R: Threads + Wait + Sync>(
        &mut self,
        rt: &R,
        plan: &Plan,
        ended: &str,
    ) -> Result<(), Differs> {
        for _ in 1..plan.tries {
            let disks = self.copy_disks()?;
            if self.serve_once(rt, plan, disks, ended)?.is_ok() {
                return Ok(());
            }
        }
        let disks = self.take_disks();
        self.serve_once(rt, plan, disks, ended)?
    }

    /// Serves what is planned, and plans anew.
    fn serve<R: Threads + Wait + Sync>(&mut self, rt: &R, ended: &str) -> Result<(), Differs> {
        let plan = mem::replace(&mut self.plan, Plan::new(self.alloc)?);
        let served = self.serve_tries(rt, &plan, ended);
        drop(plan);
        served
    }

    /// Checks a run that is planned, of which the replies that are wanted were kept.
    fn check<R: Threads + Wait + Sync>(&mut self, rt: &R, wanted: &str) -> Result<(), Differs> {
        let alloc = self.alloc;
        let disks = self.copy_disks()?;
        let plan = mem::replace(&mut self.plan, Plan::new(alloc)?);
        let checked = Checked::planned(rt, alloc, disks, &plan);
        drop(plan);
        let checked = checked?;
        let told = checked.told.clone()?;
        self.checked = Some(checked);
        same(told, wanted)
    }

    /// What the last check told, and what it tells with each byte of its files another, and with each entry of its order elsewhere.
    fn check_again<R: Threads + Wait + Sync>(
        &mut self,
        rt: &R,
        word: &str,
        wanted: &str,
    ) -> Result<(), Differs> {
        let Some(checked) = &mut self.checked else {
            return Err(Differs::Unread);
        };
        let told = match word.as_bytes() {
            b"changed" => checked.check_bytes(rt, self.alloc)?,
            b"reordered" => checked.check_entries(rt, self.alloc)?,
            _ => checked.told.clone()?,
        };
        same(told, wanted)
    }
}
