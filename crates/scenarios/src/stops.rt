//! A session whose disk fails at each of its calls, alone and with all behind it: what a crash of each kind leaves, and what a later
//! session finds there.

use crate::bytes::shown;
use crate::checks::first_other;
use crate::differs::Differs;
use crate::plan::Plan;
use crate::session::{Disks, Left, copy_of_remote, serve_plan};
use crate::words::{number_of, same, split, text_of};
use disk_trait::{Disk, MemoryDisk};
use std::alloc::{AllocError, Global};
use std::sync::Wait;
use std::thread::Threads;

/// What a later session is told, and the names of the files beside chunks, in byte order; from how many acts that were done on, and
/// up to how many.
#[derive(Drop)]
pub struct Found {
    line: usize,
    pub plan: Plan,
    pub names: Vec<String>,
    since: u64,
    until: u64,
    /// It was found.
    is_met: bool,
}

/// A file that a crash may leave, by the line that says so.
#[derive(Drop)]
pub struct Whole {
    pub line: usize,
    pub name: String,
    pub size: u64,
    pub is_left: bool,
}

impl Found {
    /// By a line `found SINCE UNTIL`.
    pub fn new(alloc: Global, line: usize, text: &str) -> Result<Found, Differs> {
        let (since, until) = split(text);
        Ok(Found {
            line,
            plan: Plan::new(alloc)?,
            names: Vec::new(alloc),
            since: number_of(since)?,
            until: number_of(until)?,
            is_met: false,
        })
    }

    /// It may be found where so many acts were done, and so many begun.
    fn fits(&self, acts: Acts) -> bool {
        self.since <= acts.begun && acts.done < self.until
    }
}

/// What may be found behind a crash, and the files beside temporary ones that it may leave: any, where none is named. Each of both
/// comes about.
#[derive(Drop)]
pub struct Sweep {
    pub founds: Vec<Found>,
    pub wholes: Vec<Whole>,
}

/// The names of the files beside chunks.
fn names_on(alloc: Global, disk: &mut MemoryDisk) -> Result<Vec<String>, Differs> {
    let mut names = Vec::new(alloc);
    for name in disk.list(alloc, "")? {
        if !name.as_str().starts_with(".chunks/") {
            names.push(name)?;
        }
    }
    Ok(names)
}

/// How many acts a session did before its disk failed, how many it began, and how many failed.
#[derive(Clone, Copy)]
struct Acts {
    done: u64,
    begun: u64,
    failed: u64,
}

fn acts_of(left: &Left) -> Acts {
    let mut done = 0u64;
    let mut failed = 0u64;
    for entry in &left.order {
        if entry.kind == 5 {
            failed = failed.saturating_add(1);
        } else if entry.kind != 6 && failed == 0 {
            done = done.saturating_add(1);
        }
    }
    Acts {
        done,
        begun: done.saturating_add(failed.min(1)),
        failed,
    }
}

fn told_nothing(left: &Left, alloc: Global) -> Result<(), Differs> {
    for told in &left.told {
        same(shown(alloc, told)?, "")?;
    }
    Ok(())
}

/// What a session is told whose disk fails, of which so many acts are done where it does not. Nothing, where it is not opened; and
/// where each act was done, the lane's end failed, or the save of the book, of which nothing is told.
fn compare_failed(left: &Left, alloc: Global, plan: &Plan, all: u64) -> Result<(), Differs> {
    same(String::from_str(alloc, left.status.name())?, "DiskFault")?;
    if left.report.not_opened.is_some() {
        return told_nothing(left, alloc);
    }
    left.compare_usual(alloc, plan)?;
    let acts = acts_of(left);
    let failed = if acts.done < all { acts.failed } else { 0 };
    plan.compare_failed(&left.told, failed, acts.done)
}

/// What a session is told that fails as it is planned, or of which nothing fails.
fn compare_acts(left: &Left, alloc: Global, plan: &Plan, all: Option<u64>) -> Result<(), Differs> {
    match all {
        Some(all) => compare_failed(left, alloc, plan, all)?,
        None => left.compare(alloc, plan, "Ok")?,
    }
    let wanted = if all.is_some() { "1" } else { "0" };
    same(text_of(alloc, &[left.disk.faults])?, wanted)
}

impl Sweep {
    /// Nothing may be found, and any file be left.
    pub fn new(alloc: Global) -> Sweep {
        Sweep {
            founds: Vec::new(alloc),
            wholes: Vec::new(alloc),
        }
    }

    fn is_whole(&mut self, name: &str, size: Option<u64>) -> bool {
        for whole in &mut self.wholes {
            if whole.name.as_str() == name {
                let is_left = size == Some(whole.size);
                whole.is_left = whole.is_left || is_left;
                return is_left;
            }
        }
        name.ends_with(".tmp") || self.wholes.is_empty()
    }

    /// Each file is temporary, or one of those that may be left.
    fn has_whole(&mut self, alloc: Global, disk: &mut MemoryDisk) -> Result<(), Differs> {
        for name in disk.list(alloc, "")? {
            let size = disk.size(name.as_str())?;
            if !self.is_whole(name.as_str(), size) {
                return Err(Differs::Found(name));
            }
        }
        Ok(())
    }

    /// The state that a later session is told of fits these acts.
    fn fits(
        &mut self,
        alloc: Global,
        told: &[Vec<u8>],
        disk: &mut MemoryDisk,
        acts: Acts,
    ) -> Result<bool, Differs> {
        let names = names_on(alloc, disk)?;
        for found in &mut self.founds {
            if found.plan.compare(told).is_ok() && names == found.names {
                found.is_met = true;
                return Ok(found.fits(acts));
            }
        }
        Ok(false)
    }

    /// Each state was found, and each file left.
    fn came_about(&self) -> Result<(), Differs> {
        for found in &self.founds {
            if !found.is_met {
                return Err(Differs::Unmet(found.line));
            }
        }
        for whole in &self.wholes {
            if !whole.is_left {
                return Err(Differs::Unmet(whole.line));
            }
        }
        Ok(())
    }

    /// What a later session left, and these disks, are one of the states. A remote has all that the datastore has.
    fn find(
        &mut self,
        alloc: Global,
        left: &Left,
        disks: &mut Disks,
        acts: Acts,
    ) -> Result<(), Differs> {
        let Some(first) = self.founds.first() else {
            return Err(Differs::Unread);
        };
        same(left.ended.clone()?, "Ok")?;
        left.compare_usual(alloc, &first.plan)?;
        if !self.fits(alloc, &left.told, &mut disks.disk, acts)? {
            return Err(Differs::Found(text_of(alloc, &[acts.done])?));
        }
        match &mut disks.remote {
            Some(remote) => same(first_other(alloc, &mut disks.disk, remote)?, ""),
            None => Ok(()),
        }
    }

    /// A later session finds one of the states. Beside a remote it pulls what is left.
    fn try_later<R: Threads + Wait + Sync>(
        &mut self,
        rt: &R,
        alloc: Global,
        disks: Disks,
        acts: Acts,
    ) -> Result<(), Differs> {
        let Some(first) = self.founds.first() else {
            return Err(Differs::Unread);
        };
        let (left, mut disks) = serve_plan(rt, alloc, &first.plan, disks)?;
        let found = self.find(alloc, &left, &mut disks, acts);
        drop(left);
        drop(disks);
        found
    }

    /// What a crash of each kind leaves.
    fn try_crashes<R: Threads + Wait + Sync>(
        &mut self,
        rt: &R,
        alloc: Global,
        disks: &Disks,
        acts: Acts,
    ) -> Result<(), Differs> {
        for choice in 0..3u8 {
            let mut disk = disks.disk.crashed(alloc, choice)?;
            let remote = copy_of_remote(alloc, &disks.remote)?;
            self.has_whole(alloc, &mut disk)?;
            self.try_later(rt, alloc, Disks { disk, remote }, acts)?;
        }
        Ok(())
    }

    /// The session fails as it is planned, where so many acts are done if it does not; or nothing of it fails. Gives what it did.
    fn try_failing<R: Threads + Wait + Sync>(
        &mut self,
        rt: &R,
        alloc: Global,
        plan: &Plan,
        disks: &Disks,
        all: Option<u64>,
    ) -> Result<Acts, Differs> {
        let (left, disks) = serve_plan(rt, alloc, plan, disks.copies(alloc)?)?;
        let acts = acts_of(&left);
        let told = compare_acts(&left, alloc, plan, all);
        drop(left);
        let tried = match told {
            Ok(()) => self.try_crashes(rt, alloc, &disks, acts),
            Err(differs) => Err(differs),
        };
        drop(disks);
        tried?;
        Ok(acts)
    }

    /// The call with this number fails, and then the session stops before it.
    fn try_call<R: Threads + Wait + Sync>(
        &mut self,
        rt: &R,
        alloc: Global,
        plan: &mut Plan,
        disks: &Disks,
        call: u64,
        all: Option<u64>,
    ) -> Result<Acts, Differs> {
        plan.stops = None;
        plan.fails = [call].to_vec(alloc)?;
        let failed = self.try_failing(rt, alloc, plan, disks, all);
        placed(alloc, failed, call)?;
        plan.stops = Some(call);
        let stopped = self.try_failing(rt, alloc, plan, disks, all);
        placed(alloc, stopped, call)
    }

    /// Nothing fails where the call behind so many is to, and each of these fails.
    pub fn try_calls<R: Threads + Wait + Sync>(
        &mut self,
        rt: &R,
        alloc: Global,
        plan: &mut Plan,
        disks: &Disks,
        calls: u64,
    ) -> Result<(), Differs> {
        let whole = self.try_call(rt, alloc, plan, disks, calls, None)?;
        for call in 0..calls {
            let _ = self.try_call(rt, alloc, plan, disks, call, Some(whole.done))?;
        }
        self.came_about()
    }
}

/// What differs is told with the call.
fn placed(alloc: Global, ended: Result<Acts, Differs>, call: u64) -> Result<Acts, Differs> {
    match ended {
        Ok(acts) => Ok(acts),
        Err(differs) => Err(Differs::At(call, format!(in alloc; "{differs}")?)),
    }
}
