//! Sessions are served, and what they leave is kept for the lines behind them.

use crate::differs::Differs;
use crate::gate::{GateHandle, LineClock};
use crate::plan::Plan;
use crate::taken::TakenDisk;
use crate::words::{push_number, same};
use core_opening::OpenFault;
use disk_trait::{Disk, FailingDisk, MemoryDisk};
use lane::Ending;
use pbs_server::{RunReport, Served, Status, serve};
use port_traits::{MemSink, MemSource};
use std::alloc::{AllocError, Global};
use std::sync::{Arc, Wait};
use std::thread::Threads;
use store_history::Port;
use store_types::Entry;

/// Both disks.
#[derive(Drop)]
pub struct Disks {
    pub disk: MemoryDisk,
    pub remote: Option<MemoryDisk>,
}

/// What a disk counts: its calls before and behind a session, and its faults in it.
#[derive(Clone, Copy)]
pub struct Counts {
    pub before: u64,
    pub after: u64,
    pub faults: u64,
}

/// What sessions left, beside the disks.
#[derive(Drop)]
pub struct Left {
    pub status: Status,
    /// The status, and of each input that was not taken whole, how much of it was; or how opening failed.
    pub ended: String,
    pub order: Vec<Entry>,
    pub report: RunReport,
    /// What each lane told.
    pub told: Vec<Vec<u8>>,
    /// The order's file.
    pub file: Vec<u8>,
    pub disk: Counts,
    pub remote: Counts,
    /// How many calls of the disk found nothing or more, as planned.
    pub came: usize,
    /// The lines' order did not come about.
    gave_up: bool,
}

impl Disks {
    /// Copies of both, as they read.
    pub fn copies(&self, alloc: Global) -> Result<Disks, AllocError> {
        Ok(Disks {
            disk: copy_of(alloc, &self.disk)?,
            remote: copy_of_remote(alloc, &self.remote)?,
        })
    }
}

/// A disk as it reads, as one of its own.
pub fn copy_of(alloc: Global, disk: &MemoryDisk) -> Result<MemoryDisk, AllocError> {
    disk.crashed(alloc, 1)
}

/// The same of a remote.
pub fn copy_of_remote(
    alloc: Global,
    remote: &Option<MemoryDisk>,
) -> Result<Option<MemoryDisk>, AllocError> {
    match remote {
        Some(remote) => Ok(Some(copy_of(alloc, remote)?)),
        None => Ok(None),
    }
}

type Failed = FailingDisk<MemoryDisk>;

type Taken = TakenDisk<Failed>;

/// What was served on a disk beside a remote.
type Over = Served<Taken, Failed>;

/// What is asked of the program: its words, and the ports that they ask for.
#[derive(Drop)]
pub struct Asked {
    pub words: Vec<String>,
    pub ports: Vec<Port<MemSource, MemSink>>,
}

/// What was served, what was told into each port, what the journal took, and whether the gate gave up.
#[derive(Drop)]
pub struct Run {
    served: Over,
    told: Vec<Vec<u8>>,
    journal: Vec<u8>,
    gave_up: bool,
}

/// These words, and one for each session.
pub fn words(alloc: Global, fronts: &[&str], sessions: usize) -> Result<Vec<String>, AllocError> {
    let mut words = Vec::new(alloc);
    for front in fronts {
        words.push(String::from_str(alloc, front)?)?;
    }
    for _ in 0..sessions {
        words.push(String::from_str(alloc, "session")?)?;
    }
    Ok(words)
}

fn told_by(
    alloc: Global,
    ports: Vec<Port<MemSource, MemSink>>,
) -> Result<Vec<Vec<u8>>, AllocError> {
    let mut told = Vec::new(alloc);
    for port in ports {
        told.push(port.sink.into_bytes())?;
    }
    Ok(told)
}

/// The clock of a plan, by whose gate it is read.
fn clock_of(plan: &Plan, gate: &GateHandle) -> Result<LineClock, AllocError> {
    let clock = plan.clock()?;
    Ok(LineClock::new(clock, Arc::try_clone(gate)?))
}

/// Does what is asked on disks that fail as they should, by this clock and this gate.
fn serve_on<R: Threads + Wait + Sync>(
    rt: &R,
    alloc: Global,
    asked: Asked,
    disk: Taken,
    remote: Option<Failed>,
    clock: LineClock,
    gate: GateHandle,
) -> Result<Run, AllocError> {
    let Asked { words, mut ports } = asked;
    let mut journal = MemSink::new(alloc, Vec::new(alloc));
    let served = serve(
        rt,
        alloc,
        &words,
        &mut ports,
        disk,
        remote,
        clock,
        &mut journal,
        &*gate,
    );
    Ok(Run {
        served,
        told: told_by(alloc, ports)?,
        journal: journal.into_bytes(),
        gave_up: gate.gave_up(),
    })
}

/// Both disks, which fail, and find nothing or more, as it is planned.
fn failing(plan: &Plan, disks: Disks) -> Result<(Taken, Option<Failed>), AllocError> {
    let disk = match plan.stops {
        None => FailingDisk::at_calls(disks.disk, plan.fails.clone()?),
        Some(count) => FailingDisk::stopping_after(disks.disk, count),
    };
    let remote = match disks.remote {
        None => None,
        Some(remote) => Some(FailingDisk::at_calls(remote, plan.remote_fails.clone()?)),
    };
    let disk = TakenDisk::new(disk, plan.taken.clone()?, plan.shown.clone()?);
    Ok((disk, remote))
}

fn counted<D: Disk>(before: u64, disk: &D) -> Counts {
    Counts {
        before,
        after: disk.calls(),
        faults: disk.faults(),
    }
}

/// A remote's calls, and how often it was written.
fn counts_of(remote: &Option<MemoryDisk>) -> (u64, usize) {
    match remote {
        Some(remote) => (remote.calls(), remote.steps().len()),
        None => (0, 0),
    }
}

/// A remote, and what it counted.
fn handed_back(before: u64, remote: Option<Failed>) -> (Counts, Option<MemoryDisk>) {
    match remote {
        Some(remote) => (counted(before, &remote), Some(remote.into_inner())),
        None => {
            let none = Counts {
                before: 0,
                after: 0,
                faults: 0,
            };
            (none, None)
        }
    }
}

/// How it ended, as a line `ends` says it.
fn ended(alloc: Global, served: &Over, plan: &Plan) -> Result<String, AllocError> {
    let mut text = String::from_str(alloc, served.status.name())?;
    for (report, talk) in served.report.lanes.iter().zip(plan.talks.iter()) {
        if report.taken != talk.sent.len() as u64 {
            push_number(&mut text, report.taken)?;
        }
    }
    match served.report.not_opened {
        Some(OpenFault::NotSynced) => text.push_str(" unsynced")?,
        Some(_) => text.push_str(" unopened")?,
        None => {}
    }
    Ok(text)
}

/// How many steps both disks have had that write.
fn steps_of(disk: &MemoryDisk, remote: &Option<MemoryDisk>) -> (usize, usize) {
    (disk.steps().len(), counts_of(remote).1)
}

impl Run {
    /// What it left beside the disks, and these, which had so many calls before. None where the remote was written, which had so many steps.
    fn left(self, ended: String, before: (u64, u64), steps: usize) -> Option<(Left, Disks)> {
        let Run {
            served,
            told,
            journal,
            gave_up,
        } = self;
        let disk_counts = counted(before.0, &served.disk);
        let came = served.disk.came;
        let (remote_counts, remote) = handed_back(before.1, served.remote);
        let disk = served.disk.into_inner().into_inner();
        let is_written = counts_of(&remote).1 != steps;
        let left = Left {
            status: served.status,
            ended,
            order: served.order,
            report: served.report,
            told,
            file: journal,
            disk: disk_counts,
            remote: remote_counts,
            came,
            gave_up,
        };
        if is_written {
            drop(left);
            return None;
        }
        Some((left, Disks { disk, remote }))
    }

    /// The status of a check, and the line that is told. None where something was written into a port, or to a disk, which had so many steps.
    fn told_alone(self, steps: (usize, usize)) -> Option<(Status, Vec<u8>)> {
        let Run {
            served,
            told,
            journal,
            gave_up: _,
        } = self;
        let status = served.status;
        let is_told = told.iter().any(|told| !told.is_empty());
        let (_, remote) = handed_back(0, served.remote);
        let disk = served.disk.into_inner().into_inner();
        if is_told || steps_of(&disk, &remote) != steps {
            return None;
        }
        Some((status, journal))
    }
}

/// Does what is asked on these disks, as it is planned.
fn serve_planned<R: Threads + Wait + Sync>(
    rt: &R,
    alloc: Global,
    plan: &Plan,
    asked: Asked,
    disks: Disks,
) -> Result<Run, AllocError> {
    let gate = plan.gate()?;
    let clock = clock_of(plan, &gate)?;
    let (disk, remote) = failing(plan, disks)?;
    serve_on(rt, alloc, asked, disk, remote, clock, gate)
}

/// Checks what is asked so, where nothing fails: the status, and the line that is told. Nothing is written to a disk or into a port.
pub fn serve_check<R: Threads + Wait + Sync>(
    rt: &R,
    alloc: Global,
    asked: Asked,
    disks: Disks,
) -> Result<(Status, Vec<u8>), Differs> {
    let steps = steps_of(&disks.disk, &disks.remote);
    let plan = Plan::new(alloc)?;
    let run = serve_planned(rt, alloc, &plan, asked, disks);
    drop(plan);
    match run?.told_alone(steps) {
        Some(told) => Ok(told),
        None => Err(Differs::Found(String::from_str(alloc, "a write of a check")?)),
    }
}

/// Serves the sessions that are planned. The remote is not written.
pub fn serve_plan<R: Threads + Wait + Sync>(
    rt: &R,
    alloc: Global,
    plan: &Plan,
    disks: Disks,
) -> Result<(Left, Disks), Differs> {
    let before = disks.disk.calls();
    let (remote_before, steps) = counts_of(&disks.remote);
    let ports = plan.ports()?;
    let words = words(alloc, &["run", "root", "--order=file"], ports.len())?;
    let run = serve_planned(rt, alloc, plan, Asked { words, ports }, disks)?;
    let ended = ended(alloc, &run.served, plan)?;
    match run.left(ended, (before, remote_before), steps) {
        Some(left) => Ok(left),
        None => Err(Differs::Found(String::from_str(alloc, "a write of the remote")?)),
    }
}

impl Left {
    /// No call of the disk failed, and each reply was told.
    pub fn told_all(&self) -> bool {
        matches!(
            self.status,
            Status::Ok | Status::BadFrame | Status::RemoteFault
        )
    }

    /// What holds of every run: each entry is of one of its lanes, of this moment where it is known, and has its count of calls; of each
    /// lane as many bytes were given as were told; and it ended where its input did or at BYE, but with BadFrame, where no command stands,
    /// or with SinkFault.
    pub fn is_usual(&self, moment: Option<u64>) -> bool {
        let lanes = self.told.len();
        for entry in &self.order {
            let wanted = moment.unwrap_or(entry.moment);
            if entry.lane as usize >= lanes || entry.moment != wanted {
                return false;
            }
        }
        let are_served = self.report.lanes.len() == lanes || self.report.not_opened.is_some();
        are_served && self.have_fit() && self.order.len() == self.report.calls.len()
    }

    /// Each lane's report fits what it told and the status, and BadFrame is that of one of them.
    fn have_fit(&self) -> bool {
        let mut is_broken = false;
        for (report, told) in self.report.lanes.iter().zip(self.told.iter()) {
            if report.given != told.len() as u64 || !self.fits(report.ending) {
                return false;
            }
            is_broken = is_broken || matches!(report.ending, Ending::Broken { .. });
        }
        is_broken == (self.status == Status::BadFrame)
    }

    /// An ending of a lane fits the status.
    fn fits(&self, ending: Ending) -> bool {
        match ending {
            Ending::Clean => true,
            Ending::Broken { .. } => self.status == Status::BadFrame,
            Ending::SinkFault => self.status == Status::SinkFault,
            _ => false,
        }
    }

    /// They were served as the plan says, and ended so.
    pub fn compare(&self, alloc: Global, plan: &Plan, ended: &str) -> Result<(), Differs> {
        if self.gave_up {
            let text = String::from_str(alloc, "a turn that does not come")?;
            return Err(Differs::Found(text));
        }
        plan.compare(&self.told)?;
        same(self.ended.clone()?, ended)?;
        if self.came != plan.taken.len().saturating_add(plan.shown.len()) {
            let text = String::from_str(alloc, "a call that does not come")?;
            return Err(Differs::Found(text));
        }
        self.compare_usual(alloc, plan)
    }

    /// What holds of every run holds of it.
    pub fn compare_usual(&self, alloc: Global, plan: &Plan) -> Result<(), Differs> {
        if self.is_usual(plan.moment()) {
            return Ok(());
        }
        let text = String::from_str(alloc, "another lane, moment, count or ending")?;
        Err(Differs::Found(text))
    }
}
