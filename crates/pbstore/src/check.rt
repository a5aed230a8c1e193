//! The folders and files of a check.

use crate::remote_of;
use file_disk::{AtOnce, FileDisk};
use pbs_server::{Status, serve};
use port_traits::{FileSink, FileSource, FreeGate, MemSink, WallClock};
use std::alloc::{AllocError, Global};
use std::io;
use std::sync::Wait;
use std::thread::Threads;
use store_history::Port;

/// A file that is read. Nothing is written to it.
type ReadPort = Port<FileSource<HostRuntime>, MemSink>;

/// What a check names: the datastore and the remote as they were before the run, the run's order, and its sessions' files.
#[derive(Clone, Copy)]
pub struct Check<'a> {
    pub root: &'a str,
    pub order: &'a str,
    pub remote: Option<&'a str>,
    pub sessions: &'a [String],
}

fn port_of(rt: HostRuntime, path: String) -> ReadPort {
    let alloc = rt.alloc();
    Port {
        source: FileSource::new(rt, path),
        sink: MemSink::new(alloc, Vec::new(alloc)),
    }
}

/// The order's port, and each session's, with that of its kept replies.
fn ports_of(
    rt: HostRuntime,
    alloc: Global,
    order: &str,
    sessions: &[String],
) -> Result<Vec<ReadPort>, AllocError> {
    let mut ports = Vec::new(alloc);
    ports.push(port_of(rt, String::from_str(alloc, order)?))?;
    for session in sessions {
        ports.push(port_of(rt, session.clone()?))?;
        let mut out = session.clone()?;
        out.push_str(".out")?;
        ports.push(port_of(rt, out))?;
    }
    Ok(ports)
}

/// Makes the real objects that a check names, and checks. The journal is standard output.
pub fn serve_check<R: Threads + Wait + Sync>(
    rt: HostRuntime,
    threads: &R,
    words: &[String],
    check: &Check<'_>,
) -> Result<Status, AllocError> {
    let alloc = rt.alloc();
    let mut ports = ports_of(rt, alloc, check.order, check.sessions)?;
    let disk = FileDisk::shared(rt, AtOnce::new(rt, threads), alloc, check.root)?;
    let remote = remote_of(rt, threads, alloc, check.remote)?;
    let clock = WallClock::new(rt);
    let mut journal = FileSink::over(io::writer(&rt));
    let served = serve(
        threads,
        alloc,
        words,
        &mut ports,
        disk,
        remote,
        clock,
        &mut journal,
        &FreeGate,
    );
    Ok(served.status)
}
