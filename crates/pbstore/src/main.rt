//! The program `pbstore`: serves the sessions that its words name, all at once, on a datastore folder, beside another that snapshots
//! may be pulled from. The replies to the session in a file go to the file of its name with `.out` behind it, and the order of all
//! acts to the file that the words name for it. Or it makes sessions itself, serves them so, and prints their summary; or it reads a
//! run's order, sessions and replies, and prints how they compare with its replay.
#![tactic(auto)]

mod check;

use crate::check::{Check, serve_check};
use file_disk::{AtOnce, FileDisk};
use pbs_server::{Plan, Status, WordFault, plan_words, serve};
use port_traits::{FileSink, FileSource, FreeGate, Sink, WallClock};
use std::alloc::{AllocError, Global};
use std::fs::File;
use std::io::ErrorKind;
use std::process::ExitCode;
use std::sync::Wait;
use std::thread::Threads;
use std::{env, io};
use store_history::Port;

/// A session's file, and the file of its replies.
type FilePort = Port<FileSource<HostRuntime>, FileSink<File>>;

/// The arguments without the program's name.
fn without_name(alloc: Global, args: env::Args) -> Result<Vec<String>, AllocError> {
    let mut words = Vec::new(alloc);
    for word in args.skip(1) {
        words.push(word)?;
    }
    Ok(words)
}

/// The words after the program's name. Words that cannot be read as text are a faulty command line.
fn words_of(rt: HostRuntime) -> Result<Vec<String>, Status> {
    match env::args(&rt) {
        Ok(args) => without_name(rt.alloc(), args).map_err(|_| Status::NoMemory),
        Err(error) if error.kind() == ErrorKind::OutOfMemory => Err(Status::NoMemory),
        Err(_) => Err(Status::Usage),
    }
}

/// The port of a session.
fn port_of(rt: HostRuntime, alloc: Global, session: &str) -> Result<FilePort, AllocError> {
    let mut out = String::from_str(alloc, session)?;
    out.push_str(".out")?;
    Ok(Port {
        source: FileSource::new(rt, String::from_str(alloc, session)?),
        sink: FileSink::create(&rt, out.as_str()),
    })
}

fn ports_of(
    rt: HostRuntime,
    alloc: Global,
    sessions: &[String],
) -> Result<Vec<FilePort>, AllocError> {
    let mut ports = Vec::with_capacity(alloc, sessions.len())?;
    for session in sessions {
        ports.push(port_of(rt, alloc, session.as_str())?)?;
    }
    Ok(ports)
}

/// The datastore folder that snapshots are pulled from.
fn remote_of<'a, R: Threads + Wait + Sync>(
    rt: HostRuntime,
    threads: &'a R,
    alloc: Global,
    root: Option<&str>,
) -> Result<Option<FileDisk<HostRuntime, AtOnce<&'a R>>>, AllocError> {
    match root {
        Some(root) => {
            let syncs = AtOnce::new(rt, threads);
            Ok(Some(FileDisk::shared(rt, syncs, alloc, root)?))
        }
        None => Ok(None),
    }
}

/// The folders and files of a run.
#[derive(Clone, Copy)]
struct Paths<'a> {
    root: &'a str,
    remote: Option<&'a str>,
    order: Option<&'a str>,
    sessions: &'a [String],
}

fn text_of(text: &Option<String>) -> Option<&str> {
    match text {
        Some(text) => Some(text.as_str()),
        None => None,
    }
}

/// Made sessions have a root alone. Other words name none: `serve` opens nothing then.
fn paths_of(plan: &Result<Plan, WordFault>) -> Paths<'_> {
    match plan {
        Ok(
            Plan::Run {
                root,
                remote,
                order,
                sessions,
            },
        ) => Paths {
            root: root.as_str(),
            remote: text_of(remote),
            order: text_of(order),
            sessions: sessions.as_slice(),
        },
        Ok(Plan::Gen { root, .. }) => Paths {
            root: root.as_str(),
            remote: None,
            order: None,
            sessions: &[],
        },
        _ => Paths {
            root: "",
            remote: None,
            order: None,
            sessions: &[],
        },
    }
}

/// Makes the real objects that a run names, but for its journal, and serves.
fn serve_run<R: Threads + Wait + Sync, J: Sink>(
    rt: HostRuntime,
    threads: &R,
    words: &[String],
    paths: &Paths<'_>,
    journal: &mut J,
) -> Result<Status, AllocError> {
    let alloc = rt.alloc();
    let mut ports = ports_of(rt, alloc, paths.sessions)?;
    let disk = FileDisk::alone(rt, AtOnce::new(rt, threads), alloc, paths.root)?;
    let remote = remote_of(rt, threads, alloc, paths.remote)?;
    let clock = WallClock::new(rt);
    let served = serve(
        threads, alloc, words, &mut ports, disk, remote, clock, journal, &FreeGate,
    );
    Ok(served.status)
}

/// The journal is the order's file, where the words name one, and else standard output.
fn serve_paths<R: Threads + Wait + Sync>(
    rt: HostRuntime,
    threads: &R,
    words: &[String],
    paths: &Paths<'_>,
) -> Result<Status, AllocError> {
    match paths.order {
        Some(path) => {
            let mut journal = FileSink::create(&rt, path);
            serve_run(rt, threads, words, paths, &mut journal)
        }
        None => {
            let mut journal = FileSink::over(io::writer(&rt));
            serve_run(rt, threads, words, paths, &mut journal)
        }
    }
}

fn serve_plan<R: Threads + Wait + Sync>(
    rt: HostRuntime,
    threads: &R,
    words: &[String],
    plan: &Result<Plan, WordFault>,
) -> Result<Status, AllocError> {
    match plan {
        Err(WordFault::NoMemory) => Ok(Status::NoMemory),
        Ok(
            Plan::Check {
                root,
                order,
                remote,
                sessions,
            },
        ) => {
            let check = Check {
                root: root.as_str(),
                order: order.as_str(),
                remote: text_of(remote),
                sessions: sessions.as_slice(),
            };
            serve_check(rt, threads, words, &check)
        }
        _ => serve_paths(rt, threads, words, &paths_of(plan)),
    }
}

fn serve_words<R: Threads + Wait + Sync>(
    rt: HostRuntime,
    threads: &R,
    words: &[String],
) -> Result<Status, AllocError> {
    let plan = plan_words(rt.alloc(), words);
    serve_plan(rt, threads, words, &plan)
}

fn run<R: Threads + Wait + Sync>(rt: HostRuntime, threads: &R) -> Status {
    let words = match words_of(rt) {
        Ok(words) => words,
        Err(status) => return status,
    };
    match serve_words(rt, threads, &words) {
        Ok(status) => status,
        Err(_) => Status::NoMemory,
    }
}

fn main(rt: HostRuntime) -> ExitCode {
    let status = run(rt, &rt);
    if status != Status::Ok {
        let _ = eprintln!(rt; "pbstore: {}", status.name());
    }
    ExitCode::from(status.number())
}
