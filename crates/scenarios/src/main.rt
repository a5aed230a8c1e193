//! Plays the scenarios of files, each a datastore with sessions that are served on it, and prints those that go otherwise than the
//! files say. `docs/SCENARIOS.md` has their form; `tests/make-tables` writes them.
#![tactic(auto)]

mod bytes;
mod checked;
mod checks;
mod compared;
mod differs;
mod file;
mod gate;
mod plan;
mod rules;
mod session;
mod stage;
mod stops;
mod taken;
mod talk;
mod words;
mod woven;

use file::{Count, play_file};
use std::process::ExitCode;
use std::sync::Wait;
use std::thread::Threads;
use std::{env, fs, io};

/// Plays the files that the arguments name.
fn play_all<R: Threads + Wait + Sync>(rt: HostRuntime, threads: &R) -> io::Result<Count> {
    let mut count = Count::default();
    for name in env::args(&rt)?.skip(1) {
        let name = name.as_str();
        let text = fs::read_to_string(&rt, name)?;
        play_file(&rt, threads, rt.alloc(), name, text.as_str(), &mut count)?;
    }
    println!(rt; "{} scenarios, {} differ", count.all, count.differ)?;
    Ok(count)
}

fn main(rt: HostRuntime) -> ExitCode {
    match play_all(rt, &rt) {
        Ok(count) if count.differ == 0 && count.all > 0 => ExitCode::SUCCESS,
        Ok(_) => ExitCode::FAILURE,
        Err(error) => {
            let _ = eprintln!(rt; "scenarios: {error}");
            ExitCode::from(2)
        }
    }
}
