//! The scenarios of a file, one behind another.

use crate::stage::Stage;
use std::alloc::Global;
use std::io;
use std::sync::Wait;
use std::thread::Threads;

/// How many scenarios there were, and how many of them differ.
#[derive(Clone, Copy, Default)]
pub struct Count {
    pub all: u64,
    pub differ: u64,
}

/// A line begins a scenario, is done or tested, or is passed over.
fn play_line<P: Print, R: Threads + Wait + Sync>(
    rt: &P,
    threads: &R,
    stage: &mut Stage,
    file: &str,
    number: usize,
    line: &str,
    count: &mut Count,
) -> io::Result<()> {
    if let Some(name) = line.strip_prefix("= ") {
        stage.begin_scenario(name)?;
        count.all = count.all.saturating_add(1);
        return Ok(());
    }
    if line.is_empty() || line.starts_with('#') || stage.has_differed {
        return Ok(());
    }
    if let Err(error) = stage.obey(threads, number, line) {
        println!(rt; "{file}:{number}: {}: {error}", stage.name)?;
        stage.has_differed = true;
        count.differ = count.differ.saturating_add(1);
    }
    Ok(())
}

/// The same of all lines of a file. One without a scenario differs.
fn play_lines<P: Print, R: Threads + Wait + Sync>(
    rt: &P,
    threads: &R,
    stage: &mut Stage,
    file: &str,
    text: &str,
    count: &mut Count,
) -> io::Result<()> {
    let before = count.all;
    for (place, line) in text.lines().enumerate() {
        let number = place.saturating_add(1);
        play_line(rt, threads, stage, file, number, line, count)?;
    }
    if count.all == before {
        println!(rt; "{file}: no scenario")?;
        count.differ = count.differ.saturating_add(1);
    }
    Ok(())
}

/// Plays the scenarios of a file, and prints the first line of each that does not hold.
pub fn play_file<P: Print, R: Threads + Wait + Sync>(
    rt: &P,
    threads: &R,
    alloc: Global,
    file: &str,
    text: &str,
    count: &mut Count,
) -> io::Result<()> {
    let mut stage = Stage::new(alloc, "")?;
    let played = play_lines(rt, threads, &mut stage, file, text, count);
    drop(stage);
    played
}
