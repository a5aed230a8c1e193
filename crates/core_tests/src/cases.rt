//! How tables are tried. Their acts are done one after another, by `apply`, and on another core as one list, by `play`.

use crate::acts::{Row, Step, Told, acts_of, do_act, text_of};
use crate::asserts::{must, same_at};
use crate::fixtures::{Clock, Kept, STILL, TestCore, disk_of, kept, opened};
use crate::folders::{Archives, Contents, folder, put};
use crate::sent::{DONE, NO_FILE};
use core_laws::play;
use core_state::Answer;
use disk_trait::{Disk, MemoryDisk};
use std::alloc::Global;
use std::process::Abort;
use store_types::{Entry, LAST_MOMENT};

/// What of a table.
pub(crate) type Spot = [usize; 4];

/// What stands in a folder, and what is done there.
#[derive(Drop)]
pub(crate) struct Case<'a> {
    /// The files, but for the indexes of the first snapshot.
    pub(crate) files: Contents,
    pub(crate) archives: Archives,
    pub(crate) clock: Clock,
    pub(crate) steps: &'a [Row],
    /// What the core has in the end, and one that is opened then.
    pub(crate) left: Kept,
    pub(crate) saved: Kept,
}

/// Does an act, and compares its entry and the frame of its reply with the row.
fn try_act(
    rt: &impl Abort,
    core: &mut TestCore,
    alloc: Global,
    spot: (Spot, usize),
    row: &Row,
) -> Told {
    let (lane, step, expected, kind) = row;
    let number = core.journal.entries.len() as u64;
    let told = do_act(rt, core, alloc, *lane, *step);
    let found = (told.lane, told.kind, told.place, told.last);
    same_at(rt, spot, found, (*lane, *kind, number, false));
    same_at(rt, spot, told.frame.as_bytes(), *expected);
    told
}

/// Does the acts one after another. Gives the answers as they are shown.
fn try_acts(
    rt: &impl Abort,
    core: &mut TestCore,
    alloc: Global,
    spot: Spot,
    rows: &[Row],
) -> Vec<String> {
    let mut shown = Vec::new(alloc);
    for (number, row) in rows.iter().enumerate() {
        must(
            rt,
            shown.push(try_act(rt, core, alloc, (spot, number), row).shown),
        );
    }
    shown
}

/// Each entry's moment is the latest of those that the clock has told, or the one that the core began with.
fn try_moments(rt: &impl Abort, spot: Spot, order: &[Entry], clock: Clock, began: u64) {
    let (moments, then) = clock;
    let mut latest = began;
    for (number, entry) in order.iter().enumerate() {
        let told = moments.get(number).unwrap_or(&then);
        latest = latest.max(*told);
        same_at(rt, (spot, number), entry.moment, latest.min(LAST_MOMENT));
    }
}

/// Each is answered as it was.
fn try_shown(rt: &impl Abort, alloc: Global, spot: Spot, answers: &[Answer], shown: &[String]) {
    same_at(rt, spot, answers.len(), shown.len());
    for (answer, text) in answers.iter().zip(shown) {
        let found = text_of(rt, alloc, answer);
        same_at(rt, spot, found.as_str(), text.as_str());
    }
}

/// A core with what stands in its folder.
fn begun(rt: &impl Abort, alloc: Global, case: &Case<'_>) -> TestCore {
    let disk = folder(rt, alloc, case.files, case.archives);
    opened(rt, alloc, disk, case.clock)
}

/// Its acts are done one after another. Gives the answers as they are shown.
fn try_each(
    rt: &impl Abort,
    core: &mut TestCore,
    alloc: Global,
    spot: Spot,
    case: &Case<'_>,
) -> Vec<String> {
    let began = core.last;
    let shown = try_acts(rt, core, alloc, spot, case.steps);
    same_at(rt, spot, kept(core), case.left);
    try_moments(rt, spot, &core.journal.entries, case.clock, began);
    shown
}

/// They are played as one list.
fn try_list(
    rt: &impl Abort,
    core: &mut TestCore,
    alloc: Global,
    spot: Spot,
    case: &Case<'_>,
    shown: &[String],
) {
    let acts = must(rt, acts_of(rt, alloc, case.steps));
    let answers = must(rt, play(core, alloc, acts).ok().ok_or("not played"));
    try_shown(rt, alloc, spot, &answers, shown);
    same_at(rt, spot, kept(core), case.left);
}

/// They are done one after another on a core of its own.
fn shown_by(rt: &impl Abort, alloc: Global, spot: Spot, case: &Case<'_>) -> Vec<String> {
    let mut core = begun(rt, alloc, case);
    try_each(rt, &mut core, alloc, spot, case)
}

/// They are played as one list on another. Gives what then stands on the disk.
fn left_by(
    rt: &impl Abort,
    alloc: Global,
    spot: Spot,
    case: &Case<'_>,
    shown: &[String],
) -> MemoryDisk {
    let mut core = begun(rt, alloc, case);
    try_list(rt, &mut core, alloc, spot, case, shown);
    disk_of(core)
}

/// Its acts are done one after another, and on another core as one list. Both leave the same.
pub(crate) fn try_case(rt: &impl Abort, alloc: Global, spot: Spot, case: &Case<'_>) {
    let shown = shown_by(rt, alloc, spot, case);
    let disk = left_by(rt, alloc, spot, case, &shown);
    let (found, _) = begun_with(rt, alloc, disk);
    same_at(rt, spot, found, case.saved);
}

pub(crate) fn try_cases(rt: &impl Abort, alloc: Global, cases: &[&Case<'_>]) {
    for (number, case) in cases.iter().enumerate() {
        try_case(rt, alloc, [number, 0, 0, 0], *case);
    }
}

/// Puts a file on the core's disk.
pub(crate) fn put_beside(
    rt: &impl Abort,
    core: &mut TestCore,
    alloc: Global,
    path: &str,
    bytes: &[u8],
) {
    put(rt, alloc, &mut core.parts.disk, path, bytes)
}

/// How many names on the disk have this front.
fn count_names(rt: &impl Abort, core: &mut TestCore, alloc: Global, front: &str) -> usize {
    must(rt, core.parts.disk.list(alloc, front)).len()
}

/// How many calls of the disk the last act made.
fn last_calls(core: &TestCore) -> u64 {
    let calls = &core.journal.calls;
    let before = calls.get(calls.len().saturating_sub(2)).unwrap_or(&0);
    core.parts.disk.calls().saturating_sub(*before)
}

/// What is done or found on the disk beside acts: whether it was there.
fn changed(rt: &impl Abort, core: &mut TestCore, alloc: Global, step: Step) -> Option<bool> {
    match step {
        Step::Put(path, bytes) => {
            put_beside(rt, core, alloc, path, bytes);
            Some(true)
        }
        Step::Remove(path) => Some(must(rt, core.parts.disk.remove(path))),
        Step::Holds(path, size) => Some(must(rt, core.parts.disk.size(path)) == Some(size)),
        Step::Names(front, count) => Some(count_names(rt, core, alloc, front) == count),
        Step::Calls(count) => Some(last_calls(core) == count),
        _ => None,
    }
}

/// Does the act, or what stands there beside acts.
pub(crate) fn try_row(
    rt: &impl Abort,
    core: &mut TestCore,
    alloc: Global,
    spot: (Spot, usize),
    row: &Row,
) {
    let (_, step, expected, _) = row;
    let found = match changed(rt, core, alloc, *step) {
        Some(true) => DONE,
        Some(false) => NO_FILE,
        None => {
            drop(try_act(rt, core, alloc, spot, row));
            return;
        }
    };
    same_at(rt, spot, found, *expected);
}

/// Does the acts, and what tables have beside them.
pub(crate) fn try_rows(
    rt: &impl Abort,
    core: &mut TestCore,
    alloc: Global,
    spot: Spot,
    rows: &[Row],
) {
    for (number, row) in rows.iter().enumerate() {
        try_row(rt, core, alloc, (spot, number), row);
    }
}

/// The acts of both tables, by a clock that stands.
fn try_both(rt: &impl Abort, core: &mut TestCore, alloc: Global, before: &[Row], rows: &[Row]) {
    try_rows(rt, core, alloc, [0, 0, 0, 0], before);
    try_rows(rt, core, alloc, [1, 0, 0, 0], rows);
    try_moments(rt, [0; 4], &core.journal.entries, STILL, 0);
}

/// What stands on this disk, once they are done on a core over it.
pub(crate) fn behind(
    rt: &impl Abort,
    alloc: Global,
    disk: MemoryDisk,
    before: &[Row],
    rows: &[Row],
) -> MemoryDisk {
    let mut core = opened(rt, alloc, disk, STILL);
    try_both(rt, &mut core, alloc, before, rows);
    disk_of(core)
}

/// They are done over a folder with these files and indexes.
pub(crate) fn try_tables(
    rt: &impl Abort,
    alloc: Global,
    files: Contents,
    archives: Archives,
    before: &[Row],
    rows: &[Row],
) {
    drop(behind(rt, alloc, folder(rt, alloc, files, archives), before, rows));
}

/// What a core has that is opened over this disk, and how many calls of the disk that makes.
pub(crate) fn begun_with(rt: &impl Abort, alloc: Global, disk: MemoryDisk) -> (Kept, u64) {
    let before = disk.calls();
    let core = opened(rt, alloc, disk, STILL);
    let calls = core.parts.disk.calls().saturating_sub(before);
    (kept(&core), calls)
}
