//! The rows of a prune: what is meant to be done, and which snapshot goes next.

ghost use Rattle.std.specs.Prelude.{◌≡◌, ◌+◌, ◌<◌, ◌≤◌, ◌++◌, drop, length, map, take, vec_capacity, vec_len, IfSome};
ghost use Rattle.std.specs.List.{zip};
ghost use Rattle.store_model.specs.PruneJob.{item_of as item_in, meant as meant_by, rows_meant as rows_of, go_on};
ghost use Rattle.job_steps.specs.Rows.{GivesCommand, row_of, forget_at, asked_first, mark_told};

use prune_rules::{Item, Mark, marks_into};
use std::alloc::{AllocError, Global};
use store_types::{Bytes, GROUP_LIMIT, Keep, Refusal, Rows, SnapshotKey};
use wire_commands::{Command, PruneMark, PruneRow, Reply};

/// Room for as many snapshots as are told of a group.
#[derive(Drop)]
pub struct Room {
    rows: Vec<PruneRow>,
    items: Vec<Item>,
    covered: Vec<bool>,
    marks: Vec<Mark>,
    ghost no_rows: { vec_len rows ≡ 0 },
    ghost no_items: { vec_len items ≡ 0 },
    ghost rows_room: { 4096 ≤ vec_capacity rows },
    ghost items_room: { 4096 ≤ vec_capacity items },
    ghost covered_room: { vec_len covered ≡ 4096 },
    ghost marks_room: { vec_len marks ≡ 4096 },
}

impl Room {
    pub fn new(alloc: Global) -> Result<Room, AllocError> {
        Ok(Room {
            rows: Vec::with_capacity(alloc, GROUP_LIMIT)?,
            items: Vec::with_capacity(alloc, GROUP_LIMIT)?,
            covered: vec![in alloc; false; GROUP_LIMIT]?,
            marks: vec![in alloc; Mark::Removed; GROUP_LIMIT]?,
        })
    }

    /// What is meant for the snapshots of a group, of which the oldest is told first, and here the newest. It takes no
    /// memory, and moves the texts.
    pub fn rows_meant(self, keep: &Keep, oldest_first: Rows<Bytes>) -> Vec<PruneRow>
        requires { length oldest_first ≤ 4096 }
        ensures { result.items ≡ rows_of keep.now oldest_first }
    {
        let Room {
            mut rows,
            mut items,
            mut covered,
            mut marks,
        } = self;
        let mut snapshots = oldest_first.into_vec();
        snapshots.reverse();
        covered.truncate(snapshots.len());
        marks.truncate(snapshots.len());
        push_items(&mut items, &snapshots);
        marks_into(&items, keep, &mut covered, &mut marks);
        push_rows(&mut rows, snapshots, &marks);
        rows
    }
}

/// What a PRUNE was asked for, and room for what it is to do.
#[derive(Drop)]
pub struct Grouping {
    pub group: Bytes,
    pub keep: Keep,
    pub dry: bool,
    pub room: Room,
}

impl Grouping {
    /// The PRUNE's own command.
    pub fn command(&self, alloc: Global) -> Result<Command, AllocError>
        ensures { GivesCommand result (Command.Prune self.now.group self.now.keep self.now.dry) }
    {
        Ok(Command::Prune {
            group: Bytes::from_slice(alloc, self.group.as_slice())?,
            keep: self.keep,
            dry: self.dry,
        })
    }
}

/// What a prune does to its group's snapshots, the newest first. The rows before the place are done, and that at the
/// place is to go.
#[derive(Drop)]
pub struct Forgetting {
    pub rows: Vec<PruneRow>,
    pub place: usize,
    ghost within: { place < vec_len rows },
}

impl Forgetting {
    /// The FORGET of the snapshot that is to go.
    pub fn command(&self, alloc: Global) -> Result<Command, AllocError>
        ensures { GivesCommand result (forget_at self.now.rows.items self.now.place) }
    {
        let row = &self.rows[self.place];
        Ok(Command::Forget {
            snapshot: Bytes::from_slice(alloc, row.snapshot.as_slice())?,
        })
    }
}

/// The finished snapshot that a text names, as the rule sees it.
fn item_of(snapshot: &Bytes) -> Item
    ensures { result ≡ item_in snapshot.now }
{
    Item {
        time: SnapshotKey::time_in(snapshot.as_slice()).unwrap_or(0),
        finished: true,
    }
}

fn push_items(items: &mut Vec<Item>, snapshots: &[Bytes])
    requires { vec_len items.old + length snapshots.now ≤ vec_capacity items.old }
    ensures { items.new.items ≡ items.old.items ++ map item_in snapshots.now }
{
    for snapshot in snapshots {
        items.push_reserved(item_of(snapshot));
    }
}

fn meant(mark: Mark) -> PruneMark
    ensures { result ≡ meant_by mark }
{
    match mark {
        Mark::Kept => PruneMark::Kept,
        Mark::Removed => PruneMark::Removed,
    }
}

fn push_rows(rows: &mut Vec<PruneRow>, snapshots: Vec<Bytes>, marks: &[Mark])
    requires { vec_len rows.old + vec_len snapshots ≤ vec_capacity rows.old }
    ensures { rows.new.items ≡ rows.old.items ++ map row_of (zip snapshots.items marks.now) }
{
    for (snapshot, mark) in snapshots.into_iter().zip(marks) {
        rows.push_reserved(PruneRow {
            snapshot,
            mark: meant(*mark),
        });
    }
}

/// The place of the first row that is to go, from a place on.
pub fn first_to_go(rows: &[PruneRow], from: usize) -> Option<usize>
    requires { from ≤ length rows.now }
    ensures first { asked_first rows.now result ≡ go_on (take from rows.now) (drop from rows.now) }
    ensures within { IfSome result (λ place. place < length rows.now) }
{
    for place in from..rows.len() {
        if rows[place].mark == PruneMark::Removed {
            return Some(place);
        }
    }
    None
}

/// What becomes of a snapshot by the reply to its FORGET, where the job goes on.
pub fn mark_by(reply: &Reply) -> Option<PruneMark>
    ensures { result ≡ mark_told reply.now }
{
    match reply {
        Reply::Done => Some(PruneMark::Removed),
        Reply::Refused(Refusal::SnapshotBusy { .. }) => Some(PruneMark::Held),
        Reply::Refused(Refusal::NoSnapshot) => Some(PruneMark::Gone),
        _ => None,
    }
}
