//! Replies beside those of the plain copy of the store, in the order that a run returned.

use crate::bytes::shown;
use crate::checked::Checked;
use crate::differs::Differs;
use crate::plan::Plan;
use crate::rules::read;
use crate::session::{Disks, Left, copy_of, serve_plan};
use crate::words::same;
use disk_trait::MemoryDisk;
use lane::Ending;
use plain_store::Plain;
use std::alloc::{AllocError, Global};
use std::sync::Wait;
use std::thread::Threads;
use store_history::LaneReport;
use store_types::{Bytes, LANES, Rows};

/// The plain copies of the datastore and the remote, before a run.
#[derive(Drop)]
pub struct Plains {
    pub here: Plain,
    /// The datastore has a damaged snapshot.
    pub is_damaged: bool,
    pub there: Option<Plain>,
}

/// The plain copy of a disk, and whether that has a damaged snapshot.
fn load(alloc: Global, disk: &MemoryDisk) -> Result<(Plain, bool), Differs> {
    let mut disk = copy_of(alloc, disk)?;
    Ok(Plain::load_told(alloc, &mut disk)?)
}

/// What the sources of lanes gave.
fn inputs_of(alloc: Global, plan: &Plan, lanes: &[LaneReport]) -> Result<Vec<Bytes>, AllocError> {
    let mut inputs = Vec::new(alloc);
    for (talk, report) in plan.talks.iter().zip(lanes.iter()) {
        let given = talk.sent.len().min(report.taken as usize);
        inputs.push(Bytes::from_slice(alloc, &talk.sent[..given])?)?;
    }
    Ok(inputs)
}

fn endings_of(alloc: Global, lanes: &[LaneReport]) -> Result<Vec<Ending>, AllocError> {
    let mut endings = Vec::new(alloc);
    for report in lanes {
        endings.push(report.ending)?;
    }
    Ok(endings)
}

/// A frame, and what stands behind it.
fn split_frame(bytes: &[u8]) -> Option<(&[u8], &[u8])> {
    let [a, b, c, d, ..] = bytes else {
        return None;
    };
    let len = u32::from_le_bytes([*a, *b, *c, *d]) as usize;
    bytes.split_at_checked(len.saturating_add(4))
}

/// The frames of a collection's command, of the front of its reply, and of a reply whose numbers the copy does not know.
const GC: &[u8] = b"\x01\0\0\0$";

const COLLECTED: &[u8] = b"\x29\0\0\0\0";

const UNKNOWN: &[u8] =
    b"\x29\0\0\0\0\0\0\0\0\0\0\0\0\0\0\0\0\0\0\0\0\0\0\0\0\0\0\0\0\0\0\0\0\0\0\0\0\0\0\0\0\0\0\0\0";

/// The replies to what was sent, each collection's with zeros for its numbers, as the copy tells it.
fn without_counts(alloc: Global, sent: &[u8], told: &[u8]) -> Result<Vec<u8>, AllocError> {
    let mut plain = Vec::new(alloc);
    let mut sent = sent;
    let mut told = told;
    for _ in 0..told.len() {
        let (Some((command, later)), Some((reply, rest))) = (split_frame(sent), split_frame(told))
        else {
            break;
        };
        let is_collected = command == GC && reply.starts_with(COLLECTED);
        plain.extend_from_slice(if is_collected { UNKNOWN } else { reply })?;
        sent = later;
        told = rest;
    }
    plain.extend_from_slice(told)?;
    Ok(plain)
}

/// What was told from the first byte on that differs.
fn behind_same<'a>(told: &'a [u8], plain: &[u8]) -> &'a [u8] {
    let mut rest = told;
    for (byte, wanted) in told.iter().zip(plain.iter()) {
        match rest {
            [_, behind @ ..] if byte == wanted => rest = behind,
            _ => return rest,
        }
    }
    rest
}

/// Each lane was told what the copy tells it, but for what collections report; where its sink failed, a front of that.
fn compare_all(
    alloc: Global,
    plan: &Plan,
    left: &Left,
    woven: &Rows<Bytes>,
) -> Result<(), Differs> {
    for (lane, plain) in woven.as_slice().iter().enumerate() {
        let (Some(talk), Some(told)) = (plan.talks.get(lane), left.told.get(lane)) else {
            return Err(Differs::Unread);
        };
        let told = without_counts(alloc, talk.sent.as_slice(), told.as_slice())?;
        let plain = plain.as_slice();
        let is_front = talk.is_cut(&told) && plain.starts_with(&told);
        if !is_front && told.as_slice() != plain {
            let text = shown(alloc, behind_same(&told, plain))?;
            return Err(Differs::Otherwise(lane, text));
        }
    }
    Ok(())
}

impl Plains {
    pub fn load(alloc: Global, disks: &Disks) -> Result<Plains, Differs> {
        let there = match &disks.remote {
            Some(remote) => Some(load(alloc, remote)?.0),
            None => None,
        };
        let (here, is_damaged) = load(alloc, &disks.disk)?;
        Ok(Plains {
            here,
            is_damaged,
            there,
        })
    }

    /// Each lane was told what the plain copy tells it, where the acts come in the order that the run returned, which its file has.
    fn compare(&self, alloc: Global, plan: &Plan, left: &Left) -> Result<(), Differs> {
        let lanes = left.report.lanes.as_slice();
        let inputs = inputs_of(alloc, plan, lanes)?;
        let endings = endings_of(alloc, lanes)?;
        if inputs.len() > LANES || endings.len() != inputs.len() {
            return Err(Differs::Unread);
        }
        let Some(order) = read(alloc, inputs.len() as u32, left.file.as_slice())? else {
            let text = String::from_str(alloc, "an order that breaks a rule")?;
            return Err(Differs::Found(text));
        };
        if order != left.order {
            return Err(Differs::Found(String::from_str(alloc, "another order")?));
        }
        let there = self.there.as_ref();
        match self.here.weave(alloc, there, &order, &inputs, &endings)? {
            Ok(woven) => compare_all(alloc, plan, left, &woven.replies),
            Err(misfit) => Err(Differs::Misfit(misfit.entry)),
        }
    }
}

/// What a run left, the disks, and its check.
#[derive(Drop)]
pub struct Compared {
    pub left: Left,
    pub disks: Disks,
    pub checked: Checked,
}

/// What stands before a run: copies of the disks, and the plain copies.
#[derive(Drop)]
struct Before {
    disks: Disks,
    plains: Plains,
}

impl Before {
    fn of(alloc: Global, disks: &Disks) -> Result<Before, Differs> {
        let plains = Plains::load(alloc, disks)?;
        let disks = disks.copies(alloc)?;
        Ok(Before { disks, plains })
    }

    /// Compares several sessions with the plain copy, and checks the run. Of several sessions, each of which was told all, the replies are
    /// equal.
    fn check<R: Threads + Wait + Sync>(
        self,
        rt: &R,
        alloc: Global,
        plan: &Plan,
        left: &Left,
    ) -> Result<Checked, Differs> {
        let Before { disks, plains } = self;
        let are_several = plan.talks.len() > 1;
        if are_several {
            plains.compare(alloc, plan, left)?;
        }
        let is_equal = are_several && left.told_all() && !plains.is_damaged;
        let files = plan.files(left)?;
        let checked = Checked::of(rt, alloc, disks, plains, files)?;
        if is_equal {
            same(checked.told.clone()?, "Ok equal")?;
        }
        Ok(checked)
    }
}

/// Serves what is planned, and checks the run.
pub fn serve_compared<R: Threads + Wait + Sync>(
    rt: &R,
    alloc: Global,
    plan: &Plan,
    disks: Disks,
) -> Result<Compared, Differs> {
    let before = Before::of(alloc, &disks)?;
    let (left, disks) = serve_plan(rt, alloc, plan, disks)?;
    let checked = before.check(rt, alloc, plan, &left)?;
    Ok(Compared {
        left,
        disks,
        checked,
    })
}
