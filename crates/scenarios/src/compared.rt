//! What a check is to tell, by the plain copy of the store.

use crate::differs::Differs;
use crate::rules::read;
use crate::woven::Plains;
use lane::Ending;
use plain_store::{Free, Misfit, Replayed};
use std::alloc::{AllocError, Global};
use store_types::{Bytes, Entry, FAULT_KIND, LANES};

/// How many bytes of a collection's reply are free.
const FREE_SIZE: u64 = 40;

/// What a file has, of those at their places.
pub fn file_at(files: &[Vec<u8>], place: usize) -> &[u8] {
    match files.get(place) {
        Some(file) => file.as_slice(),
        None => &[],
    }
}

fn kept_of(files: &[Vec<u8>], lane: usize) -> &[u8] {
    file_at(files, lane.saturating_mul(2).saturating_add(2))
}

/// The sessions' inputs, each of which stands before its replies.
fn inputs_of(alloc: Global, files: &[Vec<u8>]) -> Result<Vec<Bytes>, AllocError> {
    let mut inputs = Vec::new(alloc);
    for lane in 0..files.len() / 2 {
        let input = file_at(files, lane.saturating_mul(2).saturating_add(1));
        inputs.push(Bytes::from_slice(alloc, input)?)?;
    }
    Ok(inputs)
}

fn is_faulty(order: &[Entry]) -> bool {
    order.iter().any(|entry| entry.kind == FAULT_KIND)
}

fn push_byte(text: &mut String, byte: Option<&u8>) -> Result<(), AllocError> {
    match byte {
        Some(byte) => write!(text, " {byte:02x}"),
        None => text.push_str(" --"),
    }
}

/// A place at which replayed and kept replies of a lane differ.
fn unequal(
    alloc: Global,
    lane: usize,
    place: usize,
    replayed: &[u8],
    kept: &[u8],
) -> Result<String, AllocError> {
    let mut text = format!(in alloc; "Unequal lane {lane} byte {place}:")?;
    push_byte(&mut text, replayed.get(place))?;
    push_byte(&mut text, kept.get(place))?;
    Ok(text)
}

/// A collection tells one of its numbers at this place of a lane's replies.
fn covers(free: &Free, lane: usize, place: u64) -> bool {
    free.lane as usize == lane && free.place <= place && place - free.place < FREE_SIZE
}

fn is_free(frees: &[Free], lane: usize, place: usize) -> bool {
    frees.iter().any(|free| covers(free, lane, place as u64))
}

/// The first place at which replayed and kept replies of a lane differ, but for what collections count.
fn first_place(frees: &[Free], lane: usize, replayed: &[u8], kept: &[u8]) -> Option<usize> {
    for place in 0..replayed.len().max(kept.len()) {
        let is_same = match (replayed.get(place), kept.get(place)) {
            (Some(one), Some(other)) => one == other || is_free(frees, lane, place),
            _ => false,
        };
        if !is_same {
            return Some(place);
        }
    }
    None
}

/// The least lane's first place that differs.
fn compare_all(
    alloc: Global,
    replayed: &Replayed,
    files: &[Vec<u8>],
) -> Result<String, AllocError> {
    for (lane, replies) in replayed.woven.replies.as_slice().iter().enumerate() {
        let (replies, kept) = (replies.as_slice(), kept_of(files, lane));
        if let Some(place) = first_place(&replayed.frees, lane, replies, kept) {
            return unequal(alloc, lane, place, replies, kept);
        }
    }
    String::from_str(alloc, "Ok equal")
}

/// An entry does not fit: the place that its lane's replies have come to.
fn misfit_at(alloc: Global, misfit: &Misfit, files: &[Vec<u8>]) -> Result<String, AllocError> {
    let lane = misfit.lane as usize;
    unequal(
        alloc,
        lane,
        misfit.replayed as usize,
        &[],
        kept_of(files, lane),
    )
}

impl Plains {
    /// What a check is to tell of these files: the order's, and of each session its input and its replies.
    pub fn told_of(&self, alloc: Global, files: &[Vec<u8>]) -> Result<String, Differs> {
        let inputs = inputs_of(alloc, files)?;
        let lanes = inputs.len();
        if lanes > LANES {
            return Err(Differs::Unread);
        }
        let bad = String::from_str(alloc, "BadOrder")?;
        let Some(order) = read(alloc, lanes as u32, file_at(files, 0))? else {
            return Ok(bad);
        };
        if self.is_damaged || is_faulty(&order) {
            return Ok(bad);
        }
        let endings = [Ending::SinkFault; LANES];
        let endings = &endings[..lanes];
        let there = self.there.as_ref();
        let told = match self.here.replay(alloc, there, &order, &inputs, endings)? {
            Ok(replayed) => compare_all(alloc, &replayed, files)?,
            Err(misfit) => misfit_at(alloc, &misfit, files)?,
        };
        Ok(told)
    }
}
