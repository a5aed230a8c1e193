//! What the next sessions are to send and to be told, in which order, and which calls of their ends fail.

use crate::bytes::bytes_of;
use crate::differs::Differs;
use crate::gate::{Event, GateHandle, LineGate, Step};
use crate::session::Left;
use crate::talk::Talk;
use crate::words::{number_of, numbers_of};
use port_traits::{MemSink, MemSource, SetClock};
use std::alloc::{AllocError, Global};
use store_history::Port;

/// Sessions that are to be served at once, one on each lane.
#[derive(Drop)]
pub struct Plan {
    alloc: Global,
    pub talks: Vec<Talk>,
    /// The lane that lines speak of.
    lane: u32,
    /// What comes one behind another, by the order of the lines.
    steps: Vec<Step>,
    /// No order is wanted.
    is_free: bool,
    /// How often it is tried.
    pub tries: u64,
    /// What the clock reads, the last one for ever. It stands, where no line says so.
    clock: Vec<u64>,
    /// Which calls of the disk fail, or behind how many all do; and of the remote.
    pub fails: Vec<u64>,
    pub stops: Option<u64>,
    pub remote_fails: Vec<u64>,
    /// Which calls of the disk find nothing.
    pub taken: Vec<u64>,
    /// Which lists of the disk have a name more.
    pub shown: Vec<u64>,
    /// The order's file, of a run that is checked and not served.
    order: Vec<u8>,
}

/// Where the clock stands.
const STANDING: u64 = 1_600_000_000;

/// There are 64 lanes.
const LAST_LANE: u64 = 63;

/// Adds a session's input, and its replies.
fn push_session(files: &mut Vec<Vec<u8>>, talk: &Talk, replies: Vec<u8>) -> Result<(), AllocError> {
    let sent = talk.sent.clone()?;
    files.push(sent)?;
    files.push(replies)?;
    Ok(())
}

impl Plan {
    /// One session, to which nothing is sent; the clock stands, and nothing fails.
    pub fn new(alloc: Global) -> Result<Plan, AllocError> {
        let mut talks = Vec::new(alloc);
        talks.push(Talk::new(alloc))?;
        Ok(Plan {
            alloc,
            talks,
            lane: 0,
            steps: Vec::new(alloc),
            is_free: false,
            tries: 1,
            clock: Vec::new(alloc),
            fails: Vec::new(alloc),
            stops: None,
            remote_fails: Vec::new(alloc),
            taken: Vec::new(alloc),
            shown: Vec::new(alloc),
            order: Vec::new(alloc),
        })
    }

    /// Does what a line says of the sessions, if it says something of them.
    pub fn obey(&mut self, line: usize, word: &str, rest: &str) -> Result<bool, Differs> {
        match word.as_bytes() {
            b"lane" => self.turn_to(rest)?,
            b"free" => self.is_free = true,
            b"tries" => self.tries = number_of(rest)?,
            b"clock" => self.clock = numbers_of(self.alloc, rest)?,
            b"fails" => self.fails = numbers_of(self.alloc, rest)?,
            b"stops" => self.stops = Some(number_of(rest)?),
            b"remote-fails" => self.remote_fails = numbers_of(self.alloc, rest)?,
            b"taken" => self.taken = numbers_of(self.alloc, rest)?,
            b"shown" => self.shown = numbers_of(self.alloc, rest)?,
            b"order" => self.order = bytes_of(self.alloc, rest)?,
            _ => return self.obey_lane(line, word, rest),
        }
        Ok(true)
    }

    /// Lines speak of this lane from here on. It has a session, and so have those below it.
    fn turn_to(&mut self, text: &str) -> Result<(), Differs> {
        let number = number_of(text)?;
        if number > LAST_LANE {
            return Err(Differs::Unread);
        }
        let lane = number as u32;
        for _ in self.talks.len()..lane as usize + 1 {
            self.talks.push(Talk::new(self.alloc))?;
        }
        self.lane = lane;
        Ok(())
    }

    /// Does what a line says of the lane that lines speak of.
    fn obey_lane(&mut self, line: usize, word: &str, rest: &str) -> Result<bool, Differs> {
        let Some(talk) = self.talks.get_mut(self.lane as usize) else {
            return Err(Differs::Unread);
        };
        let event = match word.as_bytes() {
            b">" => Some(talk.send(rest)?),
            b"<" => talk.want(line, rest)?,
            b"closes" => Some(Event::Ends),
            _ => return talk.obey(word, rest),
        };
        if let Some(event) = event {
            let lane = self.lane;
            self.steps.push(Step { lane, event })?;
        }
        Ok(true)
    }

    /// The sessions' replies are those that are wanted. Where no order is wanted, those of a lane of which no line says them are any.
    pub fn compare(&self, told: &[Vec<u8>]) -> Result<(), Differs> {
        for (talk, told) in self.talks.iter().zip(told.iter()) {
            if !self.is_free || !talk.wants_none() {
                talk.compare(told.as_slice())?;
            }
        }
        Ok(())
    }

    /// The same of one session whose disk fails: see [`Talk::compare_failed`].
    pub fn compare_failed(&self, told: &[Vec<u8>], failed: u64, entry: u64) -> Result<(), Differs> {
        match (self.talks.as_slice(), told) {
            ([talk], [told]) => talk.compare_failed(told.as_slice(), failed, entry),
            _ => Err(Differs::Unread),
        }
    }

    /// The moment of each act, where no line sets the clock.
    pub fn moment(&self) -> Option<u64> {
        if self.clock.is_empty() {
            Some(STANDING)
        } else {
            None
        }
    }

    pub fn clock(&self) -> Result<SetClock, AllocError> {
        let mut readings = self.clock.clone()?;
        let last = readings.pop().unwrap_or(STANDING);
        Ok(SetClock::new(readings, last))
    }

    /// A gate by the order of the lines, where there are several sessions and an order is wanted.
    pub fn gate(&self) -> Result<GateHandle, AllocError> {
        let steps = if self.is_free || self.talks.len() == 1 {
            Vec::new(self.alloc)
        } else {
            self.steps.clone()?
        };
        LineGate::over(self.alloc, steps)
    }

    /// The files of a run that left this: the order's, and of each session its input and its replies.
    pub fn files(&self, left: &Left) -> Result<Vec<Vec<u8>>, AllocError> {
        let mut files = Vec::new(self.alloc);
        files.push(left.file.clone()?)?;
        for (talk, told) in self.talks.iter().zip(left.told.iter()) {
            push_session(&mut files, talk, told.clone()?)?;
        }
        Ok(files)
    }

    /// The files of a run that had this order, and left what is wanted.
    pub fn wanted_files(&self) -> Result<Vec<Vec<u8>>, AllocError> {
        let mut files = Vec::new(self.alloc);
        files.push(self.order.clone()?)?;
        for talk in &self.talks {
            push_session(&mut files, talk, talk.wanted()?)?;
        }
        Ok(files)
    }

    pub fn ports(&self) -> Result<Vec<Port<MemSource, MemSink>>, AllocError> {
        let mut ports = Vec::new(self.alloc);
        for talk in &self.talks {
            ports.push(talk.port()?)?;
        }
        Ok(ports)
    }
}
