//! What a session is to send and to be told.

use crate::bytes::{bytes_of, shown};
use crate::differs::Differs;
use crate::gate::Event;
use crate::words::{number_of, split};
use port_traits::{MemSink, MemSource};
use std::alloc::{AllocError, Global};
use store_history::Port;

/// A reply that is wanted, and the line that says so.
#[derive(Drop)]
struct Wanted {
    line: usize,
    bytes: Vec<u8>,
}

/// A session that is to be served.
#[derive(Drop)]
pub struct Talk {
    alloc: Global,
    pub sent: Vec<u8>,
    /// How many commands that is, without BYE.
    commands: u64,
    wanted: Vec<Wanted>,
    /// The most bytes that a read gives.
    gives: usize,
    /// Behind how many bytes the sink fails.
    takes: Option<u64>,
}

impl Talk {
    /// Nothing is sent, and nothing fails.
    pub fn new(alloc: Global) -> Talk {
        Talk {
            alloc,
            sent: Vec::new(alloc),
            commands: 0,
            wanted: Vec::new(alloc),
            gives: usize::MAX,
            takes: None,
        }
    }

    /// Does what a line says of the session, if it says something of it.
    pub fn obey(&mut self, word: &str, rest: &str) -> Result<bool, Differs> {
        match word.as_bytes() {
            b">>" => self.send_raw(rest)?,
            b"gives" => self.gives = number_of(rest)? as usize,
            b"takes" => self.takes = Some(number_of(rest)?),
            _ => return Ok(false),
        }
        Ok(true)
    }

    /// Sends a command as a frame. The word in front of it is for readers. BYE is the session's end.
    pub fn send(&mut self, text: &str) -> Result<Event, Differs> {
        let frame = framed(self.alloc, text)?;
        self.sent.extend_from_slice(&frame)?;
        if frame.as_slice() == BYE {
            return Ok(Event::Ends);
        }
        let number = self.commands;
        self.commands = number.saturating_add(1);
        Ok(Event::Begins(number))
    }

    fn send_raw(&mut self, text: &str) -> Result<(), Differs> {
        let bytes = bytes_of(self.alloc, text)?;
        self.sent.extend_from_slice(&bytes)?;
        Ok(())
    }

    /// Wants a reply as a frame. The word in front of it is for readers. It answers a command, unless that was BYE or none.
    pub fn want(&mut self, line: usize, text: &str) -> Result<Option<Event>, Differs> {
        let number = self.wanted.len() as u64;
        let bytes = framed(self.alloc, text)?;
        self.wanted.push(Wanted { line, bytes })?;
        if number < self.commands {
            return Ok(Some(Event::Answered(number)));
        }
        Ok(None)
    }

    /// No line says which replies are wanted.
    pub fn wants_none(&self) -> bool {
        self.wanted.is_empty()
    }

    /// The sink has failed behind these replies.
    pub fn is_cut(&self, told: &[u8]) -> bool {
        self.takes == Some(told.len() as u64)
    }

    /// The replies that are wanted.
    pub fn wanted(&self) -> Result<Vec<u8>, AllocError> {
        let mut wanted = Vec::new(self.alloc);
        for Wanted { bytes, .. } in &self.wanted {
            wanted.extend_from_slice(bytes)?;
        }
        Ok(wanted)
    }

    /// The replies are those that are wanted, one behind another, as far as the sink takes them.
    pub fn compare(&self, told: &[u8]) -> Result<(), Differs> {
        let is_cut = self.is_cut(told);
        let mut rest = told;
        for Wanted { line, bytes } in &self.wanted {
            match rest.strip_prefix(bytes.as_slice()) {
                Some(behind) => rest = behind,
                None if is_cut && bytes.starts_with(rest) => return Ok(()),
                None => return Err(Differs::Told(*line, shown(self.alloc, rest)?)),
            }
        }
        if rest.is_empty() {
            return Ok(());
        }
        Err(Differs::Found(shown(self.alloc, rest)?))
    }

    /// The replies are those that are wanted, but for so many of the last commands: the first of them is told that the disk fails,
    /// and each behind it that this entry was the first to fail. BYE is told that it is done.
    pub fn compare_failed(&self, told: &[u8], failed: u64, entry: u64) -> Result<(), Differs> {
        let commands = if self.sent.as_slice().ends_with(BYE) {
            self.wanted.len().saturating_sub(1)
        } else {
            self.wanted.len()
        };
        let first = (commands as u64).saturating_sub(failed);
        let mut wanted = Vec::new(self.alloc);
        for (place, Wanted { bytes, .. }) in self.wanted.iter().enumerate() {
            if (place as u64) < first || place >= commands {
                wanted.extend_from_slice(bytes)?;
            } else {
                push_failed(&mut wanted, place as u64 == first, entry)?;
            }
        }
        if told == wanted.as_slice() {
            return Ok(());
        }
        Err(Differs::Found(shown(self.alloc, told)?))
    }

    /// A source of what is sent; and a sink that takes all, or so many bytes, one at a time, and then fails.
    pub fn port(&self) -> Result<Port<MemSource, MemSink>, AllocError> {
        let source = MemSource::new(self.sent.clone()?, Vec::new(self.alloc));
        let sink = match self.takes {
            None => MemSink::new(self.alloc, Vec::new(self.alloc)),
            Some(count) => MemSink::new(self.alloc, [count].to_vec(self.alloc)?).at_most(1),
        };
        Ok(Port {
            source: source.at_most(self.gives.max(1)),
            sink,
        })
    }
}

/// The frame of BYE.
const BYE: &[u8] = b"\x01\0\0\0?";

/// Adds the reply DiskFault, or behind it Halted with the entry's number.
fn push_failed(bytes: &mut Vec<u8>, is_first: bool, entry: u64) -> Result<(), AllocError> {
    if is_first {
        return bytes.extend_from_slice(b"\x01\0\0\0\x1a");
    }
    bytes.extend_from_slice(b"\x09\0\0\0\x1b")?;
    bytes.extend_from_slice(&entry.to_le_bytes())
}

/// The frame of a command or reply, behind the word that is for readers.
fn framed(alloc: Global, text: &str) -> Result<Vec<u8>, Differs> {
    let (_, body) = split(text);
    let body = bytes_of(alloc, body)?;
    let Ok(length) = u32::try_from(body.len()) else {
        return Err(Differs::Unread);
    };
    let mut frame = length.to_le_bytes().to_vec(alloc)?;
    frame.extend_from_slice(&body)?;
    Ok(frame)
}
