//! A lane in turn: its input, its open job and its replies.

ghost use Rattle.std.specs.Prelude.{◌≡◌, ◌<◌, ◌^◌, length, is_some, Some, None, IfOk, OnOk};
ghost use Rattle.wire_frames.specs.Frames.{frame};
ghost use Rattle.wire_commands.specs.ReplyText.{reply_text};
ghost use Rattle.wire_commands.specs.HasText.{ReplyHasText};
ghost use Rattle.store_model.specs.Lanes.{new_lane, say as said, lane_next};
ghost use Rattle.plain_lanes.specs.Nexts.{shown_next, left_by, left_idle, is_sync_next, IsFitNext};

use crate::job::Asking;
use crate::next::{Next, next_at};
use port_traits::MemSink;
use std::alloc::{AllocError, Global};
use std::marker::Model;
use std::mem;
use store_types::Bytes;
use wire_commands::Reply;

/// The bytes of a reply's frame.
fn reply_bytes(alloc: Global, reply: Reply) -> Result<Vec<u8>, AllocError>
    requires { ReplyHasText reply }
    ensures { IfOk result (λ bytes. bytes.items ≡ frame (reply_text reply)) }
{
    let mut sink = MemSink::new(alloc, Vec::new(alloc));
    let put = reply.put(&mut sink);
    drop(reply);
    match put {
        Ok(()) => Ok(sink.into_bytes()),
        Err(_) => Err(AllocError),
    }
}

/// A lane: the size of its input, what is left of it, the job that is open, and the replies so far.
#[derive(Drop)]
pub struct Lane<'a> {
    size: usize,
    left: &'a [u8],
    job: Option<Asking>,
    told: Vec<u8>,
}

impl<'a> Model for Lane<'a> {
    ghost use Rattle.store_model.specs.Lanes as model;

    ghost Value = { model.Lane };

    ghost view = { λ l. record { size = l.size; left = l.left.now; job = l.job; told = l.told.items } };
}

impl<'a> Lane<'a> {
    /// A lane at the start of its input.
    pub fn new(alloc: Global, input: &'a [u8]) -> Lane<'a>
        ensures { result ≡ new_lane input.now }
    {
        Lane {
            size: input.len(),
            left: input,
            job: None,
            told: Vec::new(alloc),
        }
    }

    /// A job is open.
    pub fn has_job(&self) -> bool
        ensures { result ≡ is_some self.now.job }
    {
        self.job.is_some()
    }

    /// What stands next: the open job, which is taken out, or what the input has. A frame with no command is refused
    /// with its offset in the input.
    pub fn take_next(&mut self, alloc: Global) -> Result<Next<'a>, AllocError>
        ensures next { IfOk result (λ n. shown_next n ≡ lane_next self.old) }
        ensures fits { IfOk result IsFitNext }
        ensures lane { IfOk result (λ n. self.new ≡ left_by n self.old) }
    {
        if let Some(asking) = self.job.take() {
            return Ok(Next::Job(asking, self.left));
        }
        let offset = self.size.saturating_sub(self.left.len());
        next_at(alloc, offset as u64, self.left)
    }

    /// Whether a SYNC stands next, begun or not.
    pub fn next_is_sync(&self, alloc: Global) -> Result<bool, AllocError>
        ensures { IfOk result (λ is_one. is_one ≡ is_sync_next (lane_next self.now)) }
    {
        if let Some(asking) = &self.job {
            return Ok(asking.is_sync());
        }
        let offset = self.size.saturating_sub(self.left.len());
        let next = next_at(alloc, offset as u64, self.left)?;
        let is_one = next.is_sync();
        drop(next);
        Ok(is_one)
    }

    /// One more reply, with this left of the input and no job open.
    pub fn tell(&mut self, alloc: Global, left: &'a [u8], reply: Reply) -> Result<(), AllocError>
        requires { ReplyHasText reply }
        ensures { OnOk result (self.new ≡ said reply (left_idle left.now self.old)) }
    {
        let bytes = reply_bytes(alloc, reply)?;
        self.told.extend_from_slice(&bytes)?;
        self.left = left;
        drop(self.job.take());
        Ok(())
    }

    /// One more reply, with no job open and as much left of the input as before.
    pub fn tell_here(&mut self, alloc: Global, reply: Reply) -> Result<(), AllocError>
        requires { ReplyHasText reply }
        ensures { OnOk result (self.new ≡ said reply (record self.old { job = None })) }
    {
        let bytes = reply_bytes(alloc, reply)?;
        self.told.extend_from_slice(&bytes)?;
        drop(self.job.take());
        Ok(())
    }

    /// The job is open, with this left of the input.
    pub fn set_job(&mut self, left: &'a [u8], asking: Asking)
        ensures { self.new ≡ record self.old { left = left.now; job = Some asking } }
    {
        self.left = left;
        drop(mem::replace(&mut self.job, Some(asking)));
    }

    /// This is left of the input.
    pub fn set_left(&mut self, left: &'a [u8])
        ensures { self.new ≡ record self.old { left = left.now } }
    {
        self.left = left;
    }

    /// How many bytes of replies there are.
    pub fn told_len(&self) -> u64
        ensures value { result ≡ length self.now.told }
        ensures few { result < 2 ^ 63 }
    {
        self.told.len() as u64
    }

    pub fn into_told(self) -> Bytes
        ensures { result ≡ self.entry.told }
    {
        let Lane {
            size: _,
            left: _,
            job,
            told,
        } = self;
        drop(job);
        Bytes::from_vec(told)
    }
}
