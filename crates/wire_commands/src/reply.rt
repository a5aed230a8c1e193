//! The replies.

ghost use Rattle.std.specs.Prelude.{◌≡◌, ◌≤◌, ◌++◌, length, IfSome, IfOk, OnErr};
ghost use Rattle.port_traits.specs.Faults.{HasCause};
ghost use Rattle.std.specs.List.{flat_map};
ghost use Rattle.wire_commands.specs.Fields as spec;
ghost use Rattle.wire_commands.specs.Fields.{WantsMemory, whole};
ghost use Rattle.wire_commands.specs.HasText.{FitsReply, ReplyHasText, SpellsReply};
ghost use Rattle.wire_commands.specs.Puts.{PutsFrame, PutsReply};
ghost use Rattle.wire_commands.specs.ReplyText.{reply_text, behind_head, reply_form as form_of};
ghost use Rattle.wire_commands.specs.ReplyReading.{part_in, verified_in, collected_in, accepted, reply_from, reply_of};

use crate::fields::{byte_at, copied, only_text, u16_at, u64_at, whole};
use crate::head::Head;
use crate::many::{Row, put_rows, values_in};
use crate::refusal;
use crate::rows::{FaultRow, FileRow, ListRow, PruneRow};
use port_traits::{Failed, Sink};
use std::alloc::{AllocError, Global};
use store_types::{Bytes, Refusal, Rows};
use wire_frames::{BODY_LIMIT, put_frame_counted};

/// A reply. Commands whose replies have one form share a variant.
#[derive(Debug, Drop)]
pub enum Reply {
    /// The command was done, and there is nothing to tell.
    Done,
    /// The base of a new writer, as the text of a snapshot, empty where there is none.
    Base {
        snapshot: Bytes,
    },
    /// The size of a file in bytes, and a part of it.
    Part {
        total: u64,
        bytes: Bytes,
    },
    /// Bytes alone: the blob of a piece, or a part of an archive.
    Data(Bytes),
    /// The number of a new index, 0 to 15.
    Number(u8),
    /// Snapshots.
    Listing(Rows<ListRow>),
    /// The files of a snapshot, in byte order of their names.
    Files(Rows<FileRow>),
    /// The texts of snapshots.
    Keys(Rows<Bytes>),
    /// The snapshots of a group, the newest first.
    Marks(Rows<PruneRow>),
    /// What VERIFY read: how many files a snapshot has, with the manifest, how many entries its indexes have, and how
    /// many bytes these are; and the files with a fault, in byte order of their names.
    Verified {
        files: u8,
        entries: u64,
        bytes: u64,
        faults: Rows<FaultRow>,
    },
    /// What GC did: its start and its cutoff in seconds since 1970; how many chunks were touched since the start, how many
    /// others are there, and how many were removed.
    Collected {
        start: u64,
        cutoff: u64,
        used: u64,
        pending: u64,
        removed: u64,
    },
    /// The command was refused.
    Refused(Refusal),
}

impl Reply {
    /// The reply to a command of the code that a body spells, where it spells one. A refusal is one
    /// under any code. Only a reply of two bytes or more takes memory.
    pub fn read(alloc: Global, code: u8, body: &[u8]) -> Result<Option<Reply>, AllocError>
        ensures reply { IfOk result (λ r. r ≡ reply_of code body.now) }
        ensures spelled { IfOk result (λ read. IfSome read (SpellsReply body.now)) }
        ensures memory { WantsMemory 2 body.now (reply_of code body.now) result }
    {
        reply_in(alloc, code, body)
    }

    /// Writes the reply as a frame, or fails with a front of it written. It takes no memory.
    pub fn put<K: Sink>(&self, sink: &mut K) -> Result<(), Failed>
        requires { ReplyHasText self.now }
        ensures bytes { PutsFrame K.taken sink.old sink.new self.now result }
        ensures cause { HasCause (K.faults sink.old) (K.faults sink.new) result }
    {
        self.put_counted(sink, &mut 0)
    }

    /// Writes as `put` does, and adds how many bytes were written to a count, also where it fails.
    #[tactic(auto, unfolding(crate::specs::ReplyText::reply_text))]
    pub fn put_counted<K: Sink>(&self, sink: &mut K, given: &mut u64) -> Result<(), Failed>
        requires { ReplyHasText self.now }
        ensures bytes { PutsReply K.taken sink.old sink.new given.old given.new self.now result }
        ensures cause { HasCause (K.faults sink.old) (K.faults sink.new) result }
    {
        let head = self.head();
        match self {
            Reply::Listing(rows) => put_rows(sink, &head, rows.as_slice(), given),
            Reply::Files(rows) => put_rows(sink, &head, rows.as_slice(), given),
            Reply::Keys(snapshots) => put_rows(sink, &head, snapshots.as_slice(), given),
            Reply::Marks(rows) => put_rows(sink, &head, rows.as_slice(), given),
            Reply::Verified { faults, .. } => put_rows(sink, &head, faults.as_slice(), given),
            Reply::Part { bytes, .. } | Reply::Data(bytes) => {
                put_frame_counted(sink, head.as_slice(), bytes.as_slice(), given)
            }
            _ => put_frame_counted(sink, head.as_slice(), &[], given),
        }
    }

    /// All before rows, or before a field that takes the rest.
    #[tactic(auto, unfolding(crate::specs::ReplyText::reply_text))]
    fn head(&self) -> Head
        requires { FitsReply self.now }
        ensures { result ++ behind_head self.now ≡ reply_text self.now }
    {
        match self {
            Reply::Done | Reply::Data(_) => Head::new(0),
            Reply::Base { snapshot } => Head::new(0).text(snapshot),
            Reply::Part { total, .. } => Head::new(0).u64(*total),
            Reply::Number(number) => Head::new(0).byte(*number),
            Reply::Listing(rows) => Head::new(0).u16(rows.as_slice().len() as u16),
            Reply::Files(rows) => Head::new(0).byte(rows.as_slice().len() as u8),
            Reply::Keys(snapshots) => Head::new(0).u16(snapshots.as_slice().len() as u16),
            Reply::Marks(rows) => Head::new(0).u16(rows.as_slice().len() as u16),
            Reply::Verified {
                files,
                entries,
                bytes,
                faults,
            } => {
                let head = Head::new(0).byte(*files).u64(*entries).u64(*bytes);
                head.byte(faults.as_slice().len() as u8)
            }
            Reply::Collected {
                start,
                cutoff,
                used,
                pending,
                removed,
            } => {
                let head = Head::new(0).u64(*start).u64(*cutoff);
                head.u64(*used).u64(*pending).u64(*removed)
            }
            Reply::Refused(refusal) => refusal::head(refusal),
        }
    }
}

#[tactic(auto, unfolding(crate::specs::ReplyReading::reply_of))]
fn reply_in(alloc: Global, code: u8, body: &[u8]) -> Result<Option<Reply>, AllocError>
    ensures reply { IfOk result (λ r. r ≡ reply_of code body.now) }
    ensures memory { WantsMemory 2 body.now (reply_of code body.now) result }
{
    if body.len() > BODY_LIMIT as usize {
        return Ok(None);
    }
    match byte_at(body) {
        None => Ok(None),
        Some((number, fields)) => with_number(alloc, code, number, fields),
    }
}

#[tactic(auto, unfolding(crate::specs::ReplyReading::reply_from, crate::specs::ReplyReading::made))]
fn with_number(
    alloc: Global,
    code: u8,
    number: u8,
    fields: &[u8],
) -> Result<Option<Reply>, AllocError>
    ensures reply { IfOk result (λ r. r ≡ reply_from (form_of code) number fields.now) }
    ensures memory { WantsMemory 1 fields.now (reply_from (form_of code) number fields.now) result }
{
    if number == 0 {
        return accepted(alloc, code, fields);
    }
    let refusal = refusal::read(alloc, number, fields)?;
    Ok(refusal.map(Reply::Refused))
}

#[tactic(auto, unfolding(crate::specs::ReplyReading::fields_in, crate::specs::ReplyReading::made))]
fn accepted(alloc: Global, code: u8, fields: &[u8]) -> Result<Option<Reply>, AllocError>
    ensures reply { IfOk result (λ r. r ≡ accepted (form_of code) fields.now) }
    ensures memory { WantsMemory 1 fields.now (accepted (form_of code) fields.now) result }
{
    match code {
        10 => {
            let snapshot = only_text(alloc, fields)?;
            Ok(snapshot.map(|snapshot| Reply::Base { snapshot }))
        }
        12 | 13 => Ok(whole(byte_at(fields)).map(Reply::Number)),
        11 | 21 => part(alloc, fields),
        22 | 23 => Ok(Some(Reply::Data(bytes_in(alloc, fields)?))),
        30 => Ok(rows_in(alloc, fields)?.map(Reply::Listing)),
        31 => Ok(few_rows_in(alloc, fields)?.map(Reply::Files)),
        33 => Ok(rows_in(alloc, fields)?.map(Reply::Marks)),
        34 => verified(alloc, fields),
        36 => Ok(collected(fields)),
        35 | 40 => Ok(rows_in(alloc, fields)?.map(Reply::Keys)),
        14..=20 | 24 | 32 | 63 if fields.is_empty() => Ok(Some(Reply::Done)),
        _ => Ok(None),
    }
}

#[tactic(auto, unfolding(crate::specs::ReplyReading::part_in))]
fn part(alloc: Global, fields: &[u8]) -> Result<Option<Reply>, AllocError>
    ensures reply { IfOk result (λ r. r ≡ part_in fields.now) }
    ensures memory { WantsMemory 1 fields.now (part_in fields.now) result }
{
    let Some((total, bytes)) = u64_at(fields) else {
        return Ok(None);
    };
    let bytes = copied(alloc, bytes)?;
    Ok(Some(Reply::Part { total, bytes }))
}

#[tactic(auto, unfolding(crate::specs::ReplyReading::verified_in))]
fn verified(alloc: Global, fields: &[u8]) -> Result<Option<Reply>, AllocError>
    ensures reply { IfOk result (λ r. r ≡ verified_in fields.now) }
    ensures memory { WantsMemory 1 fields.now (verified_in fields.now) result }
{
    let Some((files, rest)) = byte_at(fields) else {
        return Ok(None);
    };
    let Some((entries, rest)) = u64_at(rest) else {
        return Ok(None);
    };
    let Some((bytes, rest)) = u64_at(rest) else {
        return Ok(None);
    };
    let faults = few_rows_in(alloc, rest)?;
    Ok(faults.map(|faults| Reply::Verified {
        files,
        entries,
        bytes,
        faults,
    }))
}

#[tactic(auto, unfolding(crate::specs::ReplyReading::collected_in))]
fn collected(fields: &[u8]) -> Option<Reply>
    ensures { result ≡ collected_in fields.now }
{
    let (start, rest) = u64_at(fields)?;
    let (cutoff, rest) = u64_at(rest)?;
    let (used, rest) = u64_at(rest)?;
    let (pending, rest) = u64_at(rest)?;
    let removed = whole(u64_at(rest))?;
    Some(Reply::Collected {
        start,
        cutoff,
        used,
        pending,
        removed,
    })
}

/// Bytes of its own. No memory is taken for none.
fn bytes_in(alloc: Global, bytes: &[u8]) -> Result<Bytes, AllocError>
    ensures own { IfOk result (λ own. own ≡ bytes.now) }
    ensures memory { OnErr result (1 ≤ length bytes.now) }
{
    if bytes.is_empty() {
        return Ok(Bytes::new(alloc));
    }
    copied(alloc, bytes)
}

/// Values that are all that follows their count of two bytes.
fn rows_in<R: Row>(alloc: Global, fields: &[u8]) -> Result<Option<Rows<R>>, AllocError>
    ensures rows { IfOk result (λ rows. rows ≡ spec.whole (spec.rows_at R.read fields.now)) }
    ensures memory { WantsMemory 1 fields.now (whole (spec.rows_at R.read fields.now)) result }
{
    let Some((count, rest)) = u16_at(fields) else {
        return Ok(None);
    };
    values_in(alloc, count as usize, rest)
}

/// Values that are all that follows their count of one byte.
fn few_rows_in<R: Row>(alloc: Global, fields: &[u8]) -> Result<Option<Rows<R>>, AllocError>
    ensures rows { IfOk result (λ rows. rows ≡ spec.whole (spec.few_rows_at R.read fields.now)) }
    ensures memory { WantsMemory 1 fields.now (whole (spec.few_rows_at R.read fields.now)) result }
{
    let Some((count, rest)) = byte_at(fields) else {
        return Ok(None);
    };
    values_in(alloc, count as usize, rest)
}
