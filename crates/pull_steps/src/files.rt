//! A file of the remote: read in parts, and then sent.

ghost use Rattle.std.specs.Prelude.{◌≡◌, ◌++◌, ◌≤◌, length, map, IfErr, IfOk, IfSome, MatchResult, OnErr, OnOk};
ghost use Rattle.wire_commands.specs.HasText.{IsText, ReplyHasText};
ghost use Rattle.store_history.specs.Pulling as model;
ghost use Rattle.pull_steps.specs.Asked.{AsksFor};
ghost use Rattle.pull_steps.specs.Files.{ListingHasText, RejectsFile, RejectsManifest, TellsFile, TellsManifest, TellsManifestPart, TellsPart, WholeHasText, behind_bytes, behind_manifest_part};
ghost use Rattle.pull_steps.specs.States.{CourseHasText, EndsInText, IsShort, blob_of, file_of, files_of, manifest_of, pull_in, shown_course, shown_stock};
ghost use Rattle.pull_steps.specs.Taken.{IsPart};

use crate::ask::Ask;
use crate::course::Course;
use crate::ending::ended;
use crate::index::index_in;
use crate::pull::State;
use crate::stages::{FileRead, HasBlob, HasFiles, Index, ManifestRead, Sending, Stock};
use blob_codec::decode;
use known_chunks::Known;
use manifest::FileFact;
use snapshot_files::read_manifest;
use std::alloc::{AllocError, Global};
use std::collections::VecDeque;
use store_model::{BLOB_LIMIT, size_limit};
use store_types::{Bytes, FileName, LISTED_LIMIT};
use wire_commands::{Command, Reply};

/// What the bytes of a whole file are.
#[derive(Drop)]
pub enum Whole {
    Index(Index),
    Blob,
    /// None of the kind of its name. This is the file's full name.
    Bad(Bytes),
}

/// What the bytes of a manifest's file are: what is sent of the snapshot, or none, with its full name.
#[derive(Drop)]
pub enum Listing {
    Stock(Stock),
    Bad(Bytes),
}

/// The full name of a snapshot's file.
fn path_of(alloc: Global, course: &Course, name: &[u8]) -> Result<Bytes, AllocError>
    requires course { IsShort course.now.snapshot }
    requires name { length name.now ≤ 64 }
    ensures path { IfOk result (λ path. path ≡ model.path_of (shown_course course.now) name.now) }
    ensures text { IfOk result IsText }
{
    let mut path = Vec::from_slice(alloc, course.snapshot.as_slice())?;
    path.extend_from_slice(b"/")?;
    path.extend_from_slice(name)?;
    Ok(Bytes::from_vec(path))
}

/// On to the next file, or to the manifest behind the last. It takes no memory.
#[tactic(auto, unfolding(store_history::specs::Pulling::next_file))]
pub fn next_file(alloc: Global, course: Course, mut stock: Stock) -> State
    requires { CourseHasText (shown_course course) }
    ensures job { pull_in result ≡ model.next_file (shown_course course) (shown_stock stock) }
    ensures text { EndsInText (pull_in result) }
{
    match stock.names.pop_front() {
        Some(name) => State::ReadingFile(FileRead {
            course,
            stock,
            name,
            bytes: Vec::new(alloc),
        }),
        None => State::SendingManifest(HasFiles { course, stock }),
    }
}

fn names_of(alloc: Global, files: &[FileFact]) -> Result<VecDeque<FileName>, AllocError>
    ensures { IfOk result (λ names. names.items ≡ map (λ f. f.name) files.now) }
{
    let mut names = VecDeque::with_capacity(alloc, files.len())?;
    for file in files {
        names.push_back(file.name.clone()?)?;
    }
    Ok(names)
}

/// The file of the manifest is none.
fn bad_manifest(alloc: Global, course: &Course) -> Result<Listing, AllocError>
    requires { IsShort course.now.snapshot }
    ensures listing { IfOk result (RejectsManifest (shown_course course.now)) }
    ensures text { IfOk result ListingHasText }
{
    let path = path_of(alloc, course, b"index.json.blob")?;
    Ok(Listing::Bad(path))
}

/// What is sent of the snapshot whose manifest's file has these bytes.
fn listing_of(alloc: Global, course: &Course, bytes: &[u8]) -> Result<Listing, AllocError>
    requires { IsShort course.now.snapshot }
    ensures listing { TellsManifest (shown_course course.now) bytes.now result }
    ensures text { IfOk result ListingHasText }
{
    let Some(listed) = read_manifest(alloc, bytes)? else {
        return bad_manifest(alloc, course);
    };
    if listed.files.as_slice().len() > LISTED_LIMIT {
        return bad_manifest(alloc, course);
    }
    Ok(Listing::Stock(Stock {
        manifest: Bytes::from_slice(alloc, bytes)?,
        names: names_of(alloc, listed.files.as_slice())?,
        sent: Known::new(alloc),
    }))
}

/// The file of this name is none.
fn bad_file(alloc: Global, course: &Course, name: &FileName) -> Result<Whole, AllocError>
    requires { IsShort course.now.snapshot }
    ensures whole { IfOk result (RejectsFile (shown_course course.now) name.now) }
    ensures text { IfOk result WholeHasText }
{
    let path = path_of(alloc, course, name.as_slice())?;
    Ok(Whole::Bad(path))
}

/// What the whole file with these bytes is.
fn whole_of(
    alloc: Global,
    course: &Course,
    name: &FileName,
    bytes: &[u8],
) -> Result<Whole, AllocError>
    requires { IsShort course.now.snapshot }
    ensures whole { TellsFile (shown_course course.now) name.now bytes.now result }
    ensures text { IfOk result WholeHasText }
{
    if name.is_index() {
        return match index_in(alloc, name, bytes)? {
            Some(index) => Ok(Whole::Index(index)),
            None => bad_file(alloc, course, name),
        };
    }
    match decode(bytes) {
        Ok(_) => Ok(Whole::Blob),
        Err(_) => bad_file(alloc, course, name),
    }
}

impl ManifestRead {
    pub fn ask(&self, alloc: Global) -> Result<Ask, AllocError>
        ensures { IfOk result (AsksFor (manifest_of self.now)) }
    {
        Ok(Ask::File {
            snapshot: Bytes::from_slice(alloc, self.course.snapshot.as_slice())?,
            name: FileName::manifest(alloc)?,
            offset: self.bytes.len() as u64,
        })
    }

    /// Puts a part behind the bytes, and tells what is sent where all of the file is there. Of a manifest that is too long
    /// nothing is kept: it is none. At want of memory nothing has changed.
    fn append(
        &mut self,
        alloc: Global,
        total: u64,
        more: &[u8],
    ) -> Result<Option<Listing>, AllocError>
        requires { IsShort self.old.course.snapshot }
        ensures course { self.new.course ≡ self.old.course }
        ensures part { IfOk result (TellsManifestPart self.old self.new more.now total) }
        ensures text { IfOk result (λ listing. IfSome listing ListingHasText) }
        ensures err { OnErr result (self.new.bytes.items ≡ self.old.bytes.items) }
    {
        if total > BLOB_LIMIT {
            return Ok(Some(bad_manifest(alloc, &self.course)?));
        }
        let before = self.bytes.len();
        self.bytes.extend_from_slice(more)?;
        if (self.bytes.len() as u64) < total {
            return Ok(None);
        }
        match listing_of(alloc, &self.course, &self.bytes) {
            Ok(listing) => Ok(Some(listing)),
            Err(AllocError) => {
                self.bytes.truncate(before);
                Err(AllocError)
            }
        }
    }

    /// The state after a part was put behind the bytes. It takes no memory.
    fn read(self, alloc: Global, listing: Option<Listing>) -> State
        requires texts { CourseHasText (shown_course self.course) }
        requires text { IfSome listing ListingHasText }
        ensures job { pull_in result
            ≡ behind_manifest_part (shown_course self.course) self.bytes.items listing }
        ensures text { EndsInText (pull_in result) }
    {
        match listing {
            None => State::ReadingManifest(self),
            Some(Listing::Bad(path)) => State::Rejecting(path),
            Some(Listing::Stock(stock)) => {
                let ManifestRead { course, .. } = self;
                next_file(alloc, course, stock)
            }
        }
    }

    /// The state after the reply to the read of a part. Where memory is wanting for a part, the state before.
    pub fn take(mut self, alloc: Global, reply: Reply) -> Result<State, State>
        requires text { ReplyHasText reply }
        requires texts { CourseHasText (shown_course self.course) }
        ensures ok { IfOk result (λ state. pull_in state ≡ model.take (manifest_of self) reply) }
        ensures err { IfErr result
            (λ state. (pull_in state ≡ model.asks (manifest_of self)) × IsPart reply) }
        ensures text { MatchResult result (λ state. EndsInText (pull_in state))
            (λ state. EndsInText (pull_in state)) }
    {
        match reply {
            Reply::Part { total, bytes } => match self.append(alloc, total, bytes.as_slice()) {
                Ok(listing) => Ok(self.read(alloc, listing)),
                Err(AllocError) => Err(State::ReadingManifest(self)),
            },
            reply => Ok(ended(reply)),
        }
    }
}

impl FileRead {
    pub fn ask(&self, alloc: Global) -> Result<Ask, AllocError>
        ensures { IfOk result (AsksFor (file_of self.now)) }
    {
        Ok(Ask::File {
            snapshot: Bytes::from_slice(alloc, self.course.snapshot.as_slice())?,
            name: self.name.clone()?,
            offset: self.bytes.len() as u64,
        })
    }

    /// Puts a part behind the bytes, and tells what the file is where all of it is there. Of a file that is too long nothing
    /// is kept: it is none. At want of memory nothing has changed.
    fn append(
        &mut self,
        alloc: Global,
        total: u64,
        more: &[u8],
    ) -> Result<Option<Whole>, AllocError>
        requires { IsShort self.old.course.snapshot }
        ensures course { self.new.course ≡ self.old.course }
        ensures stock { self.new.stock ≡ self.old.stock }
        ensures name { self.new.name ≡ self.old.name }
        ensures part { IfOk result (TellsPart self.old self.new more.now total) }
        ensures text { IfOk result (λ whole. IfSome whole WholeHasText) }
        ensures err { OnErr result (self.new.bytes.items ≡ self.old.bytes.items) }
    {
        if total > size_limit(&self.name) {
            return Ok(Some(bad_file(alloc, &self.course, &self.name)?));
        }
        let before = self.bytes.len();
        self.bytes.extend_from_slice(more)?;
        if (self.bytes.len() as u64) < total {
            return Ok(None);
        }
        match whole_of(alloc, &self.course, &self.name, &self.bytes) {
            Ok(whole) => Ok(Some(whole)),
            Err(AllocError) => {
                self.bytes.truncate(before);
                Err(AllocError)
            }
        }
    }

    /// The state after a part was put behind the bytes. It takes no memory.
    fn read(self, whole: Option<Whole>) -> State
        requires texts { CourseHasText (shown_course self.course) }
        requires text { IfSome whole WholeHasText }
        ensures job { pull_in result ≡ behind_bytes self self.bytes.items whole }
        ensures text { EndsInText (pull_in result) }
    {
        let whole = match whole {
            None => return State::ReadingFile(self),
            Some(whole) => whole,
        };
        let FileRead {
            course,
            stock,
            name,
            bytes,
        } = self;
        match whole {
            Whole::Bad(path) => State::Rejecting(path),
            Whole::Index(index) => State::Opening(Sending {
                course,
                stock,
                index,
            }),
            Whole::Blob => State::SendingBlob(HasBlob {
                course,
                stock,
                name,
                bytes: Bytes::from_vec(bytes),
            }),
        }
    }

    /// The state after the reply to the read of a part. Where memory is wanting for a part, the state before.
    pub fn take(mut self, alloc: Global, reply: Reply) -> Result<State, State>
        requires text { ReplyHasText reply }
        requires texts { CourseHasText (shown_course self.course) }
        ensures ok { IfOk result (λ state. pull_in state ≡ model.take (file_of self) reply) }
        ensures err { IfErr result
            (λ state. (pull_in state ≡ model.asks (file_of self)) × IsPart reply) }
        ensures text { MatchResult result (λ state. EndsInText (pull_in state))
            (λ state. EndsInText (pull_in state)) }
    {
        match reply {
            Reply::Part { total, bytes } => match self.append(alloc, total, bytes.as_slice()) {
                Ok(whole) => Ok(self.read(whole)),
                Err(AllocError) => Err(State::ReadingFile(self)),
            },
            reply => Ok(ended(reply)),
        }
    }
}

impl HasBlob {
    /// The BLOB of the file.
    pub fn ask(&self, alloc: Global) -> Result<Ask, AllocError>
        ensures { IfOk result (AsksFor (blob_of self.now)) }
    {
        Ok(Ask::Command(Command::Blob {
            file: Bytes::from_slice(alloc, self.name.as_slice())?,
            blob: Bytes::from_slice(alloc, self.bytes.as_slice())?,
        }))
    }

    /// The state after the reply to it. It takes no memory.
    pub fn sent(self, alloc: Global, reply: Reply) -> State
        requires text { ReplyHasText reply }
        requires texts { CourseHasText (shown_course self.course) }
        ensures job { pull_in result
            ≡ model.goes_on reply (model.next_file (shown_course self.course) (shown_stock self.stock)) }
        ensures text { EndsInText (pull_in result) }
    {
        if let Reply::Refused(_) = reply {
            return ended(reply);
        }
        let HasBlob { course, stock, .. } = self;
        next_file(alloc, course, stock)
    }
}

impl HasFiles {
    /// The BLOB of the manifest.
    pub fn ask(&self, alloc: Global) -> Result<Ask, AllocError>
        ensures { IfOk result (AsksFor (files_of self.now)) }
    {
        Ok(Ask::Command(Command::Blob {
            file: Bytes::from_slice(alloc, b"index.json.blob")?,
            blob: Bytes::from_slice(alloc, self.stock.manifest.as_slice())?,
        }))
    }

    /// The state after the reply to it. It takes no memory.
    pub fn sent(self, reply: Reply) -> State
        requires text { ReplyHasText reply }
        requires texts { CourseHasText (shown_course self.course) }
        ensures job { pull_in result
            ≡ model.goes_on reply (model.asks (model.finishing (shown_course self.course))) }
        ensures text { EndsInText (pull_in result) }
    {
        if let Reply::Refused(_) = reply {
            return ended(reply);
        }
        let HasFiles { course, .. } = self;
        State::Finishing(course)
    }
}
