//! When each chunk was last touched, and which are old enough to go.
//!
//! The book's file is `PBSBOOK1`, the last moment, the number of chunks, and for each chunk in rising order of digests
//! the digest and its last touch; then the SHA-256 of all bytes before it. Numbers are u64, little-endian.
#![tactic(auto)]

ghost use Rattle.std.specs.Prelude.{◌≡◌, [], true, IsOk, IsSome, IfSome, IfOk, OnOk, OnErr, None};
ghost use Rattle.store_files.specs.Book.{FitsBook, signed_text, book_text, book_of};
ghost use Rattle.atime_book.specs.Parts.{as_touch, joined, touches_of};
ghost use Rattle.atime_book.specs.Touches.{AddsTouches, head_text, HaveDigests, cutoff_of, empty, last_of, is_stale, IsInOrder, NotesNew, TouchedAt, TouchesKnown, SweptAt, IsAt, ReadsAt, IsEarly, as_of};

mod counts;
mod laws;
mod parts;
mod present;
mod reading;

pub use counts::Counts;
pub use laws::{what_is_read_has_one_spelling, what_is_written_is_read};
use parts::{Touched, empty_parts, number_of, place_of};
pub use present::Present;
use sha2::{Digest, Sha256};
use std::alloc::{AllocError, Global};
use std::marker::Model;
use store_types::{Digest32, LAST_MOMENT};

const MAGIC: [u8; 8] = *b"PBSBOOK1";

/// The last touch of each chunk, as contracts see it: what the book's file says.
///
/// The chunks stand in 256 parts by the first bytes of their digests, each in rising order. A new book has no parts.
#[derive(Drop)]
pub struct Book {
    moment: u64,
    parts: Vec<Vec<Touched>>,
    count: u64,
}

impl Model for Book {
    ghost use Rattle.store_files.specs.Book.{Book as Written};
    ghost use Rattle.atime_book.specs.Parts.{joined, touches_of, IsParted};

    ghost Value = { Written };

    ghost view = { λ b. record { moment = b.moment; touches = touches_of (joined b.parts.items) } };

    ghost invariant = { λ b. IsParted b.parts.items b.count };
}

/// Chunks whose last touch is before this moment may go: a day and five minutes before the collector's start, and at
/// least five minutes before the start of the oldest writer that ran then.
pub fn cutoff(start: u64, oldest: Option<u64>) -> u64
    ensures { result ≡ cutoff_of start oldest }
{
    let day = start.saturating_sub(86_700);
    match oldest {
        Some(oldest) => day.min(oldest.saturating_sub(300)),
        None => day,
    }
}

// Whether there is a last touch, before the cutoff.
fn is_before(last: Option<u64>, cutoff: u64) -> bool
    ensures { result ≡ is_stale last cutoff }
{
    match last {
        Some(moment) => moment < cutoff,
        None => false,
    }
}

impl Book {
    /// No chunk was touched. It takes no memory.
    pub fn new(alloc: Global) -> Book
        ensures { result ≡ empty }
    {
        Book::as_of(alloc, 0)
    }

    // No chunk was touched, as of this moment.
    fn as_of(alloc: Global, moment: u64) -> Book
        ensures { result ≡ record { moment = moment; touches = [] } }
    {
        let parts = Vec::new(alloc);
        Book {
            moment,
            parts,
            count: 0,
        }
    }

    /// The last moment of the book that was read, or 0.
    pub fn moment(&self) -> u64
        ensures { result ≡ self.now.moment }
    {
        self.moment
    }

    /// Touches a chunk: its last touch is the greatest moment of one. For a chunk that has one already it takes no
    /// memory. At want of memory nothing has changed.
    pub fn touch(&mut self, digest: &Digest32, moment: u64) -> Result<(), AllocError>
        ensures ok { OnOk result (TouchedAt self.old self.new digest.now.0 moment) }
        ensures known { IsSome (last_of self.old digest.now.0) → IsOk result }
        ensures err { OnErr result (self.new ≡ self.old) }
    {
        if self.last(digest).is_some() {
            self.touch_known(digest, moment);
            return Ok(());
        }
        self.note_new(Touched {
            digest: *digest,
            moment,
        })
    }

    // Notes a chunk that the book does not have. At want of memory, or of a number for one more, nothing has changed.
    fn note_new(&mut self, touched: Touched) -> Result<(), AllocError>
        requires { last_of self.old touched.digest.0 ≡ None }
        ensures ok { OnOk result (NotesNew self.old self.new (as_touch touched)) }
        ensures err { OnErr result (self.new ≡ self.old) }
    {
        let count = self.count.checked_add(1).ok_or(AllocError)?;
        if self.parts.is_empty() {
            let alloc = *self.parts.allocator();
            self.parts = empty_parts(alloc)?;
        }
        let part = &mut self.parts[number_of(&touched.digest)];
        if let Err(place) = place_of(part, &touched.digest) {
            part.insert(place, touched)?;
            self.count = count;
        }
        Ok(())
    }

    /// Touches a chunk that the book has; of another nothing is noted. It takes no memory.
    pub fn touch_known(&mut self, digest: &Digest32, moment: u64)
        ensures { TouchesKnown self.old self.new digest.now.0 moment }
    {
        let number = number_of(digest);
        if number >= self.parts.len() {
            return;
        }
        let part = &mut self.parts[number];
        if let Ok(place) = place_of(part, digest) {
            let touched = &mut part[place];
            touched.moment = moment.max(touched.moment);
        }
    }

    /// A chunk's last touch. It takes no memory.
    pub fn last(&self, digest: &Digest32) -> Option<u64>
        ensures { result ≡ last_of self.now digest.now.0 }
    {
        let part = self.parts.get(number_of(digest))?;
        match place_of(part, digest) {
            Ok(place) => Some(part[place].moment),
            Err(_) => None,
        }
    }

    /// Whether a chunk's last touch is before the cutoff. It takes no memory.
    pub fn is_stale(&self, digest: &Digest32, cutoff: u64) -> bool
        ensures { result ≡ is_stale (last_of self.now digest.now.0) cutoff }
    {
        is_before(self.last(digest), cutoff)
    }

    /// Whether a chunk's last touch is before the cutoff; then it is taken out. It takes no memory.
    pub fn sweep_one(&mut self, digest: &Digest32, cutoff: u64) -> bool
        ensures stale { result ≡ is_stale (last_of self.old digest.now.0) cutoff }
        ensures swept { SweptAt self.old self.new digest.now.0 result }
    {
        if !self.is_stale(digest, cutoff) {
            return false;
        }
        self.forget(digest);
        true
    }

    /// Takes a chunk out, where it is there. It takes no memory.
    pub fn forget(&mut self, digest: &Digest32)
        ensures { SweptAt self.old self.new digest.now.0 true }
    {
        let number = number_of(digest);
        if number >= self.parts.len() {
            return;
        }
        let part = &mut self.parts[number];
        if let Ok(place) = place_of(part, digest) {
            let _ = part.remove(place);
            self.count -= 1;
        }
    }

    /// The book's file at a moment. Where no touch is after it, `read` gives the book at that moment from it.
    pub fn text(&self, alloc: Global, moment: u64) -> Result<Vec<u8>, AllocError>
        ensures text { IfOk result (λ text. text.items ≡ book_text (as_of moment self.now)) }
        ensures fits { IsAt self.now moment → OnOk result (FitsBook (as_of moment self.now)) }
        ensures read_again { IsAt self.now moment → IfOk result (ReadsAt self.now moment) }
    {
        self.written(alloc, moment)
    }

    // The file's text, where the book is one at that moment.
    #[tactic(auto, unfolding(store_files::specs::Book::book_text))]
    fn written(&self, alloc: Global, moment: u64) -> Result<Vec<u8>, AllocError>
        ensures text { IfOk result (λ text. text.items ≡ book_text (as_of moment self.now)) }
        ensures order { OnOk result (IsInOrder self.now) }
    {
        let mut text = self.signed(alloc, moment)?;
        let csum = Sha256::digest(text.as_slice());
        text.extend_from_slice(&csum)?;
        Ok(text)
    }

    // What the checksum is of.
    fn signed(&self, alloc: Global, moment: u64) -> Result<Vec<u8>, AllocError>
        ensures text { IfOk result (λ text. text.items ≡ signed_text (as_of moment self.now)) }
        ensures order { OnOk result (IsInOrder self.now) }
    {
        let mut text = head(alloc, moment, self.count)?;
        push_touches(&mut text, &self.parts)?;
        Ok(text)
    }

    /// The book whose file this is, or `None` where the bytes are none. No touch is after its moment.
    pub fn read(alloc: Global, bytes: &[u8]) -> Result<Option<Book>, AllocError>
        ensures book { IfOk result (λ book. book ≡ book_of bytes.now) }
        ensures fits { IfOk result (λ book. IfSome book FitsBook) }
        ensures early { IfOk result (λ book. IfSome book IsEarly) }
    {
        if bytes.len() < 56 {
            return Ok(None);
        }
        let moment = reading::moment_of(bytes);
        let cells = &bytes[24..bytes.len() - 32];
        let Some(book) = reading::touches_in(alloc, cells, moment)? else {
            return Ok(None);
        };
        if moment > LAST_MOMENT {
            return Ok(None);
        }
        let text = book.written(alloc, moment)?;
        if bytes != text.as_slice() {
            return Ok(None);
        }
        Ok(Some(book))
    }
}

fn head(alloc: Global, moment: u64, count: u64) -> Result<Vec<u8>, AllocError>
    ensures { IfOk result (λ text. text.items ≡ head_text moment count) }
{
    let mut text = Vec::from_slice(alloc, &MAGIC)?;
    text.extend_from_slice(&moment.to_le_bytes())?;
    text.extend_from_slice(&count.to_le_bytes())?;
    Ok(text)
}

fn push_touches(text: &mut Vec<u8>, parts: &[Vec<Touched>]) -> Result<(), AllocError>
    ensures text { OnOk result (AddsTouches (joined parts.now) text.old.items text.new.items) }
    ensures digests { OnOk result (HaveDigests (touches_of (joined parts.now))) }
{
    for part in parts {
        push_part(text, part)?;
    }
    Ok(())
}

fn push_part(text: &mut Vec<u8>, part: &[Touched]) -> Result<(), AllocError>
    ensures text { OnOk result (AddsTouches part.now text.old.items text.new.items) }
    ensures digests { OnOk result (HaveDigests (touches_of part.now)) }
{
    for touched in part {
        text.extend_from_slice(&touched.digest.0)?;
        text.extend_from_slice(&touched.moment.to_le_bytes())?;
    }
    Ok(())
}
