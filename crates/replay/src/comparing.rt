//! Kept replies that are read piece by piece, and compared.

ghost use Rattle.std.specs.Prelude.{◌≡◌, [], ◌∷◌, slice_get};
ghost use Rattle.replay.specs.Reading.{ReadsOut, HasReadCause};
ghost use Rattle.replay.specs.Compare.{covers as covers_place, is_free, unequal as unequal_at, differs_from};
ghost use Rattle.replay.specs.Comparing.{meets as meets_at, outcome, Begins, Takes};

use crate::difference::Unequal;
use crate::reading::{PIECE, Unread, read_piece};
use plain_store::Free;
use port_traits::Source;

/// How many bytes of a reply are free: five numbers.
const FREE_SIZE: u64 = 40;

/// The first byte at which a lane's replayed replies and all that a source has differ. The source is read to its end.
pub fn compare_out<S: Source>(
    source: &mut S,
    lane: u32,
    replayed: &[u8],
    frees: &[Free],
) -> Result<Option<Unequal>, Unread>
    ensures difference { ReadsOut (S.left source.old) (S.left source.new)
        (λ kept u. u ≡ differs_from frees.now lane 0 replayed.now kept) result }
    ensures cause { HasReadCause (S.faults source.old) (S.faults source.new) result }
{
    let mut comparing = Comparing::new(lane, replayed, frees);
    let mut taken = 0;
    let mut piece = [0; PIECE];
    loop {
        let count = read_piece(source, taken, &mut piece[..])?;
        if count == 0 {
            return Ok(comparing.end());
        }
        comparing.take_all(&piece[..count]);
        taken += count as u64;
    }
}

/// A comparison of a lane's replies that goes on, up to the first byte that differs.
#[derive(Drop)]
struct Comparing<'a> {
    lane: u32,
    replayed: &'a [u8],
    frees: &'a [Free],
    place: usize,
    /// The first byte that differs, where it was found.
    found: Option<Unequal>,
}

impl<'a> Comparing<'a> {
    fn new(lane: u32, replayed: &'a [u8], frees: &'a [Free]) -> Comparing<'a>
        ensures { Begins result lane replayed.now frees.now }
    {
        Comparing {
            lane,
            replayed,
            frees,
            place: 0,
            found: None,
        }
    }

    // The next bytes that were kept.
    fn take_all(&mut self, kept: &[u8])
        ensures { Takes self.old self.new kept.now }
    {
        for byte in kept {
            self.take(*byte);
        }
    }

    // The next byte that was kept.
    fn take(&mut self, kept: u8)
        ensures { Takes self.old self.new (kept ∷ []) }
    {
        if self.found.is_some() {
            return;
        }
        let replayed = byte_of(self.replayed, self.place);
        if self.meets(replayed, kept) {
            self.place += 1;
            return;
        }
        self.found = Some(self.difference(replayed, Some(kept)));
    }

    // Whether this may be kept where that is replayed.
    fn meets(&self, replayed: Option<u8>, kept: u8) -> bool
        ensures { result ≡ meets_at self.now.frees.now self.now.lane self.now.place replayed kept }
    {
        match replayed {
            Some(byte) => byte == kept || self.is_free(),
            None => false,
        }
    }

    // Nothing more was kept.
    fn end(&self) -> Option<Unequal>
        ensures { result ≡ outcome self.now [] }
    {
        if self.found.is_some() {
            return self.found;
        }
        match byte_of(self.replayed, self.place) {
            Some(byte) => Some(self.difference(Some(byte), None)),
            None => None,
        }
    }

    fn difference(&self, replayed: Option<u8>, kept: Option<u8>) -> Unequal
        ensures { result ≡ unequal_at self.now.lane self.now.place replayed kept }
    {
        Unequal {
            lane: self.lane,
            place: self.place as u64,
            replayed,
            kept,
        }
    }

    fn is_free(&self) -> bool
        ensures { result ≡ is_free self.now.frees.now self.now.lane self.now.place }
    {
        let (lane, place) = (self.lane, self.place as u64);
        self.frees.iter().any(|free| covers(free, lane, place))
    }
}

// The byte at a place, where there is one.
fn byte_of(bytes: &[u8], place: usize) -> Option<u8>
    ensures { result ≡ slice_get bytes.now place }
{
    bytes.get(place).copied()
}

// Whether the bytes that are free here have this place.
fn covers(free: &Free, lane: u32, place: u64) -> bool
    ensures { result ≡ covers_place lane place free.now }
{
    free.lane == lane && free.place <= place && place - free.place < FREE_SIZE
}
