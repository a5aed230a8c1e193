//! An entry of an index of the reader's snapshot. Of the index one page is read, unless it is at hand.

ghost use Rattle.std.specs.Prelude.{◌≡◌, ◌≤◌, ◌<◌, IfErr, IfOk, IsErrOf, OnErr, OnOk, length, option_map};
ghost use Rattle.disk_trait.specs.Effects.{OnlyReads};
ghost use Rattle.store_types.specs.declared.refusal.Refusal.TheVariants.{BadRange, Unreadable};
ghost use Rattle.wire_commands.specs.HasText.{ReplyHasText};
ghost use Rattle.wire_commands.specs.declared.reply.Reply.TheVariants.{Refused};
ghost use Rattle.snapshot_files.specs.Parts.{RefusesPart};
ghost use Rattle.snapshot_files.specs.Reads.{StopHasText};
ghost use Rattle.store_stops.specs.Stops.{IfRefused};
ghost use Rattle.store_stops.specs.declared.stop.Stop.TheVariants.{DiskFailed};
ghost use Rattle.index_pages.specs.Calls.{CallsAtMost};
ghost use Rattle.paged_indexes.specs.Calls.{CallsToOpen};
ghost use Rattle.snapshot_files.specs.Indexes.{kind_of_index};
ghost use Rattle.core_state.specs.Indexed.{open_of};
ghost use Rattle.core_reader.specs.Entries.{IsFirst, IsNext, IsPageFor, IsTurn, at_hand, count_of, turned, want_entry};
ghost use Rattle.core_reader.specs.EntryReads.{CallsForEntry, FindsBy, FindsFirst, FindsNext, GivesDigest, GivesPage, IsTaken, calls_beside};
ghost use Rattle.core_reader.specs.declared.entries.Turn.TheVariants.{ToIndex};

use crate::paging::page_entries;
use core_state::{Indexes, OpenIndex, OpenIndexes, OpenPage};
use disk_trait::Disk;
use paged_indexes::{IndexEntry, IndexPages, Page, TakesEntries};
use snapshot_files::{index_kind, open_index, unreadable};
use std::alloc::{AllocError, Global};
use store_stops::Stop;
use store_types::{Digest32, FileName, Refusal, Rows};

/// How many entries a page has at the most.
const PAGE_ENTRIES: u32 = index_pages::PAGE_ENTRIES as u32;

/// What is opened and read for an entry.
#[derive(Drop)]
pub enum Turn {
    /// Nothing: its page is at hand.
    Stay,
    /// Its page.
    ToPage(OpenPage),
    /// Its index, and its page.
    ToIndex(OpenIndex, OpenPage),
}

/// The digest of the piece at an entry, and what was opened and read for it.
#[derive(Drop)]
pub struct Found {
    pub digest: Digest32,
    pub turn: Turn,
}

/// The index has such an entry.
fn want_entry(pages: &IndexPages, place: u32) -> Result<(), Refusal>
    ensures value { result ≡ want_entry pages.now place }
    ensures refusal { IfErr result (λ refusal. refusal ≡ BadRange (count_of pages.now)) }
    ensures text { IfErr result (λ refusal. ReplyHasText (Refused refusal)) }
{
    let count = pages.len();
    if place >= count {
        return Err(Refusal::BadRange {
            size: u64::from(count),
        });
    }
    Ok(())
}

/// The digest of the entry, among those of its page.
fn digest_on(
    alloc: Global,
    path: &str,
    entries: &[IndexEntry],
    place: u32,
) -> Result<Digest32, Stop>
    requires { length path.now ≤ 255 }
    ensures value { GivesDigest path.now entries.now place result }
    ensures kind { IfErr result (IfRefused (RefusesPart path.now)) }
    ensures text { IfErr result StopHasText }
    ensures unfailed { IsErrOf result DiskFailed → ⊥ }
{
    match entries.get((place % PAGE_ENTRIES) as usize) {
        Some(entry) => Ok(entry.digest),
        None => Err(Stop::Refused(unreadable(alloc, path)?)),
    }
}

/// Reads the page of the index of this name that has the entry. It is refused where it is not as it was opened.
fn read_page<D: Disk>(
    disk: &mut D,
    alloc: Global,
    path: &str,
    pages: &IndexPages,
    name: &FileName,
    place: u32,
) -> Result<OpenPage, Stop>
    requires path { length path.now ≤ 255 }
    requires place { place < count_of pages.now }
    ensures reads { OnlyReads D.Disk disk.old disk.new (IsErrOf result DiskFailed) }
    ensures calls { CallsAtMost D.Disk disk.old disk.new 1 }
    ensures exact { GivesPage D.Disk disk.old path.now pages.now place result }
    // on any disk
    ensures page { IfOk result (IsPageFor pages.now name.now place) }
    ensures refusal { IfErr result (IfRefused (λ refusal. refusal ≡ Unreadable path.now)) }
    ensures text { IfErr result StopHasText }
{
    let number = place / PAGE_ENTRIES;
    let name = name.clone()?;
    let mut room = Page::new(alloc)?;
    let entries = page_entries(disk, alloc, path, pages, number, &mut room)?;
    Ok(OpenPage {
        name,
        number,
        entries,
    })
}

/// The entries of one page, as its index is opened: those before it are passed over, and those behind it.
#[derive(Drop)]
pub struct PageTaken {
    /// So many entries are still to be passed over.
    pub skip: u32,
    /// 1,024 at most.
    pub entries: Vec<IndexEntry>,
}

impl TakesEntries for PageTaken {
    ghost taken = { λ p base entries. IsTaken p entries };

    fn take(&mut self, _start: u64, entry: &IndexEntry) -> Result<(), AllocError> {
        if self.skip > 0 {
            self.skip -= 1;
            return Ok(());
        }
        if self.entries.len() < PAGE_ENTRIES as usize {
            self.entries.push(*entry)?;
        }
        Ok(())
    }
}

/// The entry of the index at the path, which is opened for it: its page is taken as it is read.
fn find_first<D: Disk>(
    disk: &mut D,
    alloc: Global,
    path: &str,
    name: &FileName,
    place: u32,
) -> Result<Found, Stop>
    requires { length path.now ≤ 255 }
    ensures reads { OnlyReads D.Disk disk.old disk.new (IsErrOf result DiskFailed) }
    ensures calls { CallsToOpen D.Disk disk.old disk.new path.now (kind_of_index name.now) }
    ensures exact { FindsFirst D.Disk disk.old path.now name.now place result }
    // on any disk
    ensures turn { IfOk result (λ found. IsFirst name.now place found.turn) }
    ensures kind { IfErr result (IfRefused (RefusesPart path.now)) }
    ensures text { IfErr result StopHasText }
{
    let number = place / PAGE_ENTRIES;
    let mut taken = PageTaken {
        skip: number * PAGE_ENTRIES,
        entries: Vec::new(alloc),
    };
    let pages = open_index(disk, alloc, path, index_kind(name), &mut taken)?;
    want_entry(&pages, place)?;
    let digest = digest_on(alloc, path, &taken.entries, place)?;
    let name = name.clone()?;
    let page = OpenPage {
        name: name.clone()?,
        number,
        entries: taken.entries,
    };
    Ok(Found {
        digest,
        turn: Turn::ToIndex(OpenIndex { name, pages }, page),
    })
}

/// The entry of the index of this name, which is open: its page is read where it is not at hand.
fn find_next<D: Disk>(
    disk: &mut D,
    alloc: Global,
    path: &str,
    pages: &IndexPages,
    at_hand: Option<&OpenPage>,
    name: &FileName,
    place: u32,
) -> Result<Found, Stop>
    requires { length path.now ≤ 255 }
    ensures reads { OnlyReads D.Disk disk.old disk.new (IsErrOf result DiskFailed) }
    ensures calls { CallsAtMost D.Disk disk.old disk.new
        (calls_beside (option_map (λ p. p.now) at_hand.entry)) }
    ensures exact { FindsNext D.Disk disk.old path.now
        pages.now (option_map (λ p. p.now) at_hand.entry) place result }
    // on any disk
    ensures turn { IfOk result (λ found. IsNext
        pages.now (option_map (λ p. p.now) at_hand.entry) name.now place found.turn) }
    ensures kind { IfErr result (IfRefused (RefusesPart path.now)) }
    ensures text { IfErr result StopHasText }
{
    want_entry(pages, place)?;
    if let Some(page) = at_hand {
        let digest = digest_on(alloc, path, &page.entries, place)?;
        return Ok(Found {
            digest,
            turn: Turn::Stay,
        });
    }
    let page = read_page(disk, alloc, path, pages, name, place)?;
    let digest = digest_on(alloc, path, &page.entries, place)?;
    Ok(Found {
        digest,
        turn: Turn::ToPage(page),
    })
}

/// The index of this name, where it is open.
fn open_named<'a>(row: &'a Indexes, name: &FileName) -> Option<&'a OpenIndex>
    ensures { option_map (λ o. o.now) result ≡ open_of name.now row.now }
{
    match row {
        Indexes::Opened(open) => open
            .opened
            .as_slice()
            .iter()
            .find(|index| index.name == *name),
        _ => None,
    }
}

/// The page of the index of this name that has the entry, where it is at hand.
fn page_at_hand<'a>(row: &'a Indexes, name: &FileName, place: u32) -> Option<&'a OpenPage>
    ensures { option_map (λ p. p.now) result ≡ at_hand row.now name.now place }
{
    let Indexes::Opened(open) = row else {
        return None;
    };
    if open.page.name != *name || open.page.number != place / PAGE_ENTRIES {
        return None;
    }
    Some(&open.page)
}

/// The entry of the index at the path, which has this name. What the lane keeps of it is not read again: the index is opened
/// where it is not, and a page is read where it is not at hand.
///
/// The refusals, in the order in which they are tested: nothing is there, or it is no index, where it is opened; it has no
/// such entry, of as many as the refusal has; the page is not as it was opened.
pub fn find_entry<D: Disk>(
    disk: &mut D,
    alloc: Global,
    path: &str,
    row: &Indexes,
    name: &FileName,
    place: u32,
) -> Result<Found, Stop>
    requires { length path.now ≤ 255 }
    ensures reads { OnlyReads D.Disk disk.old disk.new (IsErrOf result DiskFailed) }
    ensures calls { CallsForEntry D.Disk disk.old disk.new path.now row.now name.now place }
    ensures exact { FindsBy D.Disk disk.old path.now row.now name.now place result }
    // on any disk
    ensures turn { IfOk result (λ found. IsTurn row.now name.now place found.turn) }
    ensures kind { IfErr result (IfRefused (RefusesPart path.now)) }
    ensures text { IfErr result StopHasText }
{
    let at_hand = page_at_hand(row, name, place);
    match open_named(row, name) {
        Some(index) => find_next(disk, alloc, path, &index.pages, at_hand, name, place),
        None => find_first(disk, alloc, path, name, place),
    }
}

/// With an index more that is open, and a page of it.
fn opening(
    row: &mut Indexes,
    alloc: Global,
    index: OpenIndex,
    page: OpenPage,
) -> Result<(), AllocError>
    ensures ok { OnOk result (row.new ≡ turned (ToIndex index page) row.old) }
    ensures err { OnErr result (row.new ≡ row.old) }
{
    if let Indexes::Opened(open) = row {
        open.opened.insert(0, index)?;
        open.page = page;
        return Ok(());
    }
    let mut opened = Rows::new(alloc);
    opened.insert(0, index)?;
    *row = Indexes::Opened(OpenIndexes { opened, page });
    Ok(())
}

/// The lane keeps what was opened and read for an entry. At want of memory it keeps what it kept before.
pub fn keep(row: &mut Indexes, alloc: Global, turn: Turn) -> Result<(), AllocError>
    ensures ok { OnOk result (row.new ≡ turned turn row.old) }
    ensures err { OnErr result (row.new ≡ row.old) }
{
    match turn {
        Turn::Stay => Ok(()),
        Turn::ToPage(page) => {
            if let Indexes::Opened(open) = row {
                open.page = page;
            }
            Ok(())
        }
        Turn::ToIndex(index, page) => opening(row, alloc, index, page),
    }
}
