//! The catalogue of the finished snapshots.

ghost use Rattle.std.specs.Prelude.{◌≡◌, ◌<◌, ◌≤◌, IsTrue, OnOk, [], drop, filter, length, option_map};
ghost use Rattle.std.specs.List.{list_all, position_or_len};
ghost use Rattle.std.specs.Ordering.{is_lt};
ghost use Rattle.std.specs.Option.{ForSome};
ghost use Rattle.store_types.specs.Names.{IsKey, group_cmp, group_of_key, key_lt};
ghost use Rattle.core_state.specs.Catalogue.{insert_listed, without_listed};
ghost use Rattle.core_state.specs.Found.{IsShortNamed, count_of, first_unreadable, is_behind, is_in, kept_named, latest_of, lent_key, path_in, path_named as path_among, whole_of};
ghost use Rattle.core_state.specs.Named.{is_named_snapshot};
ghost use Rattle.core_state.specs.Sweeps.{by_number};

use crate::kept::{Kept, Listed, StoredFile};
use snapshot_files::FilePath;
use std::alloc::{AllocError, Global};
use std::marker::Model;
use store_types::{Bytes, FileName, GroupKey, SnapshotKey};

/// The finished snapshots. Contracts see their list, and how many more are taken in without memory.
///
/// Their keys never fall. Each has a key with a text, and the name of the file that makes it damaged, if any, is short.
#[derive(Drop)]
pub struct Catalogue {
    listed: Vec<Listed>,
}

impl Model for Catalogue {
    ghost use Rattle.std.specs.Prelude.{◌-◌, vec_capacity, vec_len};
    ghost use Rattle.core_state.specs.Catalogued.{Catalogued, IsListing};

    ghost Value = { Catalogued };

    ghost view = { λ c. record { listed = c.listed.items; room = vec_capacity c.listed - vec_len c.listed } };

    ghost invariant = { λ c. IsListing c.listed.items };
}

/// Where the file of that name stands.
pub fn path_named<'a>(files: &'a [StoredFile], name: &FileName) -> Option<&'a FilePath>
    ensures { option_map (λ p. p.now) result ≡ path_among name.now files.now }
{
    let found = files.iter().find(|file| file.name == *name);
    found.map(|file| &file.path)
}

/// The key's group comes before this one.
fn is_before(key: &SnapshotKey, group: &GroupKey) -> bool
    ensures { result ≡ is_lt (group_cmp (group_of_key key.now) group.now) }
{
    key.kind
        .cmp(&group.kind)
        .then(key.id.cmp(&group.id))
        .is_lt()
}

impl Catalogue {
    /// A catalogue without snapshots. It takes no memory.
    pub fn new(alloc: Global) -> Catalogue
        ensures { result.listed ≡ [] }
    {
        Catalogue {
            listed: Vec::new(alloc),
        }
    }

    /// All finished snapshots. Their keys never fall.
    pub fn as_slice(&self) -> &[Listed]
        ensures listed { result.now ≡ self.now.listed }
        ensures named { IsTrue (list_all is_named_snapshot result.now) }
    {
        self.listed.as_slice()
    }

    /// The place of the first snapshot that is greater, or the end.
    fn place_after(&self, key: &SnapshotKey) -> usize
        ensures value { result ≡ position_or_len (λ x. key_lt key.now x.kept.key) self.now.listed }
        ensures bound { result ≤ length self.now.listed }
        ensures rest { drop result self.now.listed
            ≡ filter (λ x. key_lt key.now x.kept.key) self.now.listed }
    {
        let listed = self.listed.as_slice();
        listed.partition_point(|x| !(*key < x.kept.key))
    }

    /// The snapshots behind a key, or all.
    pub fn after(&self, key: Option<&SnapshotKey>) -> &[Listed]
        ensures value { result.now
            ≡ filter (λ x. is_behind (lent_key key.entry) x.kept) self.now.listed }
        ensures named { IsTrue (list_all is_named_snapshot result.now) }
    {
        match key {
            Some(key) => &self.listed[self.place_after(key)..],
            None => self.listed.as_slice(),
        }
    }

    /// The group's snapshots, damaged ones too, the oldest first.
    pub fn group(&self, group: &GroupKey) -> &[Listed]
        ensures value { result.now ≡ filter (λ x. is_in group.now x.kept) self.now.listed }
        ensures named { IsTrue (list_all is_named_snapshot result.now) }
    {
        let listed = self.listed.as_slice();
        let start = listed.partition_point(|x| is_before(&x.kept.key, group));
        let rest = &listed[start..];
        let count = rest.partition_point(|x| x.kept.key.is_of(group));
        &rest[..count]
    }

    /// The finished snapshot with this key.
    pub fn named(&self, key: &SnapshotKey) -> Option<&Kept>
        ensures value { option_map (λ k. k.now) result ≡ kept_named key.now self.now.listed }
        ensures short { ForSome result (λ k. IsShortNamed k.now) }
    {
        let listed = self.listed.as_slice();
        let place = listed.partition_point(|x| x.kept.key < *key);
        match listed.get(place) {
            Some(found) if found.kept.key == *key => Some(&found.kept),
            _ => None,
        }
    }

    /// Where the snapshot's file stands.
    pub fn path(&self, key: &SnapshotKey, name: &FileName) -> Option<&FilePath>
        ensures { option_map (λ p. p.now) result ≡ path_in key.now name.now self.now.listed }
    {
        let kept = self.named(key)?;
        path_named(kept.files.as_slice(), name)
    }

    /// The snapshot of this number.
    pub fn by_number(&self, number: u64) -> Option<&Kept>
        ensures { option_map (λ k. k.now) result ≡ by_number number self.now.listed }
    {
        let found = self.listed.iter().find(|listed| listed.number == number);
        found.map(|listed| &listed.kept)
    }

    /// The full name of the file that makes the first damaged snapshot so, of 251 bytes at most.
    pub fn first_damage(&self) -> Option<&Bytes>
        ensures value { option_map (λ name. name.now) result ≡ first_unreadable self.now.listed }
        ensures short { ForSome result (λ name. length name.now ≤ 251) }
    {
        let found = self
            .listed
            .iter()
            .find(|listed| listed.kept.unreadable.is_some());
        match found {
            Some(listed) => listed.kept.unreadable.as_ref(),
            None => None,
        }
    }

    /// How many snapshots the group has, damaged ones too.
    pub fn count(&self, group: &GroupKey) -> usize
        ensures { result ≡ count_of group.now self.now.listed }
    {
        self.group(group).len()
    }

    /// The group's latest snapshot, whole or damaged.
    pub fn latest(&self, group: &GroupKey) -> Option<&SnapshotKey>
        ensures value { lent_key result ≡ latest_of group.now self.now.listed }
    {
        match self.group(group).last() {
            Some(listed) => Some(&listed.kept.key),
            None => None,
        }
    }

    /// The group's latest whole snapshot.
    pub fn latest_whole(&self, group: &GroupKey) -> Option<&SnapshotKey>
        ensures value { lent_key result ≡ whole_of group.now self.now.listed }
        ensures grammar { ForSome result (λ k. IsKey k.now) }
    {
        let mut whole = None;
        for listed in self.group(group) {
            if listed.kept.unreadable.is_none() {
                whole = Some(&listed.kept.key);
            }
        }
        whole
    }

    /// Takes memory for one more snapshot. The list stays as it is.
    pub fn reserve(&mut self) -> Result<(), AllocError>
        ensures same { self.new.listed ≡ self.old.listed }
        ensures room { OnOk result (0 < self.new.room) }
    {
        self.listed.reserve(1)
    }

    /// Places a snapshot before the first that is greater. It takes no memory.
    pub fn insert_reserved(&mut self, listed: Listed)
        requires room { 0 < self.old.room }
        requires named { IsTrue (is_named_snapshot listed) }
        ensures { self.new.listed ≡ insert_listed listed self.old.listed }
    {
        let place = self.place_after(&listed.kept.key);
        self.listed.insert(place, listed).unwrap();
    }

    /// Takes the snapshot out. It takes no memory.
    pub fn take_out(&mut self, key: &SnapshotKey)
        ensures { self.new.listed ≡ without_listed key.now self.old.listed }
    {
        self.listed.retain(|listed| listed.kept.key != *key);
    }
}
