//! Stamps by number: in one list of numbers from 0 on, and in a sorted map.
ghost use Rattle.std.specs.Prelude.{◌≡◌, ℕ, ◌<◌, ◌≤◌, ◌==◌, if◌then◌else◌, [], nat_eq, length};
ghost use Rattle.std.specs.Prelude.{slice_index, slice_set, IfOk, OnOk, OnErr};
ghost use Rattle.std.specs.Map.{lookup};
ghost use Rattle.hint_check.specs.Inner.Stamps.{mapped_at, HasEntry};

use std::alloc::{AllocError, Global};
use std::collections::BTreeMap;
use std::marker::Model;

/// The stamps of a run of numbers, or none.
#[derive(Drop)]
pub struct StampList {
    stamps: Vec<u32>,
}

impl Model for StampList {
    ghost use Rattle.std.specs.Prelude.{ℕ, List};

    ghost Value = { List ℕ };

    ghost view = { λ p. p.stamps.items };
}

impl StampList {
    /// No stamp is there. It takes no memory yet.
    pub fn none(alloc: Global) -> StampList
        ensures { result ≡ [] }
    {
        StampList {
            stamps: Vec::new(alloc),
        }
    }

    /// How many numbers have room.
    #[inline(always)]
    pub fn len(&self) -> usize
        ensures { result ≡ length self.now }
    {
        self.stamps.len()
    }

    /// All its stamps.
    #[inline(always)]
    pub fn all(&self) -> &[u32]
        ensures { result.now ≡ self.now }
    {
        &self.stamps
    }

    /// Makes room for so many numbers, and changes no stamp.
    pub fn widen(&mut self, count: usize) -> Result<(), AllocError>
        ensures room { OnOk result (count ≤ length self.new) }
        ensures bound { length self.old ≤ count → length self.new ≤ count }
        ensures same { (n : ℕ) → slice_index self.new n ≡ slice_index self.old n }
    {
        if self.stamps.len() < count {
            self.stamps.resize(count, 0)?;
        }
        Ok(())
    }

    /// The stamp of a number, 0 where it has no room.
    #[inline(always)]
    pub fn get(&self, place: usize) -> u32
        ensures { result ≡ slice_index self.now place }
    {
        match self.stamps.get(place) {
            Some(stamp) => *stamp,
            None => 0,
        }
    }

    /// Sets the stamp of a number that has room.
    #[inline(always)]
    pub fn set(&mut self, place: usize, stamp: u32)
        requires { place < length self.old }
        ensures { self.new ≡ slice_set self.old place stamp }
    {
        self.stamps[place] = stamp;
    }

    /// Sets the stamp of a number to 0, where it has room.
    pub fn forget(&mut self, place: usize)
        ensures { self.new ≡ slice_set self.old place 0 }
    {
        if place < self.stamps.len() {
            self.stamps[place] = 0;
        }
    }

    /// Takes all stamps out.
    pub fn clear(&mut self)
        ensures { self.new ≡ [] }
    {
        self.stamps.clear();
    }
}

/// Stamps in a map. A number without an entry has the stamp 0.
#[derive(Drop)]
pub struct StampMap {
    alloc: Global,
    stamps: BTreeMap<u32, u32>,
}

impl Model for StampMap {
    ghost use Rattle.std.specs.Prelude.{ℕ, List};

    ghost Value = { List (ℕ × ℕ) };

    ghost view = { λ s. s.stamps.entries };
}

impl StampMap {
    /// No stamp is set. It takes no memory yet.
    pub fn new(alloc: Global) -> StampMap
        ensures { result ≡ [] }
    {
        StampMap {
            alloc,
            stamps: BTreeMap::new(alloc),
        }
    }

    /// The stamp of a number.
    pub fn get(&self, number: u32) -> u32
        ensures { result ≡ mapped_at self.now number }
    {
        match entry_of(&self.stamps, number) {
            Some(stamp) => stamp,
            None => 0,
        }
    }

    /// Sets the stamp of a number, with an entry or without, in one look-up, and gives the stamp
    /// that it had.
    pub fn put(&mut self, number: u32, stamp: u32) -> Result<u32, AllocError>
        ensures had { IfOk result (λ had. had ≡ mapped_at self.old number) }
        ensures ok { OnOk result ((n : ℕ)
            → mapped_at self.new n ≡ (if number == n then stamp else mapped_at self.old n)) }
        ensures err { OnErr result (self.new ≡ self.old) }
    {
        let had = self.stamps.insert(number, stamp)?;
        Ok(had.unwrap_or(0))
    }

    /// Makes an entry for a number, and changes no stamp.
    pub fn make_entry(&mut self, number: u32) -> Result<(), AllocError>
        ensures made { OnOk result (HasEntry self.new number) }
        ensures same { (n : ℕ) → mapped_at self.new n ≡ mapped_at self.old n }
    {
        match entry_of(&self.stamps, number) {
            Some(_) => Ok(()),
            None => {
                self.stamps.insert(number, 0)?;
                Ok(())
            }
        }
    }

    /// Sets the stamp of a number that has an entry.
    pub fn set(&mut self, number: u32, stamp: u32)
        requires { HasEntry self.old number }
        ensures { (n : ℕ)
            → mapped_at self.new n ≡ (if number == n then stamp else mapped_at self.old n) }
    {
        set_entry(&mut self.stamps, number, stamp);
    }

    /// Sets the stamp of a number to 0, where it has an entry.
    pub fn forget(&mut self, number: u32)
        ensures { (n : ℕ)
            → mapped_at self.new n ≡ (if number == n then 0 else mapped_at self.old n) }
    {
        forget_entry(&mut self.stamps, number);
    }

    /// Gives all stamps up.
    pub fn clear(&mut self)
        ensures { self.new ≡ [] }
    {
        self.stamps = BTreeMap::new(self.alloc);
    }
}

/// The stamp of a number that has an entry.
fn entry_of(stamps: &BTreeMap<u32, u32>, number: u32) -> Option<u32>
    ensures { result ≡ lookup (nat_eq number) stamps.now.entries }
{
    match stamps.get(&number) {
        Some(stamp) => Some(*stamp),
        None => None,
    }
}

/// Sets the stamp of a number that has an entry.
fn set_entry(stamps: &mut BTreeMap<u32, u32>, number: u32, stamp: u32)
    requires { HasEntry stamps.old.entries number }
    ensures { (n : ℕ) → mapped_at stamps.new.entries n
        ≡ (if number == n then stamp else mapped_at stamps.old.entries n) }
{
    if let Some(place) = stamps.get_mut(&number) {
        *place = stamp;
    }
}

/// Sets the stamp of a number to 0, where it has an entry.
fn forget_entry(stamps: &mut BTreeMap<u32, u32>, number: u32)
    ensures { (n : ℕ) → mapped_at stamps.new.entries n
        ≡ (if number == n then 0 else mapped_at stamps.old.entries n) }
{
    if let Some(place) = stamps.get_mut(&number) {
        *place = 0;
    }
}
