//! A stamp for each number: in one list for the near numbers, which are most, and in a map for the
//! others.
ghost use Rattle.std.specs.Prelude.{◌≡◌, ℕ, ◌<◌, ◌≤◌, ◌==◌, if◌then◌else◌, ◌↔◌, IsTrue, [], length};
ghost use Rattle.std.specs.Prelude.{IfOk, OnOk, OnErr, map};
ghost use Rattle.cnf_text.specs.Literal.{literal_number};
ghost use Rattle.hint_check.specs.Inner.Stamps.{stamp_at, HasRoom, Forgets};

use crate::stamp_parts::{StampList, StampMap};
use cnf_text::literal::Lit;
use std::alloc::{AllocError, Global};
use std::marker::Model;

/// The near numbers are those below this.
pub const NEAR: u32 = 2097152;

/// The near numbers have room for so many at least, once one of them was set.
const FIRST: usize = 256;

/// A stamp for each number, 0 where none was set.
#[derive(Drop)]
pub struct Stamps {
    near: StampList,
    far: StampMap,
}

impl Model for Stamps {
    ghost use Rattle.std.specs.Prelude.{◌≤◌, length};
    ghost use Rattle.hint_check.specs.Inner.Stamps.{Marks};

    ghost Value = { Marks };

    ghost view = { λ s. (s.near, s.far) };

    ghost invariant = { λ s. length s.near ≤ 2097152 };
}

impl Stamps {
    /// No stamp is set. It takes no memory yet.
    pub fn new(alloc: Global) -> Stamps
        ensures { result ≡ ([], []) }
    {
        Stamps {
            near: StampList::none(alloc),
            far: StampMap::new(alloc),
        }
    }

    /// The stamp of a number.
    #[inline(always)]
    pub fn get(&self, number: u32) -> u32
        ensures { result ≡ stamp_at self.now number }
    {
        if number < NEAR {
            self.near.get(number as usize)
        } else {
            self.far.get(number)
        }
    }

    /// The stamps of the near numbers that have room, which are the first ones.
    #[inline(always)]
    pub fn at_hand(&self) -> &[u32]
        ensures stamps { result.now ≡ self.now.0 }
        ensures near { length result.now ≤ 2097152 }
    {
        self.near.all()
    }

    /// Whether a number is near and has room.
    #[inline(always)]
    pub fn is_at_hand(&self, number: u32) -> bool
        ensures room { IsTrue result ↔ (number < length self.now.0) }
        ensures near { IsTrue result → number < 2097152 }
    {
        (number as usize) < self.near.len()
    }

    /// The stamp of a near number that has room.
    #[inline(always)]
    pub fn get_at_hand(&self, number: u32) -> u32
        requires { number < length self.now.0 }
        ensures { result ≡ stamp_at self.now number }
    {
        self.near.get(number as usize)
    }

    /// Sets the stamp of a near number that has room.
    #[inline(always)]
    pub fn set_at_hand(&mut self, number: u32, stamp: u32)
        requires { number < length self.old.0 }
        ensures { (n : ℕ)
            → stamp_at self.new n ≡ (if number == n then stamp else stamp_at self.old n) }
    {
        self.near.set(number as usize, stamp);
    }

    /// Makes room for a number, and changes no stamp.
    #[inline(always)]
    pub fn make_room(&mut self, number: u32) -> Result<(), AllocError>
        ensures made { OnOk result (HasRoom self.new number) }
        ensures same { (n : ℕ) → stamp_at self.new n ≡ stamp_at self.old n }
    {
        if self.is_at_hand(number) {
            return Ok(());
        }
        self.grow(number)
    }

    /// Makes room for a number. The list of the near ones at least doubles, so that few growths
    /// make all of it.
    #[inline(never)]
    fn grow(&mut self, number: u32) -> Result<(), AllocError>
        ensures made { OnOk result (HasRoom self.new number) }
        ensures same { (n : ℕ) → stamp_at self.new n ≡ stamp_at self.old n }
    {
        if number < NEAR {
            let room = near_room(number as usize, self.near.len());
            self.near.widen(room)
        } else {
            self.far.make_entry(number)
        }
    }

    /// Sets the stamp of a number that has room.
    #[inline(always)]
    pub fn set(&mut self, number: u32, stamp: u32)
        requires { HasRoom self.old number }
        ensures { (n : ℕ)
            → stamp_at self.new n ≡ (if number == n then stamp else stamp_at self.old n) }
    {
        if number < NEAR {
            self.near.set(number as usize, stamp);
        } else {
            self.far.set(number, stamp);
        }
    }

    /// Sets the stamp of a number, makes room for it where it has none, and gives the stamp that it
    /// had.
    pub fn put(&mut self, number: u32, stamp: u32) -> Result<u32, AllocError>
        ensures had { IfOk result (λ had. had ≡ stamp_at self.old number) }
        ensures ok { OnOk result ((n : ℕ)
            → stamp_at self.new n ≡ (if number == n then stamp else stamp_at self.old n)) }
        ensures err { OnErr result ((n : ℕ) → stamp_at self.new n ≡ stamp_at self.old n) }
    {
        if number >= NEAR {
            return self.far.put(number, stamp);
        }
        let had = self.near.get(number as usize);
        self.make_room(number)?;
        self.set(number, stamp);
        Ok(had)
    }

    /// Sets the stamp of a number to 0.
    pub fn forget(&mut self, number: u32)
        ensures { (n : ℕ)
            → stamp_at self.new n ≡ (if number == n then 0 else stamp_at self.old n) }
    {
        if number < NEAR {
            self.near.forget(number as usize);
        } else {
            self.far.forget(number);
        }
    }

    /// Sets the stamps of these literals' numbers to 0.
    pub fn forget_all(&mut self, lits: &[Lit])
        ensures { Forgets (map literal_number lits.now) self.old self.new }
    {
        for lit in lits {
            self.forget(lit.number());
        }
    }

    /// Gives all stamps up.
    pub fn clear(&mut self)
        ensures { self.new ≡ ([], []) }
    {
        self.near.clear();
        self.far.clear();
    }
}

/// How many near numbers are given room where one has none and so many had it.
fn near_room(number: usize, had: usize) -> usize
    requires { number < NEAR }
    ensures more { number < result }
    ensures kept { had ≤ NEAR → had ≤ result }
    ensures bounded { result ≤ NEAR }
{
    let doubled = had.saturating_mul(2).max(FIRST);
    doubled.max(number + 1).min(NEAR as usize)
}
