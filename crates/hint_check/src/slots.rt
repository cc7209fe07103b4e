//! Where the blocks of a clause stand, by its id.
ghost use Rattle.std.specs.Prelude.{◌≡◌, ℕ, ◌<◌, ◌≤◌, ◌+◌, ◌^◌, nat_eq, cond, length, max, true};
ghost use Rattle.std.specs.Prelude.{None, Some, IfSome, IfOk, OnOk, OnErr, if◌then◌else◌};
ghost use Rattle.std.specs.Prelude.{List, [], ◌∷◌, ◌++◌};
ghost use Rattle.std.specs.Option.{option_or};
ghost use Rattle.std.specs.Map.{lookup};
ghost use Rattle.hint_check.specs.declared.block.Block.{Block};
ghost use Rattle.hint_check.specs.Inner.Stamps.{is_named};
ghost use Rattle.hint_check.specs.Inner.Table.{no_slot, slot_at, far_at, slot_clause};
ghost use Rattle.hint_check.specs.declared.slots.Slot.{Slot};
ghost use Rattle.hint_check.specs.Inner.Table.{SlotsEndBy, SpansEndBy, SetsSlot, SlotsMove};
ghost use Rattle.hint_check.specs.Inner.Table.{GrowsFrom, BecomeFar, StayAlike};

use crate::block::{Block, Blocks, Run, push_blocks};
use crate::far::{Far, Span, put_far};
use std::alloc::AllocError;

/// Where the blocks of a near id's clause stand: from the start up to the end. There is no clause
/// where the start is behind the end.
#[derive(Clone, Copy)]
pub struct Slot {
    pub start: u32,
    pub end: u32,
}

/// The slot of an id that has no clause.
pub const NO_SLOT: Slot = Slot { start: 1, end: 0 };

/// The slot at a place, and one without a clause where there is none.
#[inline(always)]
fn slot_at(slots: &[Slot], place: usize) -> Slot
    ensures { result ≡ slot_at slots.now place }
{
    match slots.get(place) {
        Some(slot) => *slot,
        None => NO_SLOT,
    }
}

/// Whether the slot at a place is that of an id that has no clause.
#[inline(always)]
pub fn has_no_slot(slots: &[Slot], place: usize) -> bool
    ensures { result ≡ true → slot_at slots.now place ≡ no_slot }
{
    let slot = slot_at(slots, place);
    slot.start == NO_SLOT.start && slot.end == NO_SLOT.end
}

/// The clause that stands where a slot says.
#[inline(always)]
pub fn slot_clause(blocks: Blocks<'_>, slot: Slot) -> Option<Run<'_>>
    requires { slot.end ≤ length blocks.list.now }
    ensures { result ≡ slot_clause blocks.entry.list.now slot }
{
    if slot.start <= slot.end {
        Some(Run::new(blocks, slot.start as usize, slot.end as usize))
    } else {
        None
    }
}

/// The clause of a near id.
#[inline(always)]
pub fn near_clause<'l>(blocks: Blocks<'l>, slots: &[Slot], id: u64) -> Option<Run<'l>>
    requires { SlotsEndBy slots.now (length blocks.list.now) }
    ensures { result ≡ slot_clause blocks.entry.list.now (slot_at slots.now id) }
{
    slot_clause(blocks, slot_at(slots, id as usize))
}

/// How many blocks stand where a slot says.
fn slot_len(slot: Slot) -> usize {
    slot.end.saturating_sub(slot.start) as usize
}

/// The clause of a far id.
#[inline(always)]
pub fn far_clause<'l>(blocks: Blocks<'l>, far: &Far, id: u64) -> Option<Run<'l>>
    requires { SpansEndBy far.now (length blocks.list.now) }
    ensures { result ≡ far_at blocks.entry.list.now far.now id }
{
    if far.is_empty() {
        return None;
    }
    match far.span_of(id) {
        Some(span) => Some(Run::new(blocks, span.start, span.end)),
        None => None,
    }
}

/// Makes slots up to that of a place, with no clause.
fn make_slots(slots: &mut Vec<Slot>, place: usize) -> Result<(), AllocError>
    requires { place + 1 < 2 ^ 64 }
    ensures room { OnOk result (place < length slots.new.items) }
    ensures bound { length slots.new.items ≤ max (length slots.old.items) (place + 1) }
    ensures kept { length slots.old.items ≤ length slots.new.items }
    ensures same { (i : ℕ) → slot_at slots.new.items i ≡ slot_at slots.old.items i }
{
    if slots.len() <= place {
        slots.resize(place + 1, NO_SLOT)?;
    }
    Ok(())
}

/// Puts a slot behind those of a list, with no call where there is room.
#[inline(always)]
fn push_slot(slots: &mut Vec<Slot>, slot: Slot) -> Result<(), AllocError>
    ensures ok { OnOk result (slots.new.items ≡ slots.old.items ++ slot ∷ []) }
    ensures err { OnErr result (slots.new.items ≡ slots.old.items) }
{
    if slots.len() == slots.capacity() {
        slots.reserve(1)?;
    }
    slots.push_reserved(slot);
    Ok(())
}

/// Puts a slot at a place, which mostly is the next one, and answers how many blocks it had before.
#[inline(always)]
pub fn put_slot(slots: &mut Vec<Slot>, place: usize, slot: Slot) -> Result<usize, AllocError>
    requires { place + 1 < 2 ^ 64 }
    ensures put { OnOk result (SetsSlot slots.old.items slots.new.items place slot) }
    ensures bound { length slots.new.items ≤ max (length slots.old.items) (place + 1) }
    ensures kept { length slots.old.items ≤ length slots.new.items }
    ensures same { OnErr result ((i : ℕ)
        → slot_at slots.new.items i ≡ slot_at slots.old.items i) }
{
    if place == slots.len() {
        push_slot(slots, slot)?;
        return Ok(0);
    }
    make_slots(slots, place)?;
    let replaced = slot_len(slots[place]);
    slots[place] = slot;
    Ok(replaced)
}

/// Takes the clause out of the slot of an id, where there is one, and answers how many blocks it
/// had.
pub fn empty_slot(slots: &mut Vec<Slot>, id: u64) -> usize
    ensures emptied { SetsSlot slots.old.items slots.new.items id no_slot }
    ensures length { length slots.new.items ≡ length slots.old.items }
{
    let place = id as usize;
    if place >= slots.len() {
        return 0;
    }
    let emptied = slot_len(slots[place]);
    slots[place] = NO_SLOT;
    emptied
}

/// Puts the slots of these ids back, where they are among the first ones.
pub fn put_back(slots: &mut Vec<Slot>, first: &[Slot], ids: &[u64])
    requires { length slots.old.items ≡ length first.now }
    ensures slots { (i : ℕ) → slot_at slots.new.items i
        ≡ (if is_named ids.now i then slot_at first.now i else slot_at slots.old.items i) }
    ensures length { length slots.new.items ≡ length slots.old.items }
{
    for id in ids {
        put_one_back(slots, first, *id as usize);
    }
}

/// Puts one slot back, where it is among the first ones.
fn put_one_back(slots: &mut Vec<Slot>, first: &[Slot], place: usize)
    requires { length slots.old.items ≡ length first.now }
    ensures slots { (i : ℕ) → slot_at slots.new.items i
        ≡ (if nat_eq place i then slot_at first.now i else slot_at slots.old.items i) }
    ensures length { length slots.new.items ≡ length slots.old.items }
{
    if place < first.len() {
        slots[place] = first[place];
    }
}

/// Puts the blocks of a slot's clause behind those of a list, and answers its slot there. An error
/// is a refused growth, or an end that no slot can tell.
fn moved_slot(list: &mut Vec<Block>, blocks: &[Block], slot: Slot) -> Result<Slot, AllocError>
    requires { slot.end ≤ length blocks.now }
    ensures grown { OnOk result (GrowsFrom blocks.now list.old.items list.new.items) }
    ensures moved { IfOk result (λ moved.
        (slot_clause list.new.items moved ≡ slot_clause blocks.now slot)
        × (moved.end ≤ length list.new.items)) }
{
    if slot.start > slot.end {
        return Ok(NO_SLOT);
    }
    let start = push_blocks(list, blocks, slot.start as usize, slot.end as usize)?;
    let end = list.len();
    if end > u32::MAX as usize {
        return Err(AllocError);
    }
    Ok(Slot {
        start: start as u32,
        end: end as u32,
    })
}

/// Puts the blocks of the clauses of slots behind those of a list, and their slots there behind
/// those that were moved before. An error is a refused growth, or an end that no slot can tell.
pub fn move_slots(
    list: &mut Vec<Block>,
    blocks: &[Block],
    slots: &[Slot],
    moved: &mut Vec<Slot>,
) -> Result<(), AllocError>
    requires { SlotsEndBy slots.now (length blocks.now) }
    ensures grown { OnOk result (GrowsFrom blocks.now list.old.items list.new.items) }
    ensures moved { OnOk result ((before : List Slot)
        → SlotsMove blocks.now list.old.items before moved.old.items
        → SlotsMove blocks.now list.new.items (before ++ slots.now) moved.new.items) }
    ensures behind { OnOk result ((more : List Slot)
        × (moved.new.items ≡ moved.old.items ++ more)) }
{
    for slot in slots {
        let next = moved_slot(list, blocks, *slot)?;
        moved.push(next)?;
    }
    Ok(())
}

/// Makes a far id of one whose clause this slot has, and answers how many blocks it had as a far
/// one before.
fn make_one_far(far: &mut Far, slot: Slot, id: u64) -> Result<usize, AllocError>
    ensures put { OnOk result ((blocks : List Block) → (q : ℕ) → far_at blocks far.new q
        ≡ cond (nat_eq id q) (option_or (slot_clause blocks slot) (far_at blocks far.old q))
        (far_at blocks far.old q)) }
    ensures ends { OnOk result ((count : ℕ) → slot.end ≤ count → SpansEndBy far.old count
        → SpansEndBy far.new count) }
    ensures same { OnErr result ((q : ℕ) → lookup (nat_eq q) far.new
        ≡ lookup (nat_eq q) far.old) }
    ensures kept { OnErr result ((count : ℕ) → SpansEndBy far.old count
        → SpansEndBy far.new count) }
{
    if slot.end < slot.start {
        return Ok(0);
    }
    let span = Span {
        start: slot.start as usize,
        end: slot.end as usize,
    };
    Ok(put_far(far, id, span)?)
}

/// Makes far ids of those whose clauses these slots have, by ids from the first on, and answers how
/// many blocks they had as far ones before. After an error some of them may be far ids, too.
pub fn make_far(far: &mut Far, slots: &[Slot], first: u64) -> Result<usize, AllocError>
    requires { first + length slots.now ≤ 2 ^ 64 }
    ensures put { OnOk result (BecomeFar first slots.now far.old far.new) }
    ensures alike { StayAlike first slots.now far.old far.new }
    ensures ends { (count : ℕ) → SlotsEndBy slots.now count → SpansEndBy far.old count
        → SpansEndBy far.new count }
{
    let mut replaced = 0usize;
    for (place, slot) in slots.iter().enumerate() {
        let blocks = make_one_far(far, *slot, first + place as u64)?;
        replaced = replaced.saturating_add(blocks);
    }
    Ok(replaced)
}
