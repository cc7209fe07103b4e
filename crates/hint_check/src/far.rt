//! Where the blocks of far ids' clauses stand.
ghost use Rattle.std.specs.Prelude.{◌≡◌, ℕ, ◌+◌, ◌*◌, ◌<◌, ◌≤◌, nat_eq, cond, length, true, false};
ghost use Rattle.std.specs.Prelude.{None, Some, IfSome, IfOk, OnOk, OnErr, slice_index_or};
ghost use Rattle.std.specs.Map.{lookup};
ghost use Rattle.hint_check.specs.Inner.Far.{tells, known_span, place_of, placed, nothing};
ghost use Rattle.hint_check.specs.Inner.Far.{InPlace, MayStand, SeatMoves, SeatsMove};
ghost use Rattle.hint_check.specs.Inner.Table.{SpansEndBy, SpansMove, GrowsFrom};

use crate::block::{Block, push_blocks};
use std::alloc::{AllocError, Global};
use std::collections::BTreeMap;
use std::marker::Model;

/// Where the blocks of a far id's clause stand.
#[derive(Clone, Copy)]
pub struct Span {
    pub start: usize,
    pub end: usize,
}

/// An id and where its blocks stand. It tells nothing where the start is behind the end.
#[derive(Clone, Copy)]
pub struct Known {
    pub id: u64,
    pub span: Span,
}

/// What stands in a seat that no id has taken.
const NOTHING: Known = Known {
    id: 0,
    span: Span { start: 1, end: 0 },
};

/// A place is so many seats next to one another, with an entry in each.
const SEATS: usize = 4;

/// The first seats are 2 to the power of this many.
const FIRST_BITS: u32 = 10;

/// The shift where there are no seats: one more than that of the first.
const NO_SEATS: u32 = 65 - FIRST_BITS;

/// Seats are made until they are 2 to the power of this many, which no memory holds.
const LAST_BITS: u32 = 40;

/// A multiplier that spreads ids with any stride over the places: 2^64 by the golden ratio.
const SPREAD: u64 = 11_400_714_819_323_198_485;

/// The spans of far ids. An id stands in one of the seats of its place, in a list with places for
/// many, and only one that found all of them taken stands in a sorted map. To a contract they are
/// the entries of both.
#[derive(Drop)]
pub struct Far {
    alloc: Global,
    map: BTreeMap<u64, Span>,
    known: Vec<Known>,
    /// No more seats are taken.
    taken: usize,
    /// Sixty-four less the logarithm of the number of seats, if there are any.
    shift: u32,
}

impl Model for Far {
    ghost use Rattle.std.specs.Prelude.{List, ℕ, ◌<◌, ◌++◌};
    ghost use Rattle.hint_check.specs.Inner.Far.{placed, InPlace, Apart};
    ghost use Rattle.hint_check.specs.declared.far.Span.{Span};

    ghost Value = { List (ℕ × Span) };

    ghost view = { λ far. placed far.known.items ++ far.map.entries };

    ghost invariant = { λ far. (far.shift < 64) × (InPlace far.known.items far.shift
        × Apart (placed far.known.items) far.map.entries) };
}

impl Far {
    ghost use Rattle.std.specs.Prelude.{◌≡◌, ◌++◌, ℕ, nat_eq, true, []};
    ghost use Rattle.std.specs.Map.{lookup};
    ghost use Rattle.hint_check.specs.Inner.Far.{placed};
    ghost use Rattle.std.specs.Prelude.{IfOk, OnOk, length};
    ghost use Rattle.hint_check.specs.Inner.Table.{SpansEndBy, SpansMove, GrowsFrom};

    /// No id is there. It takes no memory yet.
    pub fn new(alloc: Global) -> Far
        ensures { result ≡ [] }
    {
        Far {
            alloc,
            map: BTreeMap::new(alloc),
            known: Vec::new(alloc),
            taken: 0,
            shift: NO_SEATS,
        }
    }

    /// Whether there is no id, nor a place for one.
    #[inline(always)]
    pub fn is_empty(&self) -> bool
        ensures { result ≡ true → self.now ≡ [] }
    {
        self.known.is_empty() && self.map.is_empty()
    }

    /// All of them: what stands in the seats, and those in the map.
    pub fn parts(&self) -> (&[Known], &BTreeMap<u64, Span>)
        ensures { placed result.0.now ++ result.1.now.entries ≡ self.now }
    {
        (&self.known, &self.map)
    }

    /// How many seats there are. It says what a look at all of them costs, and nothing of the ids.
    pub fn places(&self) -> usize {
        self.known.len()
    }

    /// Where an id's blocks stand.
    #[inline(never)]
    pub fn span_of(&self, id: u64) -> Option<Span>
        ensures { result ≡ lookup (nat_eq id) self.now }
    {
        match seat_of(&self.known, self.shift, id) {
            Some(seat) => Some(self.known[seat].span),
            None => found(&self.map, id),
        }
    }

    /// The same ids. The blocks of their clauses are put behind those of a list, and the spans are
    /// those there.
    pub fn moved(&self, list: &mut Vec<Block>, blocks: &[Block]) -> Result<Far, AllocError>
        requires { SpansEndBy self.now (length blocks.now) }
        ensures grown { OnOk result (GrowsFrom blocks.now list.old.items list.new.items) }
        ensures moved { IfOk result (λ far. SpansMove blocks.now list.new.items self.now far) }
    {
        let known = moved_seats(self.alloc, list, blocks, &self.known)?;
        let map = moved_map(self.alloc, list, blocks, &self.map)?;
        Ok(Far {
            alloc: self.alloc,
            map,
            known,
            taken: self.taken,
            shift: self.shift,
        })
    }

    /// Takes all ids out.
    pub fn clear(&mut self)
        ensures { self.new ≡ [] }
    {
        self.map.clear();
        self.known.clear();
        self.taken = 0;
        self.shift = NO_SEATS;
    }

    /// Makes places where half of the seats may be taken.
    #[inline(always)]
    fn make_places(&mut self) -> Result<(), AllocError>
        ensures same { (q : ℕ) → lookup (nat_eq q) self.new ≡ lookup (nat_eq q) self.old }
        ensures ends { (count : ℕ) → SpansEndBy self.old count → SpansEndBy self.new count }
    {
        if self.taken < self.known.len() / 2 {
            return Ok(());
        }
        self.make_more()
    }

    /// Makes the first places, or twice as many as there are.
    fn make_more(&mut self) -> Result<(), AllocError>
        ensures same { (q : ℕ) → lookup (nat_eq q) self.new ≡ lookup (nat_eq q) self.old }
        ensures ends { (count : ℕ) → SpansEndBy self.old count → SpansEndBy self.new count }
    {
        if self.shift <= 64 - LAST_BITS {
            return Ok(());
        }
        let shift = self.shift - 1;
        self.known = doubled(self.alloc, &self.known, shift)?;
        self.shift = shift;
        Ok(())
    }
}

/// The first seat of an id's place.
#[inline(always)]
fn first_seat(shift: u32, id: u64) -> usize
    requires { shift < 64 }
    ensures { result ≡ place_of shift id * 4 }
{
    (id.wrapping_mul(SPREAD) >> shift) as usize / SEATS * SEATS
}

/// Whether an entry tells anything.
#[inline(always)]
fn is_told(one: Known) -> bool
    ensures { result ≡ tells one }
{
    one.span.start <= one.span.end
}

/// The seat where an id stands.
#[inline(always)]
fn seat_of(known: &[Known], shift: u32, id: u64) -> Option<usize>
    requires shift { shift < 64 }
    requires in_place { InPlace known.now shift }
    ensures own { IfSome result (λ seat. MayStand known.now shift id seat
        × (known_span (slice_index_or known.now seat nothing) id
        ≡ Some (slice_index_or known.now seat nothing).span)) }
    ensures none { result ≡ None
        → (i : ℕ) → known_span (slice_index_or known.now i nothing) id ≡ None }
{
    let first = first_seat(shift, id);
    let end = first.saturating_add(SEATS);
    if known.len() < end {
        return None;
    }
    for seat in first..end {
        if known[seat].id == id && is_told(known[seat]) {
            return Some(seat);
        }
    }
    None
}

/// A seat in an id's place where nothing stands.
#[inline(always)]
fn free_seat(known: &[Known], shift: u32, id: u64) -> Option<usize>
    requires { shift < 64 }
    ensures { IfSome result (λ seat. (seat < length known.now)
        × (((place_of shift id * 4 ≤ seat) × (seat < place_of shift id * 4 + 4))
        × (tells (slice_index_or known.now seat nothing) ≡ false))) }
{
    let first = first_seat(shift, id);
    let end = first.saturating_add(SEATS);
    if known.len() < end {
        return None;
    }
    for seat in first..end {
        if !is_told(known[seat]) {
            return Some(seat);
        }
    }
    None
}

/// A seat that an entry may take: its id's own, or else one where nothing stands.
#[inline(always)]
fn seat_for(known: &[Known], shift: u32, one: Known) -> Option<usize>
    requires shift { shift < 64 }
    requires in_place { InPlace known.now shift }
    ensures { IfSome result (λ seat.
        (tells one ≡ true) × MayStand known.now shift one.id seat) }
{
    if !is_told(one) {
        return None;
    }
    match seat_of(known, shift, one.id) {
        Some(seat) => Some(seat),
        None => free_seat(known, shift, one.id),
    }
}

/// Where an id's blocks stand, by the map.
fn found(map: &BTreeMap<u64, Span>, id: u64) -> Option<Span>
    ensures { result ≡ lookup (nat_eq id) map.now.entries }
{
    if map.is_empty() {
        return None;
    }
    match map.get(&id) {
        Some(span) => Some(*span),
        None => None,
    }
}

/// Puts an entry in a seat of its id's place, if it may take one, and answers what stood there.
#[inline(always)]
fn stand(known: &mut Vec<Known>, shift: u32, one: Known) -> Option<Known>
    requires shift { shift < 64 }
    requires in_place { InPlace known.old.items shift }
    ensures put { IfSome result (λ there. (q : ℕ) → lookup (nat_eq q) (placed known.new.items)
        ≡ cond (nat_eq one.id q) (Some one.span) (lookup (nat_eq q) (placed known.old.items))) }
    ensures none { result ≡ None → known.new.items ≡ known.old.items }
    ensures in_place { InPlace known.new.items shift }
    ensures ends { (count : ℕ) → SpansEndBy (placed known.old.items) count
        → one.span.end ≤ count → SpansEndBy (placed known.new.items) count }
{
    match seat_for(known, shift, one) {
        Some(seat) => {
            let there = known[seat];
            known[seat] = one;
            Some(there)
        }
        None => None,
    }
}

/// Takes an id out of its seat, and answers what was known of it.
#[inline(always)]
fn leave(known: &mut Vec<Known>, shift: u32, id: u64) -> Option<Span>
    requires shift { shift < 64 }
    requires in_place { InPlace known.old.items shift }
    ensures known { result ≡ lookup (nat_eq id) (placed known.old.items) }
    ensures left { (q : ℕ) → lookup (nat_eq q) (placed known.new.items)
        ≡ cond (nat_eq id q) None (lookup (nat_eq q) (placed known.old.items)) }
    ensures in_place { InPlace known.new.items shift }
    ensures ends { (count : ℕ) → SpansEndBy (placed known.old.items) count
        → SpansEndBy (placed known.new.items) count }
{
    match seat_of(known, shift, id) {
        Some(seat) => {
            let span = known[seat].span;
            known[seat] = NOTHING;
            Some(span)
        }
        None => None,
    }
}

/// Takes an id out of the map, and answers what it had there.
#[inline(always)]
fn remove(map: &mut BTreeMap<u64, Span>, id: u64) -> Option<Span>
    ensures removed { (q : ℕ) → lookup (nat_eq q) map.new.entries
        ≡ cond (nat_eq id q) None (lookup (nat_eq q) map.old.entries) }
    ensures ends { (count : ℕ) → SpansEndBy map.old.entries count
        → SpansEndBy map.new.entries count }
{
    if map.is_empty() {
        return None;
    }
    map.remove(&id)
}

/// The first places, or twice as many as these, for this shift, where the same ids stand. Each
/// entry has the seat of its new place that it has in its old one, and no other comes there.
fn doubled(alloc: Global, known: &[Known], shift: u32) -> Result<Vec<Known>, AllocError>
    requires shift { shift < 64 }
    requires in_place { InPlace known.now (shift + 1) }
    ensures in_place { IfOk result (λ seats. InPlace seats.items shift) }
    ensures same { IfOk result (λ seats. (q : ℕ) → lookup (nat_eq q) (placed seats.items)
        ≡ lookup (nat_eq q) (placed known.now)) }
    ensures ends { IfOk result (λ seats. (count : ℕ) → SpansEndBy (placed known.now) count
        → SpansEndBy (placed seats.items) count) }
{
    let count = (known.len() * 2).max(1 << FIRST_BITS);
    let mut seats = vec![in alloc; NOTHING; count]?;
    for (seat, one) in known.iter().enumerate() {
        if is_told(*one) {
            let place = first_seat(shift, one.id);
            seats[place + seat % SEATS] = *one;
        }
    }
    Ok(seats)
}

/// What stands in a seat, where the blocks of its clause are put behind those of a list.
fn moved_seat(list: &mut Vec<Block>, blocks: &[Block], one: Known) -> Result<Known, AllocError>
    requires { tells one ≡ true → one.span.end ≤ length blocks.now }
    ensures grown { OnOk result (GrowsFrom blocks.now list.old.items list.new.items) }
    ensures moved { IfOk result (λ seat. SeatMoves blocks.now list.new.items one seat) }
{
    if !is_told(one) {
        return Ok(one);
    }
    let start = push_blocks(list, blocks, one.span.start, one.span.end)?;
    let end = list.len();
    Ok(Known {
        id: one.id,
        span: Span { start, end },
    })
}

/// The same seats, where the blocks of their clauses are put behind those of a list.
fn moved_seats(
    alloc: Global,
    list: &mut Vec<Block>,
    blocks: &[Block],
    known: &[Known],
) -> Result<Vec<Known>, AllocError>
    requires { SpansEndBy (placed known.now) (length blocks.now) }
    ensures grown { OnOk result (GrowsFrom blocks.now list.old.items list.new.items) }
    ensures moved { IfOk result
        (λ seats. SeatsMove blocks.now list.new.items known.now seats.items) }
{
    let mut seats = Vec::new(alloc);
    for one in known {
        let seat = moved_seat(list, blocks, *one)?;
        seats.push(seat)?;
    }
    Ok(seats)
}

/// The same ids of a map, where the blocks of their clauses are put behind those of a list.
fn moved_map(
    alloc: Global,
    list: &mut Vec<Block>,
    blocks: &[Block],
    map: &BTreeMap<u64, Span>,
) -> Result<BTreeMap<u64, Span>, AllocError>
    requires { SpansEndBy map.now.entries (length blocks.now) }
    ensures grown { OnOk result (GrowsFrom blocks.now list.old.items list.new.items) }
    ensures moved { IfOk result
        (λ moved. SpansMove blocks.now list.new.items map.now.entries moved.entries) }
{
    let mut moved = BTreeMap::new(alloc);
    for (id, span) in map {
        let start = push_blocks(list, blocks, span.start, span.end)?;
        let end = list.len();
        moved.insert(*id, Span { start, end })?;
    }
    Ok(moved)
}

/// How many blocks stand where a span says.
fn span_len(span: Span) -> usize {
    span.end.saturating_sub(span.start)
}

/// How many blocks stand where a span says, if there is one.
fn spans_len(span: Option<Span>) -> usize {
    match span {
        Some(span) => span_len(span),
        None => 0,
    }
}

/// How many seats are taken at most, after an entry was put where this one stood.
fn taken_after(taken: usize, there: Known) -> usize {
    if is_told(there) {
        taken
    } else {
        taken.saturating_add(1)
    }
}

/// Notes where a far id's blocks stand now, and answers how many it had before.
pub fn put_far(far: &mut Far, id: u64, span: Span) -> Result<usize, AllocError>
    ensures put { OnOk result ((q : ℕ) → lookup (nat_eq q) far.new
        ≡ cond (nat_eq id q) (Some span) (lookup (nat_eq q) far.old)) }
    ensures ends { OnOk result ((count : ℕ) → SpansEndBy far.old count
        → span.start ≤ span.end → span.end ≤ count → SpansEndBy far.new count) }
    ensures same { OnErr result ((q : ℕ) → lookup (nat_eq q) far.new
        ≡ lookup (nat_eq q) far.old) }
    ensures kept { OnErr result ((count : ℕ) → SpansEndBy far.old count
        → SpansEndBy far.new count) }
{
    far.make_places()?;
    match stand(&mut far.known, far.shift, Known { id, span }) {
        Some(there) => {
            let removed = remove(&mut far.map, id);
            far.taken = taken_after(far.taken, there);
            Ok(span_len(there.span).saturating_add(spans_len(removed)))
        }
        None => {
            let replaced = far.map.insert(id, span)?;
            let left = leave(&mut far.known, far.shift, id);
            Ok(spans_len(replaced).saturating_add(spans_len(left)))
        }
    }
}

/// Takes an id out of the far ones, and answers how many blocks it had. Mostly there are none.
#[inline(always)]
pub fn take_far(far: &mut Far, id: u64) -> usize
    ensures taken { (q : ℕ) → lookup (nat_eq q) far.new
        ≡ cond (nat_eq id q) None (lookup (nat_eq q) far.old) }
    ensures ends { (count : ℕ) → SpansEndBy far.old count → SpansEndBy far.new count }
{
    if far.is_empty() {
        return 0;
    }
    take_from_some(far, id)
}

/// The same, where there may be some.
#[inline(never)]
fn take_from_some(far: &mut Far, id: u64) -> usize
    ensures taken { (q : ℕ) → lookup (nat_eq q) far.new
        ≡ cond (nat_eq id q) None (lookup (nat_eq q) far.old) }
    ensures ends { (count : ℕ) → SpansEndBy far.old count → SpansEndBy far.new count }
{
    match leave(&mut far.known, far.shift, id) {
        Some(span) => {
            far.taken = far.taken.saturating_sub(1);
            span_len(span)
        }
        None => spans_len(remove(&mut far.map, id)),
    }
}
