//! Clauses by their ids. All their blocks stand in one list, each clause's behind those put in
//! before it, and at its front those of a formula, to which it goes back.
ghost use Rattle.std.specs.Prelude.{◌≡◌, ℕ, ◌≤◌, ◌<◌, ◌+◌, ◌^◌, ◌⊎◌, length, drop, true};
ghost use Rattle.std.specs.Prelude.{IfSome, IfOk, OnOk};
ghost use Rattle.hint_check.specs.Inner.Far.{placed};
ghost use Rattle.hint_check.specs.Inner.Index.{Lists, indexed_part};
ghost use Rattle.hint_check.specs.Inner.Stamps.{is_named};
ghost use Rattle.hint_check.specs.Inner.Table.{SlotsEndBy, SpansEndBy, near_entries, far_entries};
ghost use Rattle.hint_check.specs.Inner.Table.{ListsAll, slot_at, no_slot};

use crate::block::{Block, Blocks, Run, push_clause};
use crate::far::{Far, Known, Span, put_far, take_far};
use crate::front::Front;
use crate::index::Index;
use crate::scratch::ClauseScratch;
use crate::slots::{
    Slot, empty_slot, far_clause, has_no_slot, make_far, move_slots, near_clause, put_back,
    put_slot, slot_clause,
};
use crate::tautology::indexed_part;
use cnf_text::literal::Lit;
use std::alloc::{AllocError, Global};
use std::collections::BTreeMap;
use std::marker::Model;
use std::mem;

/// So many blocks of own clauses that are gone are left where they are.
const FEW_BLOCKS: usize = 65_536;

/// So many slots behind the front's are kept, whether they are in use or not.
const FEW_SLOTS: usize = 60_000;

/// So many are kept for each block of a clause that is there.
const SLOTS_PER_BLOCK: usize = 8;

/// So many slots may be made before any clause is there.
const FIRST_SLOTS: u64 = 1024;

/// So many more slots may be made for each clause that was put in.
const SLOTS_PER_CLAUSE: u64 = 4;

/// What stands at the front.
#[derive(Drop)]
pub struct Ahead {
    slots: Vec<Slot>,
    /// The number of blocks.
    blocks: usize,
    reach: u32,
}

/// Clauses by their ids. An id has a slot, as far as there are slots; any other id that has a
/// clause is a far one, and so is one of the front's whose clause is another now. Where ids have
/// risen so far that few of the slots are in use, those behind the front are left: then each own
/// clause has a far id.
#[derive(Drop)]
pub struct Table {
    /// The blocks of all clauses that were put in.
    blocks: Vec<Block>,
    /// No falsifier has a greater number.
    reach: u32,
    slots: Vec<Slot>,
    /// An id that came to have a slot later may stand here too: its slot is looked at first.
    far: Far,
    front: Ahead,
    /// The ids of the front's clauses that were taken out, and maybe others.
    emptied: Vec<u64>,
    /// How many clauses were put in.
    inserted: u64,
    /// Whether the slots behind the front were left, until it goes back to the front.
    is_left: bool,
    /// How many blocks the slots and the spans behind the front have.
    held: usize,
    /// Room for the blocks that are kept when those of clauses that are gone are given back.
    spare: Vec<Block>,
    alloc: Global,
}

impl Model for Table {
    ghost use Rattle.std.specs.Prelude.{length, refl};
    ghost use Rattle.std.specs.Coded.{code_by, coded×, coded_ℕ, coded_list};
    ghost use Rattle.std.specs.FinMap as map;
    ghost use Rattle.cnf_text.specs.Literal.{literal_code};
    ghost use Rattle.hint_check.specs.Live.{Live};
    ghost use Rattle.hint_check.specs.Inner.Table.{Tabled, tabled, IsTable, tabled_code};

    ghost Value = { Tabled };

    ghost coded = { tabled_code };

    ghost view = { λ t.
        tabled t.blocks.items t.slots.items t.far t.front.slots.items };

    ghost invariant = { λ t. IsTable t.blocks.items t.reach t.slots.items t.far
        t.front t.emptied.items };
}

impl Table {
    ghost use Rattle.std.specs.Prelude.{◌≡◌, IfOk, OnOk, OnErr};
    ghost use Rattle.std.specs.FinMap as map;
    ghost use Rattle.hint_check.specs.Inner.Index.{Indexes};
    ghost use Rattle.hint_check.specs.Inner.Table.{front_alone, with_clause, without_clause};

    /// The clauses of a front, and no others. An error is a refused growth.
    pub fn over(alloc: Global, front: Front) -> Result<Table, AllocError>
        ensures { IfOk result (λ table. table ≡ front_alone front) }
    {
        let (blocks, reach, slots) = front.into_parts();
        let ahead = Ahead {
            slots: copy_of(alloc, &slots)?,
            blocks: blocks.len(),
            reach,
        };
        let inserted = slots.len() as u64;
        Ok(Table {
            blocks,
            reach,
            slots,
            far: Far::new(alloc),
            front: ahead,
            emptied: Vec::new(alloc),
            inserted,
            is_left: false,
            held: 0,
            spare: Vec::new(alloc),
            alloc,
        })
    }

    /// Goes back to the front's clauses.
    pub fn start_over(&mut self)
        ensures { self.new ≡ front_alone self.old.front }
    {
        self.blocks.truncate(self.front.blocks);
        self.reach = self.front.reach;
        self.slots.truncate(self.front.slots.len());
        put_back(&mut self.slots, &self.front.slots, &self.emptied);
        self.emptied.clear();
        self.far.clear();
        self.inserted = self.front.slots.len() as u64;
        self.is_left = false;
        self.held = 0;
    }

    /// The clauses as they stand.
    #[inline(always)]
    pub fn view(&self) -> TableView<'_>
        ensures { result ≡ self.now.live }
    {
        TableView {
            blocks: Blocks {
                list: &self.blocks,
                reach: self.reach,
            },
            slots: &self.slots,
            far: &self.far,
        }
    }

    /// Puts a clause under an id, in the place of one that was.
    #[inline(always)]
    pub fn insert(&mut self, id: u64, lits: &[Lit]) -> Result<(), AllocError>
        ensures ok { OnOk result (self.new ≡ with_clause self.old id lits.now) }
        ensures err { OnErr result (self.new ≡ self.old) }
    {
        note(&mut self.emptied, &self.slots, self.front.slots.len(), id)?;
        let start = self.blocks.len();
        push_clause(&mut self.blocks, &mut self.reach, lits)?;
        let end = self.blocks.len();
        self.inserted = self.inserted.saturating_add(1);
        let reach = slots_allowed(self.slots.len() as u64, self.inserted, self.is_left);
        match near_place(self.front.slots.len(), id, reach, end) {
            Some(place) => {
                let slot = Slot {
                    start: start as u32,
                    end: end as u32,
                };
                let replaced = put_slot(&mut self.slots, place, slot)?;
                self.held = held_after(self.held, end.saturating_sub(start), replaced);
            }
            None => {
                let replaced = put_far(&mut self.far, id, Span { start, end })?;
                let emptied = empty_slot(&mut self.slots, id);
                let gone = replaced.saturating_add(emptied);
                self.held = held_after(self.held, end.saturating_sub(start), gone);
            }
        }
        Ok(())
    }

    /// Takes the clause of an id out, where there is one.
    pub fn remove(&mut self, id: u64) -> Result<(), AllocError>
        ensures ok { OnOk result (self.new ≡ without_clause self.old id) }
        ensures err { OnErr result (self.new ≡ self.old) }
    {
        note(&mut self.emptied, &self.slots, self.front.slots.len(), id)?;
        let emptied = empty_slot(&mut self.slots, id);
        let taken = take_far(&mut self.far, id);
        self.held = held_after(self.held, 0, emptied.saturating_add(taken));
        Ok(())
    }

    /// Gives the blocks of clauses that are gone back, where they are three of four, and many
    /// beside the slots, the seats of far ids and the blocks of the front, which are gone through.
    /// It gives back the slots behind the front, too, where few of them are in use. An error is a
    /// refused growth.
    #[inline(always)]
    pub fn tidy(&mut self) -> Result<(), AllocError>
        ensures { self.new ≡ self.old }
    {
        let own = self.blocks.len().saturating_sub(self.front.blocks);
        if own < FEW_BLOCKS || own / 4 < self.held {
            return Ok(());
        }
        let places = self.slots.len().saturating_add(self.far.places());
        if own < places.saturating_add(self.front.blocks) / 4 {
            return Ok(());
        }
        if self.has_slack() {
            self.leave_slots()?;
        }
        self.move_all()
    }

    /// Whether few of the slots behind the front are in use.
    fn has_slack(&self) -> bool {
        let slots = self.slots.len().saturating_sub(self.front.slots.len());
        slots > self.held.saturating_mul(SLOTS_PER_BLOCK).max(FEW_SLOTS)
    }

    /// Gives the slots behind the front back: the ids of their clauses become far ones.
    #[inline(never)]
    fn leave_slots(&mut self) -> Result<(), AllocError>
        ensures { self.new ≡ self.old }
    {
        let first = self.front.slots.len();
        let kept = copy_of(self.alloc, &self.slots[..first])?;
        let behind = slots_from(&self.slots, first);
        let replaced = make_far(&mut self.far, behind, first as u64)?;
        self.slots = kept;
        self.held = held_after(self.held, 0, replaced);
        self.is_left = true;
        Ok(())
    }

    /// Puts the blocks of all clauses into a list of their own.
    #[inline(never)]
    fn move_all(&mut self) -> Result<(), AllocError>
        ensures { self.new ≡ self.old }
    {
        let first = self.front.slots.len();
        self.spare.clear();
        self.spare
            .extend_from_slice(&self.blocks[..self.front.blocks])?;
        let mut slots = copy_of(self.alloc, &self.slots[..first])?;
        let behind = slots_from(&self.slots, first);
        move_slots(&mut self.spare, &self.blocks, behind, &mut slots)?;
        let far = self.far.moved(&mut self.spare, &self.blocks)?;
        mem::swap(&mut self.blocks, &mut self.spare);
        self.slots = slots;
        self.far = far;
        Ok(())
    }

    /// What it costs to make an index of the clauses that aren't the front's: a turn for each slot
    /// and each seat of a far id, and a link for each literal that the clauses have, or some more.
    pub(crate) fn index_cost(&self) -> usize {
        let links = self.held.saturating_mul(4);
        let slots = self.slots.len().saturating_sub(self.front.slots.len());
        links
            .saturating_add(slots)
            .saturating_add(self.far.places())
    }

    /// Lists the id of each clause that isn't the front's, and is no tautology, for its literals,
    /// beside what the index lists already. The scratch is for nothing else.
    pub fn list_in(&self, index: &mut Index, scratch: &mut ClauseScratch) -> Result<(), AllocError>
        ensures { OnOk result (Indexes index.new (map.entries self.now.own)) }
    {
        let first = self.front.slots.len();
        let behind = slots_from(&self.slots, first);
        let blocks = Blocks {
            list: &self.blocks,
            reach: self.reach,
        };
        list_near(index, scratch, blocks, behind, first as u64)?;
        list_far(index, scratch, blocks, &self.far)?;
        Ok(())
    }
}

/// The clauses of a table as they stand. To a contract they are a finite map from ids.
#[derive(Drop)]
pub struct TableView<'t> {
    blocks: Blocks<'t>,
    slots: &'t [Slot],
    far: &'t Far,
}

impl<'t> Model for TableView<'t> {
    ghost use Rattle.std.specs.Prelude.{List, length};
    ghost use Rattle.std.specs.Ordering.{nat_cmp};
    ghost use Rattle.std.specs.FinMap as map;
    ghost use Rattle.cnf_text.specs.Literal.{Literal, literal_code};
    ghost use Rattle.std.specs.Coded.{coded_ℕ, coded_list};
    ghost use Rattle.hint_check.specs.Inner.Table.{clauses_in, SlotsEndBy, SpansEndBy};

    ghost Value = { map.FinMap nat_cmp (List Literal) };

    ghost coded = { map.code coded_ℕ (coded_list literal_code) };

    ghost view = { λ t. clauses_in t.blocks.list.now 0 t.slots.now t.far.now };

    ghost invariant = { λ t. SlotsEndBy t.slots.now (length t.blocks.list.now)
        × SpansEndBy t.far.now (length t.blocks.list.now) };
}

impl<'t> TableView<'t> {
    ghost use Rattle.std.specs.Prelude.{◌≡◌, ℕ, IfSome};
    ghost use Rattle.std.specs.FinMap as map;
    ghost use Rattle.hint_check.specs.Inner.Blocks.{ClauseWithin};

    /// The clause of an id.
    #[inline(always)]
    pub fn get(&self, id: u64) -> Option<Run<'t>>
        ensures { result ≡ map.get self.now id }
    {
        match near_clause(self.blocks, self.slots, id) {
            Some(clause) => Some(clause),
            None => far_clause(self.blocks, self.far, id),
        }
    }

    /// A number that no falsifier of its clauses is above.
    #[inline(always)]
    pub fn reach(&self) -> u32
        ensures { (id : ℕ) → IfSome (map.get self.now id) (λ clause. ClauseWithin clause result) }
    {
        self.blocks.reach
    }
}

fn copy_of(alloc: Global, slots: &[Slot]) -> Result<Vec<Slot>, AllocError>
    ensures { IfOk result (λ copy. copy.items ≡ slots.now) }
{
    let mut copy = Vec::new(alloc);
    copy.extend_from_slice(slots)?;
    Ok(copy)
}

/// The slots from this one on.
fn slots_from(slots: &[Slot], first: usize) -> &[Slot]
    ensures { result.now ≡ drop first slots.now }
{
    &slots[slots.len().min(first)..]
}

/// Notes an id whose clause may be one of the front's, which has so many slots. One that has no
/// clause there any more was noted before.
#[inline(always)]
fn note(emptied: &mut Vec<u64>, slots: &[Slot], front: usize, id: u64) -> Result<(), AllocError>
    ensures noted { OnOk result (id < front → (is_named emptied.new.items id ≡ true)
        ⊎ (slot_at slots.now id ≡ no_slot)) }
    ensures kept { (q : ℕ) → is_named emptied.old.items q ≡ true
        → is_named emptied.new.items q ≡ true }
{
    if id < front as u64 && !has_no_slot(slots, id as usize) {
        if emptied.len() == emptied.capacity() {
            emptied.reserve(1)?;
        }
        emptied.push_reserved(id);
    }
    Ok(())
}

/// How many blocks are held after some were put in and some were taken out.
fn held_after(held: usize, more: usize, gone: usize) -> usize {
    held.saturating_add(more).saturating_sub(gone)
}

/// How many slots there may be.
fn slots_allowed(made: u64, inserted: u64, is_left: bool) -> u64 {
    if is_left {
        return made;
    }
    let more = inserted.saturating_mul(SLOTS_PER_CLAUSE);
    made.max(more.saturating_add(FIRST_SLOTS))
}

/// The place of an id's slot, where it is behind the front and within reach, and its blocks end
/// where a slot can tell.
fn near_place(front: usize, id: u64, reach: u64, end: usize) -> Option<usize>
    ensures { IfSome result (λ place. ((id ≡ place) × (front ≤ place))
        × ((place + 1 < 2 ^ 64) × (end < 2 ^ 32))) }
{
    if id < front as u64 || id >= reach || end > u32::MAX as usize {
        return None;
    }
    Some(id as usize)
}

/// Lists an id for what its clause shows.
fn list_clause(
    index: &mut Index,
    scratch: &mut ClauseScratch,
    clause: &Run<'_>,
    id: u64,
) -> Result<(), AllocError>
    ensures { OnOk result (Lists index.old index.new (indexed_part clause.now) id) }
{
    let ClauseScratch { lits, set } = scratch;
    clause.list(lits)?;
    index.push_all(indexed_part(set, lits)?, id)
}

/// Lists the near ids for what their clauses show.
fn list_near(
    index: &mut Index,
    scratch: &mut ClauseScratch,
    blocks: Blocks<'_>,
    slots: &[Slot],
    first: u64,
) -> Result<(), AllocError>
    requires ends { SlotsEndBy slots.now (length blocks.list.now) }
    requires fits { first + length slots.now ≤ 2 ^ 64 }
    ensures { OnOk result
        (ListsAll index.old index.new (near_entries blocks.entry.list.now first slots.now)) }
{
    for (place, slot) in slots.iter().enumerate() {
        if let Some(clause) = slot_clause(blocks, *slot) {
            list_clause(index, scratch, &clause, first + place as u64)?;
        }
    }
    Ok(())
}

/// Lists the far ids for what their clauses show.
fn list_far(
    index: &mut Index,
    scratch: &mut ClauseScratch,
    blocks: Blocks<'_>,
    far: &Far,
) -> Result<(), AllocError>
    requires { SpansEndBy far.now (length blocks.list.now) }
    ensures { OnOk result
        (ListsAll index.old index.new (far_entries blocks.entry.list.now far.now)) }
{
    let (known, map) = far.parts();
    list_known(index, scratch, blocks, known)?;
    list_spans(index, scratch, blocks, map)
}

/// Lists the far ids that stand in seats.
fn list_known(
    index: &mut Index,
    scratch: &mut ClauseScratch,
    blocks: Blocks<'_>,
    known: &[Known],
) -> Result<(), AllocError>
    requires { SpansEndBy (placed known.now) (length blocks.list.now) }
    ensures { OnOk result
        (ListsAll index.old index.new (far_entries blocks.entry.list.now (placed known.now))) }
{
    for one in known {
        if one.span.start <= one.span.end {
            let clause = Run::new(blocks, one.span.start, one.span.end);
            list_clause(index, scratch, &clause, one.id)?;
        }
    }
    Ok(())
}

/// Lists the far ids that stand in the map.
fn list_spans(
    index: &mut Index,
    scratch: &mut ClauseScratch,
    blocks: Blocks<'_>,
    map: &BTreeMap<u64, Span>,
) -> Result<(), AllocError>
    requires { SpansEndBy map.now.entries (length blocks.list.now) }
    ensures { OnOk result
        (ListsAll index.old index.new (far_entries blocks.entry.list.now map.now.entries)) }
{
    for (id, span) in map {
        let clause = Run::new(blocks, span.start, span.end);
        list_clause(index, scratch, &clause, *id)?;
    }
    Ok(())
}
