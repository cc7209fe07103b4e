//! The clauses of a formula in blocks, by their ids from 1 on, without the literals that a clause
//! repeats.
ghost use Rattle.std.specs.Prelude.{◌≡◌, IfOk};

use crate::block::{Block, push_clause};
use crate::distinct::{distinct, may_repeat};
use crate::scratch::ClauseScratch;
use crate::slots::{NO_SLOT, Slot};
use cnf_text::formula::Clause;
use std::alloc::{AllocError, Global};
use std::marker::Model;

/// Clauses in a row, which don't change. To a contract they are the finite map from their ids.
#[derive(Drop)]
pub struct Front {
    blocks: Vec<Block>,
    /// No falsifier has a greater number.
    reach: u32,
    /// By id; that of 0 has no clause.
    slots: Vec<Slot>,
}

impl Model for Front {
    ghost use Rattle.std.specs.Prelude.{List, [], length};
    ghost use Rattle.std.specs.Ordering.{nat_cmp};
    ghost use Rattle.std.specs.FinMap as map;
    ghost use Rattle.cnf_text.specs.Literal.{Literal, literal_code};
    ghost use Rattle.std.specs.Coded.{coded_ℕ, coded_list};
    ghost use Rattle.hint_check.specs.Inner.Blocks.{Within};
    ghost use Rattle.hint_check.specs.Inner.Table.{clauses_in, SlotsEndBy};

    ghost Value = { map.FinMap nat_cmp (List Literal) };

    ghost coded = { map.code coded_ℕ (coded_list literal_code) };

    ghost view = { λ front. clauses_in front.blocks.items 0 front.slots.items [] };

    ghost invariant = { λ front. SlotsEndBy front.slots.items (length front.blocks.items)
        × Within front.blocks.items front.reach };
}

impl Front {
    ghost use Rattle.std.specs.Prelude.{◌≡◌, ◌≤◌, IfOk, [], length};
    ghost use Rattle.std.specs.FinMap as map;
    ghost use Rattle.std.specs.List.{enumerate_from};
    ghost use Rattle.hint_check.specs.Inner.Alike.{Alike};
    ghost use Rattle.hint_check.specs.Inner.Blocks.{Within};
    ghost use Rattle.hint_check.specs.Inner.Table.{clauses_in, SlotsEndBy};

    /// Clauses with the literals of these, each once, under the ids from 1 on. An error is a
    /// refused growth, or that there are more blocks than four bytes count.
    pub fn of(alloc: Global, clauses: &[Clause]) -> Result<Front, AllocError>
        ensures { IfOk result (λ front.
            Alike front (map.from_entries (enumerate_from 1 clauses.now))) }
    {
        let mut scratch = ClauseScratch::new(alloc);
        let mut blocks = Vec::new(alloc);
        let mut reach = 0;
        let mut slots = Vec::new(alloc);
        slots.push(NO_SLOT)?;
        for clause in clauses {
            let start = blocks.len();
            let lits = clause.lits();
            let lits = distinct(&mut scratch, lits, may_repeat(lits))?;
            push_clause(&mut blocks, &mut reach, lits)?;
            let end = blocks.len();
            if end > u32::MAX as usize {
                return Err(AllocError);
            }
            slots.push(Slot {
                start: start as u32,
                end: end as u32,
            })?;
        }
        Ok(Front {
            blocks,
            reach,
            slots,
        })
    }

    /// Its blocks, the greatest number of a falsifier or more, and its slots.
    pub fn into_parts(self) -> (Vec<Block>, u32, Vec<Slot>)
        ensures clauses { clauses_in result.0.items 0 result.2.items [] ≡ self }
        ensures ends { SlotsEndBy result.2.items (length result.0.items) }
        ensures within { Within result.0.items result.1 }
    {
        let Front {
            blocks,
            reach,
            slots,
        } = self;
        (blocks, reach, slots)
    }
}
