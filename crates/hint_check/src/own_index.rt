//! The index of a proof's own clauses: made once it is asked for, and given up at times.
ghost use Rattle.std.specs.Prelude.{◌≡◌, [], ◌++◌, OnOk, OnErr, None};
ghost use Rattle.std.specs.Option.{IfSome, unwrap_or};
ghost use Rattle.std.specs.FinMap as map;
ghost use Rattle.cnf_text.specs.Literal.{literal_number};
ghost use Rattle.hint_check.specs.Inner.Index.{ids_at, Indexes, MayList};

use crate::index::Index;
use crate::scratch::ClauseScratch;
use crate::table::Table;
use cnf_text::literal::Lit;
use std::alloc::{AllocError, Global};
use std::marker::Model;

/// An index, or none. To a contract it is its links, or `None`.
#[derive(Drop)]
pub struct OwnIndex {
    /// Where none is made, one that was given up: what it has room for serves the next one.
    index: Index,
    is_made: bool,
}

impl Model for OwnIndex {
    ghost use Rattle.std.specs.Prelude.{Option, Some, None, if◌then◌else◌};
    ghost use Rattle.hint_check.specs.Inner.Index.{Links};

    ghost Value = { Option Links };

    ghost view = { λ own. if own.is_made then Some own.index else None };
}

impl OwnIndex {
    /// None is made. It takes no memory yet.
    pub fn new(alloc: Global) -> OwnIndex
        ensures { result ≡ None }
    {
        OwnIndex {
            index: Index::new(alloc),
            is_made: false,
        }
    }

    /// Gives the index up, and keeps what it has room for.
    pub fn give_up(&mut self)
        ensures { self.new ≡ None }
    {
        self.is_made = false;
    }

    /// Makes the index of a table's clauses that aren't the front's, where none is made. The
    /// scratch is for nothing else.
    pub fn make(&mut self, table: &Table, scratch: &mut ClauseScratch) -> Result<(), AllocError>
        requires { IfSome self.old (λ rows. Indexes rows (map.entries table.now.own)) }
        ensures made { OnOk result (Indexes (unwrap_or self.new []) (map.entries table.now.own)) }
        ensures kept { IfSome self.new (λ rows. Indexes rows (map.entries table.now.own)) }
    {
        if self.is_made {
            return Ok(());
        }
        self.index.clear();
        table.list_in(&mut self.index, scratch)?;
        self.is_made = true;
        Ok(())
    }

    /// Puts the ids listed for a literal behind those of a list, where an index is made.
    pub fn list(&self, lit: Lit, ids: &mut Vec<u64>) -> Result<(), AllocError>
        ensures { OnOk result
            (ids.new.items ≡ ids.old.items ++ ids_at (unwrap_or self.now []) (literal_number lit)) }
    {
        if self.is_made {
            self.index.list(lit, ids)
        } else {
            Ok(())
        }
    }

    /// Whether it has far more links than a new one would cost, since most of what it names is
    /// gone.
    fn is_stale(&self, cost: usize) -> bool {
        self.index.len() / 4 > cost
    }

    /// Lists an id for each of these literals, where an index is made. A stale one is given up
    /// instead, and so is one that could not grow, since it may lack some of what it should name.
    pub fn note(&mut self, cost: usize, lits: &[Lit], id: u64) -> Result<(), AllocError>
        ensures listed { OnOk result (MayList self.old self.new lits.now id) }
        ensures given_up { OnErr result (self.new ≡ None) }
    {
        if !self.is_made {
            return Ok(());
        }
        if self.is_stale(cost) {
            self.is_made = false;
            return Ok(());
        }
        let noted = self.index.push_all(lits, id);
        if noted.is_err() {
            self.is_made = false;
        }
        noted
    }
}
