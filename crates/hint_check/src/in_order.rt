//! Ids in order, in which one is found in few steps.
ghost use Rattle.std.specs.Prelude.{◌≡◌, ℕ, ◌==◌};
ghost use Rattle.std.specs.List.{list_any};

use std::marker::Model;

/// Ids in order. To a contract it is the list of them.
#[derive(Drop)]
pub struct InOrder {
    ids: Vec<u64>,
}

impl Model for InOrder {
    ghost use Rattle.std.specs.Prelude.{List, ℕ};
    ghost use Rattle.std.specs.Ordering.{nat_cmp};
    ghost use Rattle.std.specs.List.Sorted.{IsSorted};

    ghost Value = { List ℕ };

    ghost view = { λ ordered. ordered.ids.items };

    ghost invariant = { λ ordered. IsSorted nat_cmp ordered.ids.items };
}

impl InOrder {
    /// These ids, in order.
    pub fn of(mut ids: Vec<u64>) -> InOrder
        ensures { (id : ℕ) → list_any (λ named. named == id) result
            ≡ list_any (λ named. named == id) ids.items }
    {
        ids.sort_unstable();
        InOrder { ids }
    }

    /// Whether an id is among them.
    pub fn contains(&self, id: u64) -> bool
        ensures { result ≡ list_any (λ named. named == id) self.now }
    {
        self.ids.binary_search(&id).is_ok()
    }
}
