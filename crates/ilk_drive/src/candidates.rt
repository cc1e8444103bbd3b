ghost use Rattle.std.specs.Prelude.{ℕ, ◌≡◌, ◌≤◌, ◌+◌, ◌==◌, ◌||◌, [], false, true, length, IfSome, IfNone, OnOk};
ghost use Rattle.ilk_base.specs.Numbers.{has_number};

use std::alloc::{AllocError, Global};
use std::collections::BinaryHeap;
use std::marker::Model;

/// A priority queue of indices, least first, possibly with duplicates. Contracts see the indices in
/// no order.
#[derive(Drop)]
pub(crate) struct Candidates {
    // For each index its distance from `u64::MAX`, so that the least index is the greatest here.
    ranks: BinaryHeap<u64>,
}

impl Model for Candidates {
    ghost use Rattle.std.specs.Prelude.{List, ℕ, map};
    ghost use Rattle.std.specs.BinaryHeap.{IsHeap, heap_items};
    ghost use Rattle.std.specs.Ordering.{nat_cmp};
    ghost use Rattle.ilk_drive.specs.Places.{u64_max_minus_rank};

    ghost Value = { List ℕ };

    ghost view = { λ c. map u64_max_minus_rank (heap_items c.ranks) };

    ghost invariant = { λ c. IsHeap nat_cmp (heap_items c.ranks) };
}

impl Candidates {
    pub(crate) fn new(alloc: Global) -> Candidates
        ensures { result ≡ [] }
    {
        Candidates {
            ranks: BinaryHeap::new(alloc),
        }
    }

    pub(crate) fn push(&mut self, place: u64) -> Result<(), AllocError>
        ensures { OnOk result
            ((j : ℕ) → has_number j self.new ≡ (place == j || has_number j self.old)) }
    {
        self.ranks.push(u64::MAX - place)?;
        Ok(())
    }

    /// Removes and returns the least index. Returns `None` if the queue is empty.
    pub(crate) fn pop(&mut self) -> Option<u64>
        ensures taken { IfSome result
            (λ place. (j : ℕ) → has_number j self.old ≡ (place == j || has_number j self.new)) }
        ensures least { IfSome result
            (λ place. (j : ℕ) → has_number j self.new ≡ true → place ≤ j) }
        ensures fewer { IfSome result (λ place. length self.new + 1 ≡ length self.old) }
        ensures none { IfNone result ((j : ℕ) → has_number j self.old ≡ false) }
        ensures empty { IfNone result (self.new ≡ self.old) }
    {
        let rank = self.ranks.pop()?;
        Some(u64::MAX - rank)
    }
}
