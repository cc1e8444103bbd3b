ghost use Rattle.std.specs.Prelude.{◌≡◌, ◌<◌, ◌≤◌, ◌++◌, ◌∷◌, [], length, slice_get, slice_index_or, slice_range, Some, OnOk, OnErr};

use crate::lit::Lit;
use std::alloc::{AllocError, Global};
use std::marker::Model;

/// A list of lists of literals, all stored in one vector. A formula has millions of short clauses,
/// too many for an allocation each.
#[derive(Drop)]
pub(crate) struct ClauseList {
    lits: Vec<Lit>,
    // For each list, the number of literals up to its end.
    ends: Vec<u64>,
}

impl Model for ClauseList {
    ghost use Rattle.std.specs.Prelude.{List, IsTrue, length};
    ghost use Rattle.ilk_cnf.specs.Literal.{Literal};
    ghost use Rattle.ilk_cnf.specs.Flat.{split_at_ends, ends_ascend_to};

    ghost Value = { List (List Literal) };

    ghost view = { λ c. split_at_ends 0 c.ends.items c.lits.items };

    ghost invariant = { λ c. IsTrue (ends_ascend_to 0 c.ends.items (length c.lits.items)) };
}

impl ClauseList {
    /// Creates an empty list.
    pub fn new(alloc: Global) -> Self
        ensures { result ≡ [] }
    {
        ClauseList {
            lits: Vec::new(alloc),
            ends: Vec::new(alloc),
        }
    }

    /// Adds a list at the end. If memory runs out, nothing changes.
    pub fn push(&mut self, clause: &[Lit]) -> Result<(), AllocError>
        ensures ok { OnOk result (self.new ≡ self.old ++ clause.now ∷ []) }
        ensures err { OnErr result (self.new ≡ self.old) }
    {
        self.ends.reserve(1)?;
        self.lits.extend_from_slice(clause)?;
        self.ends.push(self.lits.len() as u64).unwrap();
        Ok(())
    }

    /// Returns the number of lists.
    pub fn len(&self) -> u64
        ensures { result ≡ length self.now }
    {
        self.ends.len() as u64
    }

    /// Returns list `i`, from 0.
    pub fn at(&self, i: u64) -> &[Lit]
        requires { i < length self.now }
        ensures { slice_get self.now i ≡ Some result.now }
    {
        let start = start_of(self.ends.as_slice(), i);
        part(self.lits.as_slice(), start, self.ends[i as usize])
    }
}

fn start_of(ends: &[u64], i: u64) -> u64
    requires { i < length ends.now }
    ensures { result ≡ slice_index_or (0 ∷ ends.now) i 0 }
{
    if i == 0 {
        return 0;
    }
    ends[i as usize - 1]
}

fn part(lits: &[Lit], start: u64, end: u64) -> &[Lit]
    requires order { start ≤ end }
    requires within { end ≤ length lits.now }
    ensures { result.now ≡ slice_range lits.now start end }
{
    &lits[start as usize..end as usize]
}
