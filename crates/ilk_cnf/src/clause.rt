ghost use Rattle.std.specs.Prelude.{◌≡◌, ◌<◌, ◌+◌, drop, ◌++◌, ◌∷◌, [], length, slice_get, option_to_list, Some, OnOk, OnErr, IfOk, IsTrue, false};
ghost use Rattle.ilk_cnf.specs.Formula.{clause_unless_tautology};
ghost use Rattle.ilk_cnf.specs.Literal.{has_lit, has_var, has_distinct_vars};

use crate::lit::Lit;
use ilk_base::Row;
use std::alloc::{AllocError, Global};
use std::marker::Model;

/// A list of literals, which may have a variable twice.
pub type Lits = Row<Lit>;

/// A list of literals over different variables. It is true if one of them is.
#[derive(Drop)]
pub struct Clause {
    lits: Vec<Lit>,
}

impl Model for Clause {
    ghost use Rattle.std.specs.Prelude.{List, IsTrue};
    ghost use Rattle.ilk_cnf.specs.Literal.{Literal, has_distinct_vars};

    ghost Value = { List Literal };

    ghost view = { λ c. c.lits.items };

    ghost invariant = { λ c. IsTrue (has_distinct_vars c.lits.items) };
}

impl Clause {
    /// Creates the empty clause, which is never true.
    pub fn new(alloc: Global) -> Self
        ensures { result ≡ [] }
    {
        Clause {
            lits: Vec::new(alloc),
        }
    }

    /// Creates the clause that has each of `lits` once. Returns `None` if some variable has both
    /// its literals in the list, so that it is always true.
    pub fn from_lits_unless_tautology(
        alloc: Global,
        lits: &[Lit],
    ) -> Result<Option<Clause>, AllocError>
        ensures { IfOk result (λ clause. option_to_list clause ≡ clause_unless_tautology lits.now) }
    {
        let mut clause = Clause::new(alloc);
        for (i, lit) in lits.iter().enumerate() {
            if stands_after(lits, i, lit.negated()) {
                return Ok(None);
            }
            if !stands_after(lits, i, *lit) {
                clause.push(*lit)?;
            }
        }
        Ok(Some(clause))
    }

    /// Adds a literal at the end. Its variable must be new to the clause.
    pub fn push(&mut self, item: Lit) -> Result<(), AllocError>
        requires { has_var item.var self.old ≡ false }
        ensures ok { OnOk result (self.new ≡ self.old ++ item ∷ []) }
        ensures err { OnErr result (self.new ≡ self.old) }
    {
        self.lits.push(item)?;
        Ok(())
    }

    /// Returns whether the clause has a literal of variable `v`.
    pub fn has_var(&self, v: u64) -> bool
        ensures { result ≡ has_var v self.now }
    {
        self.lits.iter().any(|lit| lit.var() == v)
    }

    /// Returns the number of literals.
    pub fn len(&self) -> u64
        ensures { result ≡ length self.now }
    {
        self.lits.len() as u64
    }

    /// Returns literal `i`, from 0.
    pub fn at(&self, i: u64) -> &Lit
        requires { i < length self.now }
        ensures { slice_get self.now i ≡ Some result.now }
    {
        &self.lits[i as usize]
    }

    /// Returns all literals.
    pub fn as_slice(&self) -> &[Lit]
        ensures items { result.now ≡ self.now }
        ensures differ { IsTrue (has_distinct_vars self.now) }
    {
        self.lits.as_slice()
    }
}

fn stands_after(lits: &[Lit], i: usize, lit: Lit) -> bool
    requires { i < length lits.now }
    ensures { result ≡ has_lit lit (drop (i + 1) lits.now) }
{
    lits.iter().skip(i + 1).any(|other| lit.is_same(*other))
}
