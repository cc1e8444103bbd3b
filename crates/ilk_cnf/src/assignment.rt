ghost use Rattle.std.specs.Prelude.{◌≡◌, ◌<◌, ◌++◌, ◌∷◌, [], length, slice_get, Some, OnOk, OnErr};
ghost use Rattle.ilk_cnf.specs.Truth.{value, is_true, is_clause_true};

use crate::lit::Lit;
use std::alloc::{AllocError, Global};
use std::marker::Model;

/// A truth value for each variable, from 1.
#[derive(Drop)]
pub struct Assignment {
    values: Vec<bool>,
}

impl Model for Assignment {
    ghost use Rattle.std.specs.Prelude.{List, Bool};

    ghost Value = { List Bool };

    ghost view = { λ a. a.values.items };
}

impl Assignment {
    /// Creates the empty assignment.
    pub fn new(alloc: Global) -> Self
        ensures { result ≡ [] }
    {
        Assignment {
            values: Vec::new(alloc),
        }
    }

    /// Adds the value of the next variable.
    pub fn push(&mut self, item: bool) -> Result<(), AllocError>
        ensures ok { OnOk result (self.new ≡ self.old ++ item ∷ []) }
        ensures err { OnErr result (self.new ≡ self.old) }
    {
        self.values.push(item)?;
        Ok(())
    }

    /// Returns the number of variables that have a value.
    pub fn len(&self) -> u64
        ensures { result ≡ length self.now }
    {
        self.values.len() as u64
    }

    /// Returns entry `i`, the value of variable i + 1.
    pub fn at(&self, i: u64) -> &bool
        requires { i < length self.now }
        ensures { slice_get self.now i ≡ Some result.now }
    {
        &self.values[i as usize]
    }

    /// Returns the value of variable `v`, or `false` if the assignment has no entry for it.
    pub fn value(&self, v: u64) -> bool
        ensures { result ≡ value self.now v }
    {
        if v == 0 {
            return false;
        }
        match self.values.get(v as usize - 1) {
            Some(value) => *value,
            None => false,
        }
    }

    /// Returns whether `lit` is true under the assignment.
    pub fn is_lit_true(&self, lit: Lit) -> bool
        ensures { result ≡ is_true self.now lit }
    {
        if lit.positive() {
            self.value(lit.var())
        } else {
            !self.value(lit.var())
        }
    }

    /// Returns whether some literal of `clause` is true under the assignment.
    pub fn satisfies_clause(&self, clause: &[Lit]) -> bool
        ensures { result ≡ is_clause_true self.now clause.now }
    {
        clause.iter().any(|lit| self.is_lit_true(*lit))
    }
}
