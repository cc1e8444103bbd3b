ghost use Rattle.std.specs.Prelude.{◌≡◌, ◌<◌, ◌≤◌, ◌+◌, ◌-◌, ◌^◌, ◌∷◌, [], length, slice_get, Some, OnOk, OnErr, IfOk, IsTrue};
ghost use Rattle.ilk_cnf.specs.Formula.{with_var_count_and_clauses, clause_unless_tautology, is_clause_over, IsFormula};
ghost use Rattle.ilk_cnf.specs.Literal.{has_distinct_vars};
ghost use Rattle.ilk_cnf.specs.Truth.{satisfies};

use crate::assignment::Assignment;
use crate::clause::Clause;
use crate::clause_list::ClauseList;
use crate::lit::Lit;
use crate::marks::has_distinct_vars;
use std::alloc::{AllocError, Global};
use std::marker::Model;

// Up to this many literals are compared pairwise; for more, their variables are marked.
const FEW: usize = 8;

/// A formula: the variables 1 to `vars`, and clauses over them. It takes 2 bytes per variable, 8
/// per clause and 8 per literal.
#[derive(Drop)]
pub struct Cnf {
    // A mark for each variable, with which `has_distinct_vars` finds duplicates; meaningless
    // between its calls. No two bytes of memory have the same address, so there are at most 2^62
    // marks.
    marks: Vec<u16>,
    clauses: ClauseList,
}

impl Model for Cnf {
    ghost use Rattle.std.specs.Prelude.{length};
    ghost use Rattle.ilk_cnf.specs.Formula.{Formula, IsFormula};

    ghost Value = { Formula };

    ghost view = { λ c. record { vars = length c.marks.items; clauses = c.clauses } };

    ghost invariant = { λ c. IsFormula
        (record { vars = length c.marks.items; clauses = c.clauses }) };
}

impl Cnf {
    /// Creates a formula without variables and clauses.
    pub fn new(alloc: Global) -> Self
        ensures { result ≡ record { vars = 0; clauses = [] } }
    {
        Cnf {
            marks: Vec::new(alloc),
            clauses: ClauseList::new(alloc),
        }
    }

    /// Adds a variable and returns its number. If memory runs out, the formula is unchanged.
    pub fn fresh(&mut self) -> Result<u64, AllocError>
        ensures ok { IfOk result (λ v. v ≡ self.old.vars + 1) }
        ensures numbered { IfOk result (λ v. v ≤ 2 ^ 62) }
        ensures grown { OnOk result (self.new ≡
            with_var_count_and_clauses self.old (self.old.vars + 1) []) }
        ensures err { OnErr result (self.new ≡ self.old) }
    {
        self.marks.push(0)?;
        Ok(self.marks.len() as u64)
    }

    /// Adds a clause at the end. If memory runs out, the formula is unchanged.
    pub fn add(&mut self, clause: Clause) -> Result<(), AllocError>
        requires { IsTrue (is_clause_over self.old.vars clause) }
        ensures ok { OnOk result (self.new ≡ with_var_count_and_clauses self.old self.old.vars
            (clause ∷ [])) }
        ensures err { OnErr result (self.new ≡ self.old) }
    {
        self.push(clause.as_slice())
    }

    fn push(&mut self, lits: &[Lit]) -> Result<(), AllocError>
        requires within { IsTrue (is_clause_over self.old.vars lits.now) }
        requires differ { IsTrue (has_distinct_vars lits.now) }
        ensures ok { OnOk result (self.new ≡ with_var_count_and_clauses self.old self.old.vars
            (lits.now ∷ [])) }
        ensures err { OnErr result (self.new ≡ self.old) }
    {
        self.clauses.push(lits)
    }

    fn has_distinct_vars(&mut self, lits: &[Lit]) -> bool
        requires { IsTrue (is_clause_over self.old.vars lits.now) }
        ensures differ { result ≡ has_distinct_vars lits.now }
        ensures same { self.new ≡ self.old }
    {
        has_distinct_vars(&mut self.marks, lits)
    }

    /// Adds the clause that has each of `lits` once, or nothing if some variable has both its
    /// literals in the list. If memory runs out, the formula is unchanged.
    pub fn add_clause_unless_tautology(&mut self, lits: &[Lit]) -> Result<(), AllocError>
        requires { IsTrue (is_clause_over self.old.vars lits.now) }
        ensures ok { OnOk result (self.new
            ≡ with_var_count_and_clauses self.old self.old.vars
            (clause_unless_tautology lits.now)) }
        ensures err { OnErr result (self.new ≡ self.old) }
    {
        if lits.len() > FEW && self.has_distinct_vars(lits) {
            return self.push(lits);
        }
        match Clause::from_lits_unless_tautology(*self.marks.allocator(), lits)? {
            Some(clause) => self.add(clause),
            None => Ok(()),
        }
    }

    /// Returns the number of variables.
    pub fn vars(&self) -> u64
        ensures count { result ≡ self.now.vars }
        ensures numbered { result ≤ 2 ^ 62 }
    {
        self.marks.len() as u64
    }

    /// Returns the number of clauses.
    pub fn clauses(&self) -> u64
        ensures count { result ≡ length self.now.clauses }
        ensures formula { IsFormula self.now }
    {
        self.clauses.len()
    }

    /// Returns clause `n`, from 1.
    pub fn clause(&self, n: u64) -> &[Lit]
        requires from_1 { 0 < n }
        requires within { n ≤ length self.now.clauses }
        ensures clause { slice_get self.now.clauses (n - 1) ≡ Some result.now }
        ensures within { IsTrue (is_clause_over self.now.vars result.now) }
        ensures differ { IsTrue (has_distinct_vars result.now) }
    {
        self.clauses.at(n - 1)
    }

    /// Returns whether `a` makes some literal of each clause true.
    pub fn satisfies(&self, a: &Assignment) -> bool
        requires { length a.now ≡ self.now.vars }
        ensures { result ≡ satisfies a.now self.now.clauses }
    {
        for i in 0..self.clauses.len() {
            if !a.satisfies_clause(self.clauses.at(i)) {
                return false;
            }
        }
        true
    }
}
