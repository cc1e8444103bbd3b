ghost use Rattle.std.specs.Prelude.{◌≡◌, ◌≤◌, ◌<◌, ◌^◌, [], false, length, slice_get, Some, IfOk, IfSome, OnOk, OnErr, IsTrue};
ghost use Rattle.ilk_cnf.specs.Formula.{is_clause_over, is_lit_over, IsFormula};
ghost use Rattle.ilk_cnf.specs.Literal.{has_distinct_vars};
ghost use Rattle.ilk_arena.specs.Arena.{chain_of, follows_or_heads_chain, literals_of, with_watch_moved, set_for_reference, contains_reference};
ghost use Rattle.ilk_watches.specs.Reasons.{nth_clause_or_empty};
ghost use Rattle.ilk_watches.specs.Chained.{formula_of, AreValidNumberedClauses, IsClauseAdded};

use ilk_arena::Arena;
use ilk_cnf::{Cnf, Lit};
use std::alloc::{AllocError, Global};
use std::marker::Model;

/// The clauses of a search over the variables 1 to `vars`, by number from 0, stored in an arena.
#[derive(Drop)]
pub struct NumberedClauses {
    arena: Arena,
    // By number: the reference of the clause in the arena.
    references: Vec<u64>,
}

impl Model for NumberedClauses {
    ghost use Rattle.ilk_arena.specs.Arena.{ArenaContent};
    ghost use Rattle.ilk_watches.specs.Held.{AreClauseReferences};

    ghost Value = { ArenaContent };

    ghost view = { λ c. c.arena };

    ghost invariant = { λ c. AreClauseReferences c.arena c.references.items };
}

impl NumberedClauses {
    /// Creates an empty list of clauses over the variables 1 to `vars`.
    pub fn new(alloc: Global, vars: u64) -> Result<NumberedClauses, AllocError>
        requires { vars ≤ 2 ^ 62 }
        ensures { IfOk result (λ c. formula_of c ≡ record { vars = vars; clauses = [] }) }
    {
        Ok(NumberedClauses {
            arena: Arena::new(alloc, vars)?,
            references: Vec::new(alloc),
        })
    }

    /// Creates a list of the clauses of `cnf`, in order.
    pub fn from_cnf(alloc: Global, cnf: &Cnf) -> Result<NumberedClauses, AllocError>
        ensures { IfOk result (λ c. formula_of c ≡ cnf.now) }
    {
        let mut clauses = NumberedClauses::new(alloc, cnf.vars())?;
        for c in 0..cnf.clauses() {
            clauses.add(cnf.clause(c + 1))?;
        }
        Ok(clauses)
    }

    /// Adds a clause at the end, with the count before the call as its number. It watches its first
    /// two literals, if it has two.
    pub fn add(&mut self, clause: &[Lit]) -> Result<(), AllocError>
        requires within { IsTrue (is_clause_over self.old.vars clause.now) }
        requires differ { IsTrue (has_distinct_vars clause.now) }
        ensures ok { OnOk result (IsClauseAdded self.old clause.now self.new) }
        ensures err { OnErr result (self.new ≡ self.old) }
    {
        self.references.reserve(1)?;
        self.arena.reserve(clause.len() as u64 + 8)?;
        let reference = self.arena.add(clause);
        self.references.push(reference).unwrap();
        Ok(())
    }

    /// Returns the number of variables.
    pub fn vars(&self) -> u64
        ensures count { result ≡ self.now.vars }
        ensures numbered { result ≤ 2 ^ 62 }
    {
        self.arena.vars()
    }

    /// Returns the number of clauses.
    pub fn count(&self) -> u64
        ensures count { result ≡ length self.now.clauses }
        ensures formula { IsFormula (formula_of self.now) }
        ensures clauses { AreValidNumberedClauses self.now }
    {
        self.references.len() as u64
    }

    /// Returns the number of literals of clause number `c`.
    pub fn length(&self, c: u64) -> u64
        requires { c < length self.now.clauses }
        ensures { result ≡ length (nth_clause_or_empty self.now.clauses c) }
    {
        self.arena.length(self.references[c as usize])
    }

    /// Returns literal `i` of clause number `c`.
    pub fn literal(&self, c: u64, i: u64) -> Lit
        requires clause { c < length self.now.clauses }
        requires literal { i < length (nth_clause_or_empty self.now.clauses c) }
        ensures literal { slice_get (nth_clause_or_empty self.now.clauses c) i ≡ Some result }
        ensures within { IsTrue (is_lit_over self.now.vars result) }
    {
        self.arena.literal(self.references[c as usize], i)
    }

    /// Returns the arena, in which clauses are named by references.
    #[inline(always)]
    pub fn arena(&self) -> &Arena
        ensures arena { result.now ≡ self.now }
        ensures clauses { AreValidNumberedClauses self.now }
    {
        &self.arena
    }

    /// Sets the cursor of the clause at reference `c` to position `i` among its literals.
    #[inline(always)]
    pub fn set_clause_cursor(&mut self, c: u64, i: u64)
        requires known { IsTrue (contains_reference c self.old.references) }
        requires within { i ≤ length (literals_of self.old c) }
        ensures { self.new
            ≡ record self.old {
              cursors = set_for_reference c self.old.references self.old.cursors
                  i;
            } }
    {
        self.arena.set_clause_cursor(c, i);
    }

    /// Moves the watch of the clause at reference `c` from `from` to its literal number `to`, which
    /// it doesn't watch. See `Arena::rewatch`.
    #[inline(always)]
    pub fn rewatch(&mut self, before: Option<u64>, c: u64, from: Lit, to: u64)
        requires within { IsTrue (is_lit_over self.old.vars from) }
        requires follows { IsTrue (follows_or_heads_chain before c (chain_of self.old from)) }
        requires to_in { to < length (literals_of self.old c) }
        requires unwatched { IfSome (slice_get (literals_of self.old c) to)
            (λ l. contains_reference c (chain_of self.old l) ≡ false) }
        ensures { IfSome (slice_get (literals_of self.old c) to)
            (λ l. self.new ≡ with_watch_moved self.old c from l) }
    {
        self.arena.rewatch(before, c, from, to);
    }
}
