ghost use Rattle.std.specs.Prelude.{◌≡◌, ◌<◌, ◌^◌, ◌++◌, ◌∷◌, [], false, length, if◌then◌else◌, IfOk, IsTrue, OnOk, OnErr};
ghost use Rattle.ilk_cnf.specs.Formula.{is_clause_over, IsFormula};
ghost use Rattle.ilk_cnf.specs.Literal.{has_distinct_vars};
ghost use Rattle.ilk_log.specs.Derived.{is_empty_clause};
ghost use Rattle.ilk_audit.specs.declared.taken.Taken.TheVariants.{Closed, Good};
ghost use Rattle.ilk_audit.specs.Taken.{after_step, step_answer};

use crate::block::ClauseDb;
use crate::fault::why_step_not_derived;
use crate::partial::PartialAssignment;
use crate::taken::Taken;
use ilk_cnf::{Cnf, Lit};
use ilk_log::Step;
use std::alloc::{AllocError, Global};
use std::marker::Model;

/// A checker of the steps of a refutation log: a formula and the steps taken so far, each of which
/// follows from the formula and the steps before it.
#[derive(Drop)]
pub struct Auditor {
    clauses: ClauseDb,
    partial: PartialAssignment,
    closed: bool,
}

impl Model for Auditor {
    ghost use Rattle.std.specs.Prelude.{◌≡◌, []};
    ghost use Rattle.ilk_audit.specs.Audited.{AuditState};

    ghost Value = { AuditState };

    ghost view = { λ a. record
        { vars = a.clauses.vars; clauses = a.clauses.clauses; closed = a.closed } };

    ghost invariant = { λ a. a.partial ≡ record { vars = a.clauses.vars; set = [] } };
}

fn clauses_of(alloc: Global, cnf: &Cnf) -> Result<ClauseDb, AllocError>
    ensures { IfOk result (λ block. block ≡ cnf.now) }
{
    let mut block = ClauseDb::new(alloc, cnf.vars())?;
    for number in 0..cnf.clauses() {
        block.push(cnf.clause(number + 1))?;
    }
    Ok(block)
}

impl Auditor {
    /// Creates a checker of `cnf` that has taken no step. Hints will name its clauses by their
    /// numbers, from 1, and steps by the numbers after them.
    pub fn new(alloc: Global, cnf: &Cnf) -> Result<Auditor, AllocError>
        ensures { IfOk result
            (λ a. a ≡ record { vars = cnf.now.vars; clauses = cnf.now.clauses; closed = false }) }
    {
        Ok(Auditor {
            clauses: clauses_of(alloc, cnf)?,
            partial: PartialAssignment::new(alloc, cnf.vars())?,
            closed: false,
        })
    }

    /// Returns whether the empty clause was taken, so that the formula is refuted.
    pub fn closed(&self) -> bool
        ensures closed { result ≡ self.now.closed }
        ensures formula { IsFormula (record { vars = self.now.vars; clauses = self.now.clauses }) }
        ensures few { length self.now.clauses < 2 ^ 64 }
    {
        let _ = self.clauses.vars();
        self.closed
    }

    fn add(&mut self, clause: &[Lit]) -> Result<Taken, AllocError>
        requires within { IsTrue (is_clause_over self.old.vars clause.now) }
        requires differ { IsTrue (has_distinct_vars clause.now) }
        ensures taken { IfOk result
            (λ taken. taken ≡ (if is_empty_clause clause.now then Closed else Good)) }
        ensures after { OnOk result
            (self.new
            ≡ record {
              vars = self.old.vars;
              clauses = self.old.clauses ++ clause.now ∷ [];
              closed = is_empty_clause clause.now;
            }) }
        ensures err { OnErr result (self.new ≡ self.old) }
    {
        self.clauses.push(clause)?;
        self.closed = clause.is_empty();
        Ok(if self.closed {
            Taken::Closed
        } else {
            Taken::Good
        })
    }

    /// Takes the next step if it follows by its hints, otherwise returns the reason. The literals
    /// are checked first, then the hints in order. If the step is bad or memory runs out, the
    /// checker is unchanged.
    pub fn take(&mut self, step: &Step) -> Result<Taken, AllocError>
        requires open { self.old.closed ≡ false }
        ensures taken { IfOk result (λ taken. taken ≡ step_answer self.old step.now) }
        ensures after { OnOk result (self.new ≡ after_step self.old step.now) }
        ensures err { OnErr result (self.new ≡ self.old) }
    {
        self.add_step_if_derived(step.clause.as_slice(), step.hints.as_slice())
    }

    /// Takes the step with this clause and these hints if it follows, otherwise returns the reason.
    /// If the step is bad or memory runs out, the checker is unchanged.
    pub fn add_step_if_derived(
        &mut self,
        clause: &[Lit],
        hints: &[u64],
    ) -> Result<Taken, AllocError>
        requires open { self.old.closed ≡ false }
        ensures taken { IfOk result
            (λ taken. taken
            ≡ step_answer self.old (record { clause = clause.now; hints = hints.now })) }
        ensures after { OnOk result
            (self.new ≡ after_step self.old (record { clause = clause.now; hints = hints.now })) }
        ensures err { OnErr result (self.new ≡ self.old) }
    {
        let fault = why_step_not_derived(&self.clauses, &mut self.partial, clause, hints);
        self.partial.clear();
        match fault? {
            Some(why) => Ok(Taken::Bad(why)),
            None => self.add(clause),
        }
    }
}
