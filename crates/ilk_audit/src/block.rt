//! All clauses in one block of memory: their literals, encoded as numbers, one clause after
//! another, and the end of each. A number takes four bytes, unless there are too many variables.

ghost use Rattle.std.specs.Prelude.{◌≡◌, ◌≤◌, ◌<◌, ◌-◌, ◌^◌, ◌⊎◌, ◌∷◌, [], Some, drop, length, option_to_list, slice_get, take, IfNone, IfOk, IfSome, IsTrue, OnOk, OnErr};
ghost use Rattle.ilk_cnf.specs.Formula.{is_clause_over, with_var_count_and_clauses, IsFormula};
ghost use Rattle.ilk_cnf.specs.Literal.{has_distinct_vars};
ghost use Rattle.ilk_audit.specs.Codes.{codes_in};
ghost use Rattle.ilk_audit.specs.Hinted.{status_of_hinted_clause, clause_status, status_from_unfalsified, AnyUnitLitIsSettable};
ghost use Rattle.ilk_audit.specs.Stored.{literals_of};

use crate::codes::{LitCodes, literal_of};
use crate::hinted::ClauseStatus;
use crate::partial::PartialAssignment;
use ilk_cnf::Lit;
use std::alloc::{AllocError, Global};
use std::marker::Model;

/// A list of clauses over the variables 1 to `vars`, in one block of memory. No clause has a
/// variable twice.
#[derive(Drop)]
pub(crate) struct ClauseDb {
    vars: u64,
    codes: LitCodes,
    // The start of the first clause, and the end of each.
    bounds: Vec<usize>,
}

impl Model for ClauseDb {
    ghost use Rattle.std.specs.Prelude.{length};
    ghost use Rattle.ilk_cnf.specs.Formula.{Formula};
    ghost use Rattle.ilk_audit.specs.Codes.{codes_in};
    ghost use Rattle.ilk_audit.specs.Stored.{CodesSplitIntoValidClauses, split_into_clauses};

    ghost Value = { Formula };

    ghost view = { λ b. record
        { vars = b.vars; clauses = split_into_clauses b.bounds.items (codes_in b.codes) } };

    ghost invariant = { λ b. CodesSplitIntoValidClauses b.vars b.codes b.bounds.items };
}

fn found_open(partial: &PartialAssignment, lone: Option<Lit>) -> ClauseStatus
    requires { IsTrue (is_clause_over partial.now.vars (option_to_list lone)) }
    ensures { result ≡ status_from_unfalsified partial.now.set (option_to_list lone) }
{
    match lone {
        None => ClauseStatus::AllFalse,
        Some(l) if partial.is_false(l.negated()) => ClauseStatus::Other,
        Some(l) => ClauseStatus::OneUnset(l),
    }
}

fn found_in_narrow(partial: &PartialAssignment, codes: &[u32]) -> ClauseStatus
    requires few { partial.now.vars ≤ 2 ^ 62 }
    requires within { IsTrue (is_clause_over partial.now.vars (literals_of codes.now)) }
    ensures { result ≡ clause_status partial.now.set (literals_of codes.now) }
{
    let mut lone = None;
    for code in codes {
        let l = literal_of(*code as u64);
        if !partial.is_false(l) {
            if lone.is_some() {
                return ClauseStatus::Other;
            }
            lone = Some(l);
        }
    }
    found_open(partial, lone)
}

fn found_in_wide(partial: &PartialAssignment, codes: &[u64]) -> ClauseStatus
    requires few { partial.now.vars ≤ 2 ^ 62 }
    requires within { IsTrue (is_clause_over partial.now.vars (literals_of codes.now)) }
    ensures { result ≡ clause_status partial.now.set (literals_of codes.now) }
{
    let mut lone = None;
    for code in codes {
        let l = literal_of(*code);
        if !partial.is_false(l) {
            if lone.is_some() {
                return ClauseStatus::Other;
            }
            lone = Some(l);
        }
    }
    found_open(partial, lone)
}

fn found_between(
    partial: &PartialAssignment,
    codes: &LitCodes,
    from: usize,
    to: usize,
) -> ClauseStatus
    requires few { partial.now.vars ≤ 2 ^ 62 }
    requires ascend { from ≤ to }
    requires fit { to ≤ length (codes_in codes.now) }
    requires within { IsTrue
        (is_clause_over partial.now.vars
        (literals_of (take (to - from) (drop from (codes_in codes.now))))) }
    ensures { result
        ≡ clause_status partial.now.set
        (literals_of (take (to - from) (drop from (codes_in codes.now)))) }
{
    match codes {
        LitCodes::Narrow(codes) => found_in_narrow(partial, &codes[from..to]),
        LitCodes::Wide(codes) => found_in_wide(partial, &codes[from..to]),
    }
}

fn part_at(bounds: &[usize], number: u64) -> Option<(usize, usize)>
    ensures some { IfSome result
        (λ part. (0 < number) × (slice_get bounds.now (number - 1) ≡ Some part.0) ×
        (slice_get bounds.now number ≡ Some part.1)) }
    ensures none { IfNone result ((number ≡ 0) ⊎ (length bounds.now ≤ number)) }
{
    let number = number as usize;
    if number == 0 || number >= bounds.len() {
        return None;
    }
    Some((bounds[number - 1], bounds[number]))
}

impl ClauseDb {
    /// Creates an empty list of clauses over the variables 1 to `vars`.
    pub fn new(alloc: Global, vars: u64) -> Result<ClauseDb, AllocError>
        requires { vars ≤ 2 ^ 62 }
        ensures { IfOk result (λ b. b ≡ record { vars = vars; clauses = [] }) }
    {
        Ok(ClauseDb {
            vars,
            codes: LitCodes::new(alloc, vars),
            bounds: vec![in alloc; 0]?,
        })
    }

    /// Returns the number of variables.
    pub fn vars(&self) -> u64
        ensures count { result ≡ self.now.vars }
        ensures numbered { result ≤ 2 ^ 62 }
        ensures formula { IsFormula self.now }
        ensures few { length self.now.clauses < 2 ^ 64 }
    {
        let _ = self.bounds.len();
        self.vars
    }

    /// Adds a clause at the end. It has to be over these variables, with none twice.
    pub fn push(&mut self, clause: &[Lit]) -> Result<(), AllocError>
        requires within { IsTrue (is_clause_over self.old.vars clause.now) }
        requires differ { IsTrue (has_distinct_vars clause.now) }
        ensures ok { OnOk result (self.new
            ≡ with_var_count_and_clauses self.old self.old.vars (clause.now ∷ [])) }
        ensures err { OnErr result (self.new ≡ self.old) }
    {
        self.codes.reserve(clause.len())?;
        self.bounds.reserve(1)?;
        self.codes.append_lits_assume_capacity(self.vars, clause);
        self.bounds.push(self.codes.len()).unwrap();
        Ok(())
    }

    /// Returns the status of the clause with `number`, from 1, if the literals of `partial` are
    /// true.
    pub fn clause_status(&self, partial: &PartialAssignment, number: u64) -> ClauseStatus
        requires { partial.now.vars ≡ self.now.vars }
        ensures found { result ≡ status_of_hinted_clause self.now.clauses partial.now.set number }
        ensures unit { AnyUnitLitIsSettable partial.now.vars partial.now.set result }
    {
        match part_at(self.bounds.as_slice(), number) {
            Some((from, to)) => found_between(partial, &self.codes, from, to),
            None => ClauseStatus::Missing,
        }
    }
}
