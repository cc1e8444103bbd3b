ghost use Rattle.std.specs.Prelude.{◌≡◌, ◌+◌, ◌∷◌, [], List, Bool, map, length, OnOk, IfOk, IsTrue};
ghost use Rattle.std.specs.List.{list_all};
ghost use Rattle.ilk_cnf.specs.Extends.{PartExtensionsAreExactly, EqualsGivenValues};
ghost use Rattle.ilk_cnf.specs.Formula.{is_clause_over, with_var_count_and_clauses};
ghost use Rattle.ilk_cnf.specs.Literal.{negated_lit, positive_lit};
ghost use Rattle.ilk_cnf.specs.Part.{with_part, clauses_from_lists, and_gate_clauses, and_gate_part, or_gate_part};
ghost use Rattle.ilk_cnf.specs.Truth.{is_true, is_clause_true};

use crate::clause::Lits;
use crate::cnf::Cnf;
use crate::lit::Lit;
use std::alloc::{AllocError, Global};

/// Returns the opposite of each of `lits`, in order.
pub fn negated_lits(alloc: Global, lits: &[Lit]) -> Result<Lits, AllocError>
    ensures { IfOk result (λ others. others ≡ map negated_lit lits.now) }
{
    let mut others = Lits::new(alloc);
    for lit in lits {
        others.push(lit.negated())?;
    }
    Ok(others)
}

// Returns `gate` and the negations of `lits`. As a clause: if all of `lits` are true, so is `gate`.
fn gate_and_opposites(alloc: Global, gate: Lit, lits: &[Lit]) -> Result<Lits, AllocError>
    ensures { IfOk result (λ wide. wide ≡ gate ∷ map negated_lit lits.now) }
{
    let mut wide = Lits::new(alloc);
    wide.push(gate)?;
    for lit in lits {
        wide.push(lit.negated())?;
    }
    Ok(wide)
}

fn imply_each(cnf: &mut Cnf, gate: Lit, lits: &[Lit]) -> Result<(), AllocError>
    requires gate { IsTrue (is_clause_over cnf.old.vars (gate ∷ [])) }
    requires lits { IsTrue (is_clause_over cnf.old.vars lits.now) }
    ensures { OnOk result
        (cnf.new
        ≡ with_var_count_and_clauses cnf.old cnf.old.vars
        (clauses_from_lists (map (λ l. negated_lit gate ∷ l ∷ []) lits.now))) }
{
    for lit in lits {
        cnf.add_clause_unless_tautology(&[gate.negated(), *lit])?;
    }
    Ok(())
}

/// Adds clauses that make the existing literal `gate` true if and only if all of `lits` are. If
/// memory runs out, `cnf` may have grown.
pub fn define_and_gate(
    alloc: Global,
    cnf: &mut Cnf,
    gate: Lit,
    lits: &[Lit],
) -> Result<(), AllocError>
    requires gate { IsTrue (is_clause_over cnf.old.vars (gate ∷ [])) }
    requires lits { IsTrue (is_clause_over cnf.old.vars lits.now) }
    ensures { OnOk result
        (cnf.new ≡ with_var_count_and_clauses cnf.old cnf.old.vars
        (clauses_from_lists (and_gate_clauses gate lits.now))) }
{
    imply_each(cnf, gate, lits)?;
    let wide = gate_and_opposites(alloc, gate, lits)?;
    cnf.add_clause_unless_tautology(wide.as_slice())?;
    Ok(())
}

/// Adds a variable that is true if and only if all of `lits` are, and returns its positive literal.
/// If memory runs out, `cnf` may have grown.
pub fn add_and_gate(alloc: Global, cnf: &mut Cnf, lits: &[Lit]) -> Result<Lit, AllocError>
    requires { IsTrue (is_clause_over cnf.old.vars lits.now) }
    ensures lit { IfOk result (λ l. l ≡ positive_lit (cnf.old.vars + 1)) }
    ensures made { OnOk result (cnf.new ≡ with_part cnf.old (and_gate_part lits.now cnf.old.vars)) }
    ensures law { OnOk result
        ((a : List Bool) → length a ≡ cnf.old.vars →
        PartExtensionsAreExactly a (and_gate_part lits.now cnf.old.vars)
        (EqualsGivenValues (list_all (is_true a) lits.now ∷ []))) }
{
    let gate = Lit::new(cnf.fresh()?, true);
    define_and_gate(alloc, cnf, gate, lits)?;
    Ok(gate)
}

/// Adds a variable that is true if and only if at least one of `lits` is, and returns its positive
/// literal. If memory runs out, `cnf` may have grown.
pub fn add_or_gate(alloc: Global, cnf: &mut Cnf, lits: &[Lit]) -> Result<Lit, AllocError>
    requires { IsTrue (is_clause_over cnf.old.vars lits.now) }
    ensures lit { IfOk result (λ l. l ≡ positive_lit (cnf.old.vars + 1)) }
    ensures made { OnOk result (cnf.new ≡ with_part cnf.old (or_gate_part lits.now cnf.old.vars)) }
    ensures law { OnOk result
        ((a : List Bool) → length a ≡ cnf.old.vars →
        PartExtensionsAreExactly a (or_gate_part lits.now cnf.old.vars)
        (EqualsGivenValues (is_clause_true a lits.now ∷ []))) }
{
    let gate = Lit::new(cnf.fresh()?, true);
    let others = negated_lits(alloc, lits)?;
    define_and_gate(alloc, cnf, gate.negated(), others.as_slice())?;
    Ok(gate)
}
