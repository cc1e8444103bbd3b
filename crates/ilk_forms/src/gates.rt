ghost use Rattle.std.specs.Prelude.{◌≡◌, ◌+◌, ◌∷◌, ◌++◌, [], IfOk, OnOk, IsTrue};
ghost use Rattle.std.specs.List.{list_all};
ghost use Rattle.ilk_cnf.specs.Formula.{is_clause_over};
ghost use Rattle.ilk_cnf.specs.Literal.{has_lit};
ghost use Rattle.ilk_cnf.specs.Part.{with_part};
ghost use Rattle.ilk_forms.specs.Gates.{with_sign, gates_part, and_gate_from_lits, least_var, have_same_lits_in_any_order, lit_of_known_gate, lits_negated_unless_all, combined_lit, lit_or_new_gate};

use ilk_base::Row;
use ilk_cnf::{Cnf, Lit, Lits, define_and_gate, negated_lits};
use std::alloc::{AllocError, Global};

/// A new variable of a form: `lit`, one of its literals, is true exactly if all of `lits` are.
/// `least` is their least variable, by which a search for equal gates passes over most others.
#[derive(Drop)]
pub(crate) struct AndGate {
    pub lits: Lits,
    pub lit: Lit,
    pub least: u64,
}

/// The gates of a form that exist so far, in order. Equal parts of the form share one.
pub(crate) type Gates = Row<AndGate>;

/// Returns `lit` if `positive`, otherwise its negation.
pub(crate) fn with_sign(positive: bool, lit: Lit) -> Lit
    ensures { result ≡ with_sign positive lit }
{
    if positive { lit } else { lit.negated() }
}

fn has_lit(lit: Lit, lits: &[Lit]) -> bool
    ensures { result ≡ has_lit lit lits.now }
{
    lits.iter().any(|other| lit.is_same(*other))
}

fn has_all_lits(lits: &[Lit], others: &[Lit]) -> bool
    ensures { result ≡ list_all (λ l. has_lit l others.now) lits.now }
{
    lits.iter().all(|lit| has_lit(*lit, others))
}

fn have_same_lits_in_any_order(lits: &[Lit], others: &[Lit]) -> bool
    ensures { result ≡ have_same_lits_in_any_order lits.now others.now }
{
    has_all_lits(lits, others) && has_all_lits(others, lits)
}

fn least_var(lits: &[Lit]) -> u64
    ensures { result ≡ least_var lits.now }
{
    let mut least = u64::MAX;
    for lit in lits {
        least = least.min(lit.var());
    }
    least
}

fn lit_of_known_gate(gates: &Gates, lits: &[Lit]) -> Option<Lit>
    ensures shared { result ≡ lit_of_known_gate gates.now lits.now }
{
    let least = least_var(lits);
    for gate in gates.as_slice() {
        if gate.least == least && have_same_lits_in_any_order(lits, gate.lits.as_slice()) {
            return Some(gate.lit);
        }
    }
    None
}

// Returns literals that are all true exactly if `lits` are (`all`), or if none of them is
// (otherwise).
fn lits_negated_unless_all(alloc: Global, all: bool, lits: &[Lit]) -> Result<Lits, AllocError>
    ensures { IfOk result (λ key. key ≡ lits_negated_unless_all all lits.now) }
{
    if all {
        copied(alloc, lits)
    } else {
        negated_lits(alloc, lits)
    }
}

fn copied(alloc: Global, lits: &[Lit]) -> Result<Lits, AllocError>
    ensures { IfOk result (λ copy. copy ≡ lits.now) }
{
    let mut copy = Lits::new(alloc);
    push_all(&mut copy, lits)?;
    Ok(copy)
}

/// Appends the literals of `more` to `lits`.
pub(crate) fn push_all(lits: &mut Lits, more: &[Lit]) -> Result<(), AllocError>
    ensures { OnOk result (lits.new ≡ lits.old ++ more.now) }
{
    for lit in more {
        lits.push(*lit)?;
    }
    Ok(())
}

fn add_gate(
    alloc: Global,
    cnf: &mut Cnf,
    gates: &mut Gates,
    all: bool,
    lits: Lits,
) -> Result<Lit, AllocError>
    requires { IsTrue (is_clause_over cnf.old.vars lits) }
    ensures lit { IfOk result (λ l. l ≡ (and_gate_from_lits all lits cnf.old.vars).lit) }
    ensures gates { OnOk result
        (gates.new ≡ gates.old ++ and_gate_from_lits all lits cnf.old.vars ∷ []) }
    ensures made { OnOk result
        (cnf.new ≡ with_part cnf.old
        (gates_part (and_gate_from_lits all lits cnf.old.vars ∷ []) cnf.old.vars)) }
{
    let lit = Lit::new(cnf.fresh()?, all);
    define_and_gate(alloc, cnf, lit, lits.as_slice())?;
    let least = least_var(lits.as_slice());
    gates.push(AndGate { lits, lit, least })?;
    Ok(lit)
}

fn gate_lit(
    alloc: Global,
    cnf: &mut Cnf,
    gates: &mut Gates,
    all: bool,
    lits: &[Lit],
) -> Result<Lit, AllocError>
    requires { IsTrue (is_clause_over cnf.old.vars lits.now) }
    ensures lit { IfOk result
        (λ l. l ≡ (lit_or_new_gate all lits.now cnf.old.vars
        (lit_of_known_gate gates.old (lits_negated_unless_all all
        lits.now))).lit) }
    ensures gates { OnOk result
        (gates.new ≡ gates.old
        ++ (lit_or_new_gate all lits.now cnf.old.vars (lit_of_known_gate gates.old
        (lits_negated_unless_all all lits.now))).gates) }
    ensures made { OnOk result
        (cnf.new ≡ with_part cnf.old
        (gates_part (lit_or_new_gate all lits.now cnf.old.vars
        (lit_of_known_gate gates.old (lits_negated_unless_all all
        lits.now))).gates cnf.old.vars)) }
{
    let key = lits_negated_unless_all(alloc, all, lits)?;
    match lit_of_known_gate(gates, key.as_slice()) {
        Some(lit) => Ok(with_sign(all, lit)),
        None => Ok(with_sign(all, add_gate(alloc, cnf, gates, all, key)?)),
    }
}

/// Returns one literal in place of `lits`, true exactly if all of them are (`all`), or at least one
/// is (otherwise). A single literal represents itself. Otherwise a gate of `gates` with the same
/// literals does; if there is none, a new one is added to `cnf` and to `gates`.
pub(crate) fn combined_lit(
    alloc: Global,
    cnf: &mut Cnf,
    gates: &mut Gates,
    all: bool,
    lits: &[Lit],
) -> Result<Lit, AllocError>
    requires { IsTrue (is_clause_over cnf.old.vars lits.now) }
    ensures lit { IfOk result (λ l. l ≡ (combined_lit gates.old all lits.now cnf.old.vars).lit) }
    ensures gates { OnOk result
        (gates.new ≡ gates.old ++ (combined_lit gates.old all lits.now cnf.old.vars).gates) }
    ensures made { OnOk result
        (cnf.new ≡ with_part cnf.old
        (gates_part (combined_lit gates.old all lits.now cnf.old.vars).gates cnf.old.vars)) }
{
    match lits {
        [lit] => Ok(*lit),
        _ => gate_lit(alloc, cnf, gates, all, lits),
    }
}
