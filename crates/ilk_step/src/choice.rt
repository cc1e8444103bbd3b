ghost use Rattle.std.specs.Prelude.{◌≡◌, ℕ, ◌+◌, ◌≤◌, ◌^◌, List, Bool, length, OnOk, IfOk};
ghost use Rattle.ilk_cnf.specs.Extends.{PartExtensionsAreExactly};
ghost use Rattle.ilk_cnf.specs.Part.{with_part};
ghost use Rattle.ilk_step.specs.Choice.{chosen_lits, new_variables_part, choice_part, AreChoiceBits, Chooses};

use ilk_cnf::{Assignment, Clause, Cnf, Lit};
use ilk_ints::one_of;
use std::alloc::{AllocError, Global};

/// The variables that choose one of `rules` rules in a step: one for each rule, numbered from
/// `first`. A variable is true if its rule is not chosen.
#[derive(Clone, Copy)]
pub struct Choice {
    pub first: u64,
    pub rules: u32,
}

fn add_variables(alloc: Global, cnf: &mut Cnf, rules: u64) -> Result<Clause, AllocError>
    ensures lits { IfOk result (λ lits. lits ≡ chosen_lits (cnf.old.vars + 1) rules) }
    ensures made { OnOk result (cnf.new ≡
        with_part cnf.old (new_variables_part rules cnf.old.vars)) }
{
    let mut chosen = Clause::new(alloc);
    for _ in 0..rules {
        chosen.push(Lit::new(cnf.fresh()?, false))?;
    }
    Ok(chosen)
}

/// Adds to `cnf` a variable for each of `rules` rules, true if the rule is not chosen, and clauses
/// that exactly one rule is chosen. If memory runs out, `cnf` may have grown.
pub(crate) fn add_rule_choice(alloc: Global, cnf: &mut Cnf, rules: u64) -> Result<(), AllocError>
    ensures made { OnOk result (cnf.new ≡ with_part cnf.old (choice_part rules cnf.old.vars)) }
    ensures law { OnOk result
        ((a : List Bool) → length a ≡ cnf.old.vars →
        PartExtensionsAreExactly a (choice_part rules cnf.old.vars) (AreChoiceBits rules)) }
{
    let chosen = add_variables(alloc, cnf, rules)?;
    one_of(alloc, cnf, &chosen)?;
    Ok(())
}

/// Returns the number of the rule that the assignment `a` chooses by the variables `choice`. It has
/// to choose exactly one, as every assignment does that satisfies the clauses of the step.
pub fn chosen_rule(a: &Assignment, choice: Choice) -> u32
    requires numbered { choice.first ≤ 2 ^ 62 + 1 }
    requires one { (r : ℕ) × Chooses a.now choice.first choice.rules r }
    ensures chosen { Chooses a.now choice.first choice.rules result }
    ensures only { (r : ℕ) → Chooses a.now choice.first choice.rules r → r ≡ result }
{
    let mut rule = 0;
    while rule < choice.rules && a.value(choice.first + u64::from(rule)) {
        rule += 1;
    }
    rule
}
