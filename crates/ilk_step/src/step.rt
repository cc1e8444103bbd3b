ghost use Rattle.std.specs.Prelude.{◌≡◌, ◌+◌, ◌*◌, ◌≤◌, ◌<◌, ◌^◌, ◌++◌, ℕ, List, Bool, Some, length, map, OnOk, IfOk, IsTrue};
ghost use Rattle.std.specs.List.{list_all};
ghost use Rattle.ilk_cnf.specs.Extends.{PartExtensionsAreExactly};
ghost use Rattle.ilk_cnf.specs.Part.{with_part};
ghost use Rattle.ilk_ir.specs.System.{plain_rule, rule_valid, in_ranges};
ghost use Rattle.ilk_forms.specs.Copy.{LiteralsEncode};
ghost use Rattle.ilk_forms.specs.Leaf.{has_lits_within_vars, ranges_of_copy_lits};
ghost use Rattle.ilk_step.specs.Choice.{Chooses};
ghost use Rattle.ilk_step.specs.Size.{total_guard_tree_size, settings_count, value_and_bound_lits_count};
ghost use Rattle.ilk_step.specs.Step.{step_part, step_bits, values_after_rule_number, AreStepBits};

use crate::choice::{Choice, add_rule_choice};
use crate::frame::add_frame_axioms;
use crate::rules::add_rules;
use ilk_cnf::Cnf;
use ilk_forms::CopyLits;
use ilk_ir::Rules;
use std::alloc::{AllocError, Global};

/// Adds to `cnf` the clauses of one step by exactly one of `rules`, and returns the variables that
/// choose the rule. `now` and `next` have the literals of the system's values before and after the
/// step, with the same ranges. The rule's guard holds before it, its settings hold after it, and
/// all other variables keep their values. The rules must be valid over the ranges. If memory runs
/// out, `cnf` may have grown.
pub fn add_step(
    alloc: Global,
    cnf: &mut Cnf,
    now: &CopyLits,
    next: &CopyLits,
    rules: &Rules,
) -> Result<Choice, AllocError>
    requires now { IsTrue (has_lits_within_vars cnf.old.vars now.now) }
    requires next { IsTrue (has_lits_within_vars cnf.old.vars next.now) }
    requires same { ranges_of_copy_lits next.now ≡ ranges_of_copy_lits now.now }
    requires few { length rules.now < 2 ^ 32 }
    requires valid { IsTrue
        (list_all (rule_valid (ranges_of_copy_lits now.now)) (map plain_rule rules.now)) }
    ensures choice { IfOk result
        (λ choice. choice ≡ record { first = cnf.old.vars + 1; rules = length rules.now }) }
    ensures made { OnOk result
        (cnf.new
        ≡ with_part cnf.old
        (step_part (map plain_rule rules.now) now.now next.now cnf.old.vars)) }

    // If the copies have the values `ws` and `xs`, there is exactly one extension for each rule
    // that leads from `ws` to `xs`.
    ensures law { OnOk result
        ((a : List Bool) (ws xs : List ℕ) → length a ≡ cnf.old.vars →
        LiteralsEncode a now.now (ranges_of_copy_lits now.now) ws →
        LiteralsEncode a next.now (ranges_of_copy_lits now.now) xs →
        IsTrue (in_ranges ws (ranges_of_copy_lits now.now)) →
        IsTrue (in_ranges xs (ranges_of_copy_lits now.now)) →
        PartExtensionsAreExactly a
        (step_part (map plain_rule rules.now) now.now next.now cnf.old.vars)
        (AreStepBits now.now (map plain_rule rules.now) a ws xs)) }

    // The variables of the choice then say that it is that rule, regardless of what follows the
    // step.
    ensures exact { OnOk result
        ((a c : List Bool) (ws xs : List ℕ) (r : ℕ) → length a ≡ cnf.old.vars →
        values_after_rule_number (map plain_rule rules.now) ws r ≡ Some xs →
        Chooses (a ++ (step_bits now.now (map plain_rule rules.now) a r ++ c))
        (cnf.old.vars + 1) (length rules.now) r) }

    ensures vars { OnOk result
        (cnf.new.vars
        ≤ cnf.old.vars + 2 * length rules.now + total_guard_tree_size
        (map plain_rule rules.now)) }
    ensures clauses { OnOk result
        (length cnf.new.clauses
        ≤ length cnf.old.clauses +
        (4 * length rules.now + 1 + 2 * total_guard_tree_size (map plain_rule rules.now) +
        settings_count (map plain_rule rules.now) + 2 * value_and_bound_lits_count now.now)) }
{
    let first = cnf.vars() + 1;
    add_rule_choice(alloc, cnf, rules.len())?;
    add_rules(alloc, cnf, now, next, first, rules.as_slice())?;
    add_frame_axioms(alloc, cnf, now, next, rules.as_slice(), first)?;
    Ok(Choice {
        first,
        rules: rules.len() as u32,
    })
}
