ghost use Rattle.std.specs.Prelude.{◌≡◌, ℕ, ◌<◌, ◌≤◌, ◌^◌, List, length, map, nat_lt, IfOk, IsTrue};
ghost use Rattle.std.specs.List.{list_all};
ghost use Rattle.ilk_cnf.specs.Truth.{is_true, satisfies};
ghost use Rattle.ilk_ints.specs.Named.{one_hot_bits};
ghost use Rattle.ilk_ir.specs.System.{plain_system, system_valid};
ghost use Rattle.ilk_forms.specs.Leaf.{ranges_of_copy_lits};
ghost use Rattle.ilk_unroll.specs.Goal.{plain_goal, goal_valid, step_count_is_allowed};
ghost use Rattle.ilk_unroll.specs.Run.{is_wanted_run};
ghost use Rattle.ilk_unroll.specs.Query.{query_formula};
ghost use Rattle.ilk_unroll.specs.Assignment.{run_assignment};
ghost use Rattle.ilk_unroll.specs.Represented.{ValuesInRangeAndEncoded};
ghost use Rattle.ilk_unroll.specs.Tables.{StepsChooseTheseRules, choices_begin_at_or_before};

use crate::queries::{Goal, Wanted};
use crate::unroll::{StepRuleChoices, unroll};
use ilk_base::Row;
use ilk_cnf::{Assignment, Cnf, Lit};
use ilk_forms::CopyLits;
use ilk_ir::{System, Values};
use ilk_step::chosen_rule;
use std::alloc::{AllocError, Global};

/// A list of rule numbers, in the order in which the rules fire.
pub type Rows = Row<u32>;

/// A run of a system: its first values, and the numbers of the rules that fire, in order.
#[derive(Drop)]
pub struct Trace {
    pub first: Values,
    pub rules: Rows,
}

// Returns the value whose literal is true. The literals say one value each, and exactly one is
// true.
fn read_value(a: &Assignment, values: &[Lit]) -> u8
    requires few { length values.now ≤ 255 }
    requires one { (value : ℕ) × (value < length values.now)
        × (map (is_true a.now) values.now ≡ one_hot_bits value 0 (length values.now)) }
    ensures { (value : ℕ) → value < length values.now →
        map (is_true a.now) values.now ≡ one_hot_bits value 0 (length values.now) →
        result ≡ value }
{
    let mut value = 0;
    for lit in values {
        if a.is_lit_true(*lit) {
            return value;
        }
        value += 1;
    }
    value
}

// Returns the values that the literals of a copy say.
fn read_values(alloc: Global, a: &Assignment, table: &CopyLits) -> Result<Values, AllocError>
    requires bytes { IsTrue (list_all (λ range. nat_lt range 256) (ranges_of_copy_lits table.now)) }
    requires told { (values : List ℕ)
        × ValuesInRangeAndEncoded a.now table.now (ranges_of_copy_lits table.now) values }
    ensures { IfOk result
        (λ read. (values : List ℕ) →
        ValuesInRangeAndEncoded a.now table.now (ranges_of_copy_lits table.now) values
        → read ≡ values) }
{
    let mut values = Values::new(alloc);
    for column in table.as_slice() {
        values.push(read_value(a, column.values.as_slice()))?;
    }
    Ok(values)
}

fn read_rules(alloc: Global, choices: &StepRuleChoices, a: &Assignment) -> Result<Rows, AllocError>
    requires numbered { IsTrue (choices_begin_at_or_before (2 ^ 62) choices.now) }
    requires chosen { (rules : List ℕ) × StepsChooseTheseRules a.now choices.now rules }
    ensures { IfOk result
        (λ read. (rules : List ℕ) → StepsChooseTheseRules a.now choices.now rules → read ≡ rules) }
{
    let mut rules = Rows::new(alloc);
    for choice in choices.as_slice() {
        rules.push(chosen_rule(a, *choice))?;
    }
    Ok(rules)
}

/// Returns the run that a satisfying assignment of `query`'s formula, for the same arguments,
/// represents. It unrolls the formula again to find its variables. Two satisfying assignments with
/// the same run are equal.
pub fn read_back(
    alloc: Global,
    system: &System,
    goal: &Goal,
    q: Wanted,
    a: &Assignment,
) -> Result<Trace, AllocError>
    requires system { IsTrue (system_valid (plain_system system.now)) }
    requires goal { IsTrue (goal_valid system.now.ranges (plain_goal goal.now)) }
    requires wanted { IsTrue (step_count_is_allowed q) }
    requires sized { length a.now
        ≡ (query_formula (plain_system system.now) (plain_goal goal.now) q).vars }
    requires satisfied { IsTrue
        (satisfies a.now (query_formula (plain_system system.now)
        (plain_goal goal.now) q).clauses) }
    ensures run { IfOk result
        (λ trace. IsTrue
        (is_wanted_run (plain_system system.now) (plain_goal goal.now) q trace.first
        trace.rules)) }
    ensures assignment { IfOk result
        (λ trace. a.now
        ≡ run_assignment (plain_system system.now) (plain_goal goal.now) q trace.first
        trace.rules) }
{
    let mut cnf = Cnf::new(alloc);
    let unrolled = unroll(alloc, &mut cnf, system, q.steps())?;
    let first = read_values(alloc, a, unrolled.tables.at(0))?;
    let rules = read_rules(alloc, &unrolled.choices, a)?;
    let _ = goal;
    Ok(Trace { first, rules })
}
