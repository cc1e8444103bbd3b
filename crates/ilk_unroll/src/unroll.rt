ghost use Rattle.std.specs.Prelude.{◌≡◌, ◌+◌, ◌*◌, ◌<◌, ◌≤◌, ◌^◌, [], nat_lt, map, OnOk, IfOk, IsTrue};
ghost use Rattle.std.specs.List.{list_all};
ghost use Rattle.ilk_cnf.specs.Formula.{with_var_count_and_clauses, with_var_count};
ghost use Rattle.ilk_cnf.specs.Part.{with_part, clauses_from_lists};
ghost use Rattle.ilk_ir.specs.System.{plain_rule, plain_system, system_valid};
ghost use Rattle.ilk_forms.specs.Copy.{copy_var_count};
ghost use Rattle.ilk_unroll.specs.Query.{copies_part, steps_part};
ghost use Rattle.ilk_unroll.specs.Represented.{run_choice_variables, run_copies_part, run_part};
ghost use Rattle.ilk_unroll.specs.Tables.{are_copies_within_vars, EachCopyHasTheseRanges, choice_variables_per_step, choices_begin_at_or_before};

use ilk_base::Row;
use ilk_cnf::Cnf;
use ilk_forms::{CopyLits, add_copy_clauses, reserve_copy_vars};
use ilk_ir::{Ranges, System};
use ilk_step::{Choice, add_step};
use std::alloc::{AllocError, Global};

/// The literals of the copy (time frame) of each moment of a run, from the first on.
pub(crate) type RunLits = Row<CopyLits>;

/// For each step of a run, the variables that say which rule is chosen.
pub(crate) type StepRuleChoices = Row<Choice>;

/// An unrolled system: the literals of its copies, and the variables from which a run is read.
#[derive(Drop)]
pub(crate) struct Unrolled {
    pub tables: RunLits,
    pub choices: StepRuleChoices,
}

fn take_copies(cnf: &mut Cnf, ranges: &Ranges, count: u32) -> Result<(), AllocError>
    ensures { OnOk result
        (cnf.new ≡ with_var_count cnf.old (cnf.old.vars + count * copy_var_count ranges.now)) }
{
    for _ in 0..count {
        reserve_copy_vars(cnf, ranges)?;
    }
    Ok(())
}

fn add_copies(
    alloc: Global,
    cnf: &mut Cnf,
    ranges: &Ranges,
    width: u64,
    count: u32,
) -> Result<RunLits, AllocError>
    requires width { width ≡ copy_var_count ranges.now }
    requires there { cnf.old.vars ≡ count * copy_var_count ranges.now }
    ensures tables { IfOk result (λ tables. tables ≡ (copies_part ranges.now count 0).tables) }
    ensures made { OnOk result
        (cnf.new
        ≡ with_var_count_and_clauses cnf.old cnf.old.vars
        (clauses_from_lists (copies_part ranges.now count 0).part.clauses)) }
{
    let _ranges = bytes_of(ranges.as_slice());
    let mut tables = RunLits::new(alloc);
    let mut before = cnf.vars();
    for _ in 0..count {
        before -= width;
        tables.push(add_copy_clauses(alloc, cnf, ranges, before)?)?;
    }
    Ok(tables)
}

fn add_steps(
    alloc: Global,
    cnf: &mut Cnf,
    system: &System,
    tables: &RunLits,
) -> Result<StepRuleChoices, AllocError>
    requires within { IsTrue (are_copies_within_vars cnf.old.vars tables.now) }
    requires ranges { EachCopyHasTheseRanges system.now.ranges tables.now }
    requires valid { IsTrue (system_valid (plain_system system.now)) }
    ensures choices { IfOk result
        (λ choices. choices
        ≡ choice_variables_per_step (map plain_rule system.now.rules) tables.now cnf.old.vars) }
    ensures made { OnOk result
        (cnf.new
        ≡ with_part cnf.old
        (steps_part (map plain_rule system.now.rules) tables.now cnf.old.vars)) }
{
    let mut choices = StepRuleChoices::new(alloc);
    for i in 1..tables.len() {
        let choice = add_step(alloc, cnf, tables.at(i - 1), tables.at(i), &system.rules)?;
        choices.push(choice)?;
    }
    Ok(choices)
}

fn bytes_of(ranges: &[u8]) -> &[u8]
    ensures items { result.now ≡ ranges.now }
    ensures bytes { IsTrue (list_all (λ range. nat_lt range 256) ranges.now) }
{
    ranges
}

/// Adds to `cnf` a copy of the system's values for the start and one after each of `steps` steps,
/// and then the steps. The copies' variables come before all others, those of the last moment
/// first. Returns the copies' literals and the variables of the chosen rules. On error, `cnf` may
/// have grown.
pub(crate) fn unroll(
    alloc: Global,
    cnf: &mut Cnf,
    system: &System,
    steps: u32,
) -> Result<Unrolled, AllocError>
    requires empty { cnf.old ≡ record { vars = 0; clauses = [] } }
    requires steps { steps < 2 ^ 31 }
    requires valid { IsTrue (system_valid (plain_system system.now)) }
    ensures tables { IfOk result
        (λ unrolled. unrolled.tables ≡ (run_copies_part system.now.ranges steps).tables) }
    ensures choices { IfOk result
        (λ unrolled. unrolled.choices ≡ run_choice_variables (plain_system system.now) steps) }
    ensures made { OnOk result
        (cnf.new
        ≡ with_part (record { vars = 0; clauses = [] })
        (run_part (plain_system system.now) steps)) }
    ensures within { IfOk result
        (λ unrolled. IsTrue (are_copies_within_vars cnf.new.vars unrolled.tables)) }
    ensures ranges { IfOk result
        (λ unrolled. EachCopyHasTheseRanges system.now.ranges unrolled.tables) }
    ensures numbered { IfOk result
        (λ unrolled. IsTrue (choices_begin_at_or_before (2 ^ 62) unrolled.choices)) }
    ensures bytes { OnOk result (IsTrue (list_all (λ range. nat_lt range 256) system.now.ranges)) }
{
    let _ranges = bytes_of(system.ranges.as_slice());
    take_copies(cnf, &system.ranges, steps)?;
    let before = cnf.vars();
    reserve_copy_vars(cnf, &system.ranges)?;
    let all = cnf.vars();
    let tables = add_copies(alloc, cnf, &system.ranges, all - before, steps + 1)?;
    let choices = add_steps(alloc, cnf, system, &tables)?;
    let _ = cnf.vars();
    Ok(Unrolled { tables, choices })
}
