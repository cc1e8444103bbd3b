use crate::pickers::{
    greatest_positive_picker, heaviest_negative_picker, least_negative_picker, restart_always,
    restart_never,
};
use ilk_cnf::{Assignment, Cnf, Lit};
use ilk_log::Log;
use ilk_solver::{Answer, Picker, Restart, Solver};
use std::alloc::{AllocError, Global};
use std::test::Fail;

/// Creates a formula with the first `clauses` of the clauses (1 2), (1 -2), (-1 2), (-1 -2).
pub(crate) fn formula(alloc: Global, clauses: u8) -> Result<Cnf, AllocError> {
    let mut cnf = Cnf::new(alloc);
    cnf.fresh()?;
    cnf.fresh()?;
    for i in 0..clauses {
        cnf.add_clause_unless_tautology(&[Lit::new(1, i < 2), Lit::new(2, i % 2 == 0)])?;
    }
    Ok(cnf)
}

fn push_values(text: &mut String, a: &Assignment) -> Result<(), AllocError> {
    for i in 0..a.len() {
        text.push_str(if *a.at(i) { " true" } else { " false" })?;
    }
    Ok(())
}

fn push_sizes(text: &mut String, log: &Log) -> Result<(), AllocError> {
    for i in 0..log.len() {
        let step = log.at(i)?;
        text.push_str(match step.clause.len() {
            0 => " empty",
            1 => " unit",
            _ => " longer",
        })?;
    }
    Ok(())
}

/// Searches `cnf` with `picker`, `restart` and a conflict budget. Returns the answer as text, with
/// the values if it is `sat`, and the sizes of the learned steps.
pub(crate) fn search_answer_and_step_sizes(
    alloc: Global,
    cnf: &Cnf,
    picker: Picker,
    restart: Restart,
    budget: u64,
) -> Result<String, AllocError> {
    let outcome = Solver::new(alloc, cnf, picker, restart)?.solve(budget)?;
    let mut text = String::new(alloc);
    match &outcome.answer {
        Answer::Sat(a) => {
            text.push_str("sat")?;
            push_values(&mut text, a)?;
        }
        Answer::Unsat => text.push_str("unsat")?,
        Answer::Spent => text.push_str("spent")?,
    }
    push_sizes(&mut text, &outcome.log)?;
    Ok(text)
}

/// Returns `search_answer_and_step_sizes` for the first `clauses` of the four clauses of `formula`:
/// the answer of the search, and the sizes of the learned steps.
pub(crate) fn first_clauses_answer_and_sizes(
    alloc: Global,
    clauses: u8,
    picker: Picker,
    restart: Restart,
    budget: u64,
) -> Result<String, AllocError> {
    let cnf = formula(alloc, clauses)?;
    search_answer_and_step_sizes(alloc, &cnf, picker, restart, budget)
}

// The four clauses are unsatisfiable. Each search learns one unit clause, and then the empty one.
#[test]
fn four_clauses(rt: HostRuntime) -> Result<(), Fail> {
    for (budget, answer) in [
        (0, "spent"),
        (1, "unsat unit empty"),
        (9, "unsat unit empty"),
    ] {
        let a = first_clauses_answer_and_sizes(
            rt.alloc(),
            4,
            least_negative_picker(rt.alloc())?,
            Restart::new(Box::new(rt.alloc(), restart_never)?),
            budget,
        )?;
        assert_eq!(rt; a.as_str(), answer, "least, never, {budget}");
        let a = first_clauses_answer_and_sizes(
            rt.alloc(),
            4,
            least_negative_picker(rt.alloc())?,
            Restart::new(Box::new(rt.alloc(), restart_always)?),
            budget,
        )?;
        assert_eq!(rt; a.as_str(), answer, "least, always, {budget}");
        let a = first_clauses_answer_and_sizes(
            rt.alloc(),
            4,
            greatest_positive_picker(rt.alloc())?,
            Restart::new(Box::new(rt.alloc(), restart_never)?),
            budget,
        )?;
        assert_eq!(rt; a.as_str(), answer, "greatest, never, {budget}");
        let a = first_clauses_answer_and_sizes(
            rt.alloc(),
            4,
            greatest_positive_picker(rt.alloc())?,
            Restart::new(Box::new(rt.alloc(), restart_always)?),
            budget,
        )?;
        assert_eq!(rt; a.as_str(), answer, "greatest, always, {budget}");
        let a = first_clauses_answer_and_sizes(
            rt.alloc(),
            4,
            heaviest_negative_picker(rt.alloc())?,
            Restart::new(Box::new(rt.alloc(), restart_never)?),
            budget,
        )?;
        assert_eq!(rt; a.as_str(), answer, "heaviest, never, {budget}");
    }
    Ok(())
}

// The first three have only one model: both variables true. The picker that begins with false
// learns a unit on the way, the other none.
#[test]
fn three_clauses(rt: HostRuntime) -> Result<(), Fail> {
    let a = first_clauses_answer_and_sizes(
        rt.alloc(),
        3,
        least_negative_picker(rt.alloc())?,
        Restart::new(Box::new(rt.alloc(), restart_never)?),
        9,
    )?;
    assert_eq!(rt; a.as_str(), "sat true true unit");
    let a = first_clauses_answer_and_sizes(
        rt.alloc(),
        3,
        greatest_positive_picker(rt.alloc())?,
        Restart::new(Box::new(rt.alloc(), restart_always)?),
        0,
    )?;
    assert_eq!(rt; a.as_str(), "sat true true");
    Ok(())
}

#[test]
fn no_clause(rt: HostRuntime) -> Result<(), Fail> {
    let a = first_clauses_answer_and_sizes(
        rt.alloc(),
        0,
        least_negative_picker(rt.alloc())?,
        Restart::new(Box::new(rt.alloc(), restart_never)?),
        0,
    )?;
    assert_eq!(rt; a.as_str(), "sat false false");
    Ok(())
}
