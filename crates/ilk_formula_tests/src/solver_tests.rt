ghost use Rattle.std.specs.Prelude.{◌≡◌, ℕ, false, IsTrue};
ghost use Rattle.ilk_solver.specs.View.{is_unset};

use crate::pickers::{
    heaviest_negative_picker, heaviest_or_least_negative_picker, least_negative_picker,
    pick_least_negative, restart_always, restart_never,
};
use crate::row_tests::{first_clauses_answer_and_sizes, search_answer_and_step_sizes};
use ilk_cnf::{Cnf, Lit};
use ilk_solver::{Picker, Restart, Solver, View};
use std::alloc::{AllocError, Global};
use std::test::Fail;

// Picks the negative literal of the first unset variable of an order, or else that of the least
// unset one.
fn first_of(order: &[u64], view: &View) -> Lit
    ensures unset { (v : ℕ) → IsTrue (is_unset view.now v) → IsTrue (is_unset view.now result.var) }
    ensures negative { result.positive ≡ false }
{
    for v in order {
        if 0 < *v && *v <= view.vars() && view.unset(*v) {
            return Lit::new(*v, false);
        }
    }
    pick_least_negative(view)
}

// A closure with an order of variables decides. Over the clause (1 2) the variable decided first is
// false, and the other is forced.
#[test]
fn decisions_by_an_order(rt: HostRuntime) -> Result<(), Fail> {
    for (order, answer) in [([1, 2], "sat false true"), ([2, 1], "sat true false")] {
        let by_order = move |view: &View| first_of(&order, view);
        let picker = Picker::new(Box::new(rt.alloc(), by_order)?);
        let restart = Restart::new(Box::new(rt.alloc(), restart_never)?);
        let a = first_clauses_answer_and_sizes(rt.alloc(), 1, picker, restart, 0)?;
        assert_eq!(rt; a.as_str(), answer);
    }
    Ok(())
}

// The clauses (2 3 4), (2 3 -4) and (1 -3).
fn weighing(alloc: Global) -> Result<Cnf, AllocError> {
    let mut cnf = Cnf::new(alloc);
    cnf.fresh()?;
    cnf.fresh()?;
    cnf.fresh()?;
    cnf.fresh()?;
    cnf.add_clause_unless_tautology(&[Lit::new(2, true), Lit::new(3, true), Lit::new(4, true)])?;
    cnf.add_clause_unless_tautology(&[Lit::new(2, true), Lit::new(3, true), Lit::new(4, false)])?;
    cnf.add_clause_unless_tautology(&[Lit::new(1, true), Lit::new(3, false)])?;
    Ok(cnf)
}

// A closure with a number of steps restarts. Variable 1 is decided false, so 3 is false and 2 can't
// be: the step (2 3) is learned, which makes 2 true. If the search then restarts, 2 and 3 are the
// heaviest. 2 is decided false, so 3 is true, and 1 too.
#[test]
fn restarts_at_a_number(rt: HostRuntime) -> Result<(), Fail> {
    for (number, answer) in [
        (1, "sat true false true false longer"),
        (2, "sat false true false false longer"),
    ] {
        let at_number = move |steps: u64| steps == number;
        let picker = heaviest_negative_picker(rt.alloc())?;
        let restart = Restart::new(Box::new(rt.alloc(), at_number)?);
        let cnf = weighing(rt.alloc())?;
        let a = search_answer_and_step_sizes(rt.alloc(), &cnf, picker, restart, 9)?;
        assert_eq!(rt; a.as_str(), answer, "restart at {number}");
    }
    Ok(())
}

// A picker that asks for weights decides as one that asks for the heaviest variable.
#[test]
fn decisions_by_weights(rt: HostRuntime) -> Result<(), Fail> {
    let cnf = weighing(rt.alloc())?;
    let restart = Restart::new(Box::new(rt.alloc(), restart_always)?);
    let a = search_answer_and_step_sizes(
        rt.alloc(),
        &cnf,
        heaviest_or_least_negative_picker(rt.alloc())?,
        restart,
        9,
    )?;
    assert_eq!(rt; a.as_str(), "sat true false true false longer");
    Ok(())
}

// The clauses (1), (-1 2) and, if `refuted`, (-1 -2).
fn forcing(alloc: Global, refuted: bool) -> Result<Cnf, AllocError> {
    let mut cnf = Cnf::new(alloc);
    cnf.fresh()?;
    cnf.fresh()?;
    cnf.add_clause_unless_tautology(&[Lit::new(1, true)])?;
    cnf.add_clause_unless_tautology(&[Lit::new(1, false), Lit::new(2, true)])?;
    if refuted {
        cnf.add_clause_unless_tautology(&[Lit::new(1, false), Lit::new(2, false)])?;
    }
    Ok(cnf)
}

// Propagation returns a false clause, if there is one.
#[test]
fn propagation_of_a_solver(rt: HostRuntime) -> Result<(), Fail> {
    for refuted in [false, true] {
        let cnf = forcing(rt.alloc(), refuted)?;
        let picker = least_negative_picker(rt.alloc())?;
        let restart = Restart::new(Box::new(rt.alloc(), restart_never)?);
        let mut solver = Solver::new(rt.alloc(), &cnf, picker, restart)?;
        assert_eq!(rt; solver.propagate().is_some(), refuted);
    }
    Ok(())
}
