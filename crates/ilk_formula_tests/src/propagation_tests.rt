ghost use Rattle.std.specs.Prelude.{◌≡◌, IfOk};

use ilk_cnf::{Cnf, Lit};
use ilk_trail::Trail;
use ilk_watches::{NumberedClauses, PropagationProgress, propagate_by_scan};
use std::alloc::{AllocError, Global};
use std::test::Fail;

// A formula of four variables that forces the first three to be true and leaves the last open. If
// `refuted`, one more clause is false then.
fn formula(alloc: Global, refuted: bool) -> Result<Cnf, AllocError>
    ensures { IfOk result (λ cnf. cnf.vars ≡ 4) }
{
    let mut cnf = Cnf::new(alloc);
    cnf.fresh()?;
    cnf.fresh()?;
    cnf.fresh()?;
    cnf.fresh()?;
    cnf.add_clause_unless_tautology(&[Lit::new(1, false), Lit::new(2, false), Lit::new(3, true)])?;
    cnf.add_clause_unless_tautology(&[Lit::new(1, false), Lit::new(2, true)])?;
    cnf.add_clause_unless_tautology(&[Lit::new(3, true), Lit::new(4, true)])?;
    cnf.add_clause_unless_tautology(&[Lit::new(1, true)])?;
    if refuted {
        cnf.add_clause_unless_tautology(&[Lit::new(2, false), Lit::new(3, false)])?;
    }
    Ok(cnf)
}

// Returns the number of set variables, or `None` if a clause is false.
fn end(conflict: Option<u64>, trail: &Trail) -> Option<u64> {
    match conflict {
        Some(_) => None,
        None => Some(trail.count()),
    }
}

// Returns how propagation ends by chains, and by a scan.
fn ends(alloc: Global, refuted: bool) -> Result<(Option<u64>, Option<u64>), AllocError> {
    let cnf = formula(alloc, refuted)?;
    let mut clauses = NumberedClauses::from_cnf(alloc, &cnf)?;
    let mut by_chains = Trail::new(alloc, 4)?;
    let mut by_scan = Trail::new(alloc, 4)?;
    let scanned = propagate_by_scan(&clauses, &mut by_scan);
    let mut queue = PropagationProgress::new();
    let chained = queue.propagate(&mut clauses, &mut by_chains);
    Ok((end(chained, &by_chains), end(scanned, &by_scan)))
}

// If no clause is false, both ways set three variables.
#[test]
fn chains_and_scan(rt: HostRuntime) -> Result<(), Fail> {
    assert_eq!(rt; ends(rt.alloc(), false)?, (Some(3), Some(3)));
    assert_eq!(rt; ends(rt.alloc(), true)?, (None, None));
    Ok(())
}
