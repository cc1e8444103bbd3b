ghost use Rattle.std.specs.Prelude.{◌<◌};

use crate::assignments::assignment_of;
use ilk_cnf::Cnf;
use ilk_ints::{is, number, value_of};
use std::alloc::{AllocError, Global};
use std::test::Fail;

// Returns the values of an integer of `range` in those of the first `patterns` assignments that
// satisfy its formula.
fn values_found(alloc: Global, range: u8, patterns: u64) -> Result<Vec<u8>, AllocError>
    requires { 0 < range }
{
    let mut cnf = Cnf::new(alloc);
    let n = number(alloc, &mut cnf, range)?;
    let mut found = Vec::new(alloc);
    for pattern in 0..patterns {
        let a = assignment_of(alloc, cnf.vars(), pattern)?;
        if cnf.satisfies(&a) {
            found.push(value_of(n, &a))?;
        }
    }
    Ok(found)
}

#[test]
fn three_values(rt: HostRuntime) -> Result<(), Fail> {
    let found = values_found(rt.alloc(), 3, 4)?;
    assert_eq!(rt; found.as_slice(), [0, 1, 2].as_slice());
    Ok(())
}

#[test]
fn ten_values(rt: HostRuntime) -> Result<(), Fail> {
    let found = values_found(rt.alloc(), 10, 16)?;
    assert_eq!(rt; found.as_slice(), [0, 1, 2, 3, 4, 5, 6, 7, 8, 9].as_slice());
    Ok(())
}

// Returns which of the first `patterns` assignments satisfy the formula in which an integer of
// `range` has the value.
fn patterns_with(alloc: Global, range: u8, value: u8, patterns: u64) -> Result<Vec<u64>, AllocError>
    requires { value < range }
{
    let mut cnf = Cnf::new(alloc);
    let n = number(alloc, &mut cnf, range)?;
    let lit = is(alloc, &mut cnf, n, value)?;
    cnf.add_clause_unless_tautology(&[lit])?;
    let mut found = Vec::new(alloc);
    for pattern in 0..patterns {
        let a = assignment_of(alloc, cnf.vars(), pattern)?;
        if cnf.satisfies(&a) {
            found.push(pattern)?;
        }
    }
    Ok(found)
}

// Two bits and the literal: one of their eight assignments has the value.
#[test]
fn one_value(rt: HostRuntime) -> Result<(), Fail> {
    assert_eq!(rt; patterns_with(rt.alloc(), 3, 0, 8)?.len(), 1);
    assert_eq!(rt; patterns_with(rt.alloc(), 3, 2, 8)?.len(), 1);
    Ok(())
}
