ghost use Rattle.std.specs.Prelude.{IsTrue};
ghost use Rattle.ilk_cnf.specs.Formula.{is_lit_over};

use ilk_arena::Arena;
use ilk_cnf::Lit;
use std::test::Fail;

// Returns whether the clauses that watch a literal are exactly these, in this order.
fn is_chain(arena: &Arena, l: Lit, clauses: &[u64]) -> bool
    requires { IsTrue (is_lit_over arena.now.vars l) }
{
    let mut next = arena.first_watch(l);
    for c in clauses {
        match next {
            Some(found) if found == *c => next = arena.next_watch(found, l),
            _ => return false,
        }
    }
    next.is_none()
}

// The clauses (1 2), (1 -2) and (1 2 3), added in this order. A watch of the last moves from 1 to
// 3.
#[test]
fn chains_of_three_clauses(rt: HostRuntime) -> Result<(), Fail> {
    let mut arena = Arena::new(rt.alloc(), 3)?;
    arena.reserve(40)?;
    let first = arena.add(&[Lit::new(1, true), Lit::new(2, true)]);
    let second = arena.add(&[Lit::new(1, true), Lit::new(2, false)]);
    let third = arena.add(&[Lit::new(1, true), Lit::new(2, true), Lit::new(3, true)]);
    assert!(rt; is_chain(&arena, Lit::new(1, true), &[third, second, first]));
    assert!(rt; is_chain(&arena, Lit::new(2, true), &[third, first]));
    assert!(rt; is_chain(&arena, Lit::new(2, false), &[second]));
    assert!(rt; is_chain(&arena, Lit::new(3, true), &[]));
    arena.rewatch(None, third, Lit::new(1, true), 2);
    assert!(rt; is_chain(&arena, Lit::new(1, true), &[second, first]));
    assert!(rt; is_chain(&arena, Lit::new(2, true), &[third, first]));
    assert!(rt; is_chain(&arena, Lit::new(2, false), &[second]));
    assert!(rt; is_chain(&arena, Lit::new(3, true), &[third]));
    Ok(())
}
