use crate::hints::Hints;
use ilk_cnf::Lits;

/// A clause, and its hints: the numbers of the clauses from which it follows by propagation, in the
/// order of use.
#[derive(Drop)]
pub struct Step {
    pub clause: Lits,
    pub hints: Hints,
}
