use ilk_cnf::Assignment;
use ilk_log::Log;

/// The answer of a search for an assignment.
#[derive(Drop)]
pub enum Answer {
    /// An assignment that satisfies the formula.
    Sat(Assignment),
    /// No assignment satisfies the formula: the log refutes it.
    Unsat,
    /// Neither: as many clauses were learned as the budget allows, and another one would be due.
    Spent,
}

/// The result of a search.
#[derive(Drop)]
pub struct Outcome {
    /// The answer.
    pub answer: Answer,
    /// The steps of the search.
    pub log: Log,
}
