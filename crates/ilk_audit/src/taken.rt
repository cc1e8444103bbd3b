/// The answer to a step of a log.
#[derive(Clone, Copy, PartialEq, Eq, Debug)]
pub enum Taken {
    /// The step follows, and its clause has a literal.
    Good,
    /// The step follows, and its clause is empty: the formula is refuted.
    Closed,
    /// The step does not follow, and is not taken.
    Bad(Why),
}

/// The reason why a step of a log does not follow by its hints.
#[derive(Clone, Copy, PartialEq, Eq, Debug)]
pub enum Why {
    /// A hint is 0, or not the number of an earlier clause.
    BadHint = 1,
    /// A hint names a clause with a true literal or with two unset ones.
    NotUnit = 2,
    /// A hint before the last names a clause with all literals false, or no last hint does.
    NotFalse = 3,
    /// A variable of the clause is not in the formula, or is in the clause twice.
    BadLiteral = 4,
}
