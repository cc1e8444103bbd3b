use crate::checker::Checker;
use ilk_log::Log;

/// The result of checking the next item of a text.
#[derive(Drop)]
pub(crate) enum Next<'a> {
    /// The item is right. Contains the checker after it.
    Right(Checker<'a>),
    /// The item is bad, or none is left and the empty clause doesn't follow.
    Bad,
    /// No item is left, and the log refutes the formula.
    Refuted(Log),
}
